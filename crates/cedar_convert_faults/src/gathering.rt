// SPDX-License-Identifier: Apache-2.0
ghost use Rattle.std.specs.Prelude.{◌≡◌, [], ◌∷◌, ◌++◌, map, IfOk};
ghost use Rattle.cedar_tree.specs.Meanings.{schema_tree, annotated_tree, node_of, decl_tree};
ghost use Rattle.cedar_convert_faults.specs.Gathering.{namespaces_of, named_namespaces, loose_declarations, gathered_tree, unnamed};

use cedar_data::{Dup, Items, Mem};
use cedar_text::Node;
use cedar_tree::{Annotated, Annotations, Declaration, Namespace, Path, Schema};
use std::alloc::Global;

/// The declarations of a namespace, with its name and annotations; those of the unnamed one have neither.
#[derive(Debug, Drop)]
pub struct Gathered {
    pub name: Option<Path>,
    pub annotations: Annotations,
    pub decls: Items<Annotated<Node<Declaration>>>,
}

impl Dup for Gathered {
    fn dup(&self, alloc: Global) -> Mem<Gathered> {
        let name = self.name.dup(alloc)?;
        let annotations = self.annotations.dup(alloc)?;
        let decls = self.decls.dup(alloc)?;
        Ok(Gathered {
            name,
            annotations,
            decls,
        })
    }
}

/// The named namespaces in the order of the text, and then one of all declarations that stand in none, if there are any.
pub fn gather(alloc: Global, schema: Schema) -> Mem<Items<Gathered>>
    ensures { IfOk result (λ all. map gathered_tree all ≡ namespaces_of (schema_tree schema)) }
{
    // where a text was parsed each of these holds one declaration
    let unnamed = schema
        .iter()
        .filter(|namespace| namespace.item.name.is_none())
        .count();
    let mut all = Items::new(alloc);
    let mut loose = Items::from_vec(Vec::with_capacity(alloc, unnamed)?);
    for namespace in schema.into_vec() {
        gather_one(&mut all, &mut loose, namespace)?;
    }
    with_unnamed(alloc, all, loose)
}

/// Puts a named namespace behind the others, or the declarations of an unnamed one behind those that stand in none.
fn gather_one(
    all: &mut Items<Gathered>,
    loose: &mut Items<Annotated<Node<Declaration>>>,
    namespace: Annotated<Namespace>,
) -> Mem<()>
    ensures named { IfOk result (λ _. map gathered_tree all.new
        ≡ map gathered_tree all.old ++ named_namespaces (schema_tree (namespace ∷ []))) }
    ensures loose { IfOk result (λ _. map (annotated_tree (node_of decl_tree)) loose.new
        ≡ map (annotated_tree (node_of decl_tree)) loose.old
        ++ loose_declarations (schema_tree (namespace ∷ []))) }
{
    let Annotated { item, annotations } = namespace;
    let Namespace {
        name,
        decls,
        loc: _,
    } = item;
    match name {
        None => {
            for decl in decls.into_vec() {
                loose.push(decl)?;
            }
            Ok(())
        }
        Some(path) => {
            all.push(Gathered {
                name: Some(path),
                annotations,
                decls,
            })?;
            Ok(())
        }
    }
}

/// The namespaces, and behind them the unnamed one of these declarations, if there are any.
#[tactic(auto, using(crate::proofs::Unnamed::unnamed_last))]
fn with_unnamed(
    alloc: Global,
    mut all: Items<Gathered>,
    loose: Items<Annotated<Node<Declaration>>>,
) -> Mem<Items<Gathered>>
    ensures { IfOk result (λ more. map gathered_tree more ≡ map gathered_tree all
        ++ unnamed (map (annotated_tree (node_of decl_tree)) loose)) }
{
    if loose.is_empty() {
        return Ok(all);
    }
    all.push(Gathered {
        name: None,
        annotations: Annotations::new(alloc),
        decls: loose,
    })?;
    Ok(all)
}
