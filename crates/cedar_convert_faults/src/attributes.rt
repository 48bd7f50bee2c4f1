// SPDX-License-Identifier: Apache-2.0
ghost use Rattle.std.specs.Prelude.{◌≡◌, [], map, IfOk};
ghost use Rattle.std.specs.Option.{option_copied};
ghost use Rattle.cedar_tree.specs.Meanings.{attrs_tree, type_tree};
ghost use Rattle.cedar_convert_faults.specs.Repeats.{place_of};
ghost use Rattle.cedar_convert_faults.specs.TypeRepeats.{leftmost_repeat, repeat_among};

use crate::repeats::{FEW, Repeat, repeat_of};
use cedar_data::{Dup, Items, Map, Mem, Text};
use cedar_text::{Loc, Node};
use cedar_tree::{Annotated, AttrDecl, Type};
use std::alloc::Global;

/// The leftmost attribute of a type that an earlier attribute of the same record has as its name, if there is one.
#[cycle(repeats)]
pub fn leftmost_repeat(alloc: Global, ty: &Type) -> Mem<Option<Repeat>>
    ensures { IfOk result (λ repeat. repeat ≡ leftmost_repeat (type_tree ty.now)) }
{
    match ty {
        Type::Set(element) => leftmost_repeat(alloc, &element.get().node),
        Type::Ident(_) => Ok(None),
        Type::Record(attrs) => repeat_among(alloc, attrs),
    }
}

/// The place of the first of these attributes that has the name, if one has.
fn place_among<'a>(attrs: &'a [Node<Annotated<AttrDecl>>], name: &Text) -> Option<&'a Loc>
    ensures { option_copied result
        ≡ place_of (map (λ attr. attr.node.item.name) attrs.now) name.now }
{
    for attr in attrs {
        let earlier = &attr.node.item.name;
        if earlier.node == *name {
            return Some(&earlier.loc);
        }
    }
    None
}

/// The same of the attributes of a record that are few, each looked for among those before it.
#[cycle(repeats)]
#[tactic(auto, using(crate::proofs::RecordRepeats::among))]
fn repeat_among_few(alloc: Global, attrs: &[Node<Annotated<AttrDecl>>]) -> Mem<Option<Repeat>>
    ensures { IfOk result (λ repeat. repeat ≡ repeat_among (attrs_tree attrs.now) []) }
{
    for at in 0..attrs.len() {
        let decl = &attrs[at].node.item;
        if let Some(first) = place_among(&attrs[..at], &decl.name.node) {
            let repeat = repeat_of(alloc, first, &decl.name)?;
            return Ok(Some(repeat));
        }
        if let Some(inner) = leftmost_repeat(alloc, &decl.ty.node)? {
            return Ok(Some(inner));
        }
    }
    Ok(None)
}

/// The same of the attributes of a record.
#[cycle(repeats)]
#[tactic(auto, using(crate::proofs::RecordRepeats::among))]
pub(crate) fn repeat_among(
    alloc: Global,
    attrs: &Items<Node<Annotated<AttrDecl>>>,
) -> Mem<Option<Repeat>>
    ensures { IfOk result (λ repeat. repeat ≡ repeat_among (attrs_tree attrs.now) []) }
{
    if attrs.len() <= FEW {
        return repeat_among_few(alloc, attrs.as_slice());
    }
    let mut places: Map<Text, Loc> = Map::new(alloc);
    for attr in attrs.as_slice() {
        let decl = &attr.node.item;
        let word = decl.name.node.dup(alloc)?;
        let place = decl.name.loc.dup(alloc)?;
        if let Some(first) = places.insert(word, place)? {
            let second = decl.name.loc.dup(alloc)?;
            let name = decl.name.node.dup(alloc)?;
            return Ok(Some(Repeat {
                name,
                first,
                second,
            }));
        }
        if let Some(inner) = leftmost_repeat(alloc, &decl.ty.node)? {
            return Ok(Some(inner));
        }
    }
    Ok(None)
}
