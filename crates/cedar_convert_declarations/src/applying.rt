// SPDX-License-Identifier: Apache-2.0
ghost use Rattle.std.specs.Prelude.{◌≡◌, ◌++◌, ◌∷◌, [], Some, map, option_map, IfOk, OnOk};
ghost use Rattle.std.specs.Option.{option_or};
ghost use Rattle.cedar_text.specs.Lists.{elements};
ghost use Rattle.cedar_tree.specs.Meanings.{app_tree, listed, node_of, qual_tree};
ghost use Rattle.cedar_tree.specs.Trees.{Principal, Resource};
ghost use Rattle.cedar_convert_declarations.specs.Applied.{applied_seen, context_seen};
ghost use Rattle.cedar_convert_fragment.specs.Declares.{applies_to, clauses_of, context_in, first_context, listed_in, listed_of, name_of, parent_of, parents_of};
ghost use Rattle.cedar_convert_fragment.specs.Views.{apply_seen, name_at, parent_seen};

use crate::putting::add_raw_names;
use cedar_convert_fragment::{raw_name_from_path, shape_declared};
use cedar_data::{Boxed, Items, Mem};
use cedar_fragment::{ActionEntityUID, ApplySpec, AttributesOrContext, RawName};
use cedar_text::{Node, NonEmpty, push_elements};
use cedar_tree::{AppDecl, PR, PRAppDecl, QualName};
use std::alloc::Global;

/// What the clauses of an `appliesTo` say, as far as they were read.
#[derive(Drop)]
struct Applied {
    principals: Items<RawName>,
    resources: Items<RawName>,
    context: Option<AttributesOrContext<RawName>>,
}

impl Applied {
    /// With what a clause says: more principals, more resources, or a context where there was none.
    #[tactic(auto, using(crate::proofs::ApplyViews::kept))]
    fn add(&mut self, alloc: Global, clause: AppDecl) -> Mem<()>
        ensures principals { OnOk result (map name_at self.new.principals
            ≡ map name_at self.old.principals
            ++ map name_of (listed_in Principal (app_tree clause))) }
        ensures resources { OnOk result (map name_at self.new.resources
            ≡ map name_at self.old.resources
            ++ map name_of (listed_in Resource (app_tree clause))) }
        ensures context { OnOk result (context_seen self.new.context
            ≡ option_or (context_seen self.old.context) (context_in (app_tree clause))) }
    {
        match clause {
            AppDecl::PR(PRAppDecl { kind, entity_tys }) => match kind.node {
                PR::Principal => add_raw_names(alloc, entity_tys, &mut self.principals),
                PR::Resource => add_raw_names(alloc, entity_tys, &mut self.resources),
            },
            AppDecl::Context(shape) => {
                let shape = shape_declared(alloc, shape)?;
                keep_first(&mut self.context, shape);
                Ok(())
            }
        }
    }

    /// With what each of the clauses says.
    #[tactic(auto, using(crate::proofs::ApplyViews::clauses))]
    fn add_all(&mut self, alloc: Global, clauses: Vec<Node<AppDecl>>) -> Mem<()>
        ensures principals { OnOk result (map name_at self.new.principals
            ≡ map name_at self.old.principals
            ++ listed_of Principal (map (node_of app_tree) clauses.items)) }
        ensures resources { OnOk result (map name_at self.new.resources
            ≡ map name_at self.old.resources
            ++ listed_of Resource (map (node_of app_tree) clauses.items)) }
        ensures context { OnOk result (context_seen self.new.context
            ≡ option_or (context_seen self.old.context)
            (first_context (map (node_of app_tree) clauses.items))) }
    {
        for clause in clauses {
            self.add(alloc, clause.node)?;
        }
        Ok(())
    }
}

/// Keeps the value where none is kept yet.
fn keep_first<T: Drop>(kept: &mut Option<T>, value: T)
    ensures { kept.new ≡ option_or kept.old (Some value) }
{
    if kept.is_none() {
        *kept = Some(value);
    }
}

/// What the clauses of an `appliesTo` say.
#[tactic(auto, using(crate::proofs::ApplyViews::all_clauses))]
fn clauses_declared(alloc: Global, clauses: Vec<Node<AppDecl>>) -> Mem<ApplySpec<RawName>>
    ensures { IfOk result (λ made. apply_seen made
        ≡ applies_to (map (node_of app_tree) clauses.items)) }
{
    let mut applied = Applied {
        principals: Items::new(alloc),
        resources: Items::new(alloc),
        context: None,
    };
    applied.add_all(alloc, clauses)?;
    Ok(with_context(alloc, applied))
}

/// The same as a part of an action, with the empty context where there is none.
#[tactic(auto, using(crate::proofs::ApplyViews::with_contexts))]
fn with_context(alloc: Global, applied: Applied) -> ApplySpec<RawName>
    ensures { apply_seen result ≡ applied_seen applied }
{
    let Applied {
        principals,
        resources,
        context,
    } = applied;
    let context = match context {
        None => AttributesOrContext::empty(alloc),
        Some(context) => context,
    };
    ApplySpec {
        resource_types: resources,
        principal_types: principals,
        context,
    }
}

/// The clauses of an `appliesTo`; where it is left out, none.
fn clause_list(
    alloc: Global,
    clauses: Option<Boxed<Node<NonEmpty<Node<AppDecl>>>>>,
) -> Mem<Vec<Node<AppDecl>>>
    ensures { IfOk result (λ all. map (node_of app_tree) all.items ≡ clauses_of
        (option_map (node_of (λ lines. map (node_of app_tree) (elements lines))) clauses)) }
{
    match clauses {
        None => Ok(Vec::new(alloc)),
        Some(clauses) => {
            let NonEmpty { head, tail } = clauses.into_inner().node;
            let mut all = tail.into_vec();
            all.insert(0, head)?;
            Ok(all)
        }
    }
}

/// What an `appliesTo` says; where it is left out, nothing. It fails only for want of memory.
pub(crate) fn applies_declared(
    alloc: Global,
    clauses: Option<Boxed<Node<NonEmpty<Node<AppDecl>>>>>,
) -> Mem<ApplySpec<RawName>>
    ensures { IfOk result (λ made. apply_seen made ≡ applies_to (clauses_of
        (option_map (node_of (λ lines. map (node_of app_tree) (elements lines))) clauses))) }
{
    let all = clause_list(alloc, clauses)?;
    clauses_declared(alloc, all)
}

/// An action as a parent.
fn parent_declared(parent: QualName) -> ActionEntityUID<RawName>
    ensures { parent_seen result ≡ parent_of (qual_tree parent) }
{
    let QualName { path, eid } = parent;
    match path {
        None => ActionEntityUID::default_type(eid),
        Some(path) => ActionEntityUID::new(Some(raw_name_from_path(path)), eid),
    }
}

/// The parents, if there are any. It fails only for want of memory.
pub(crate) fn parents_declared(
    alloc: Global,
    parents: Option<Boxed<NonEmpty<Node<QualName>>>>,
) -> Mem<Option<Items<ActionEntityUID<RawName>>>>
    ensures { IfOk result (λ made. option_map (map parent_seen) made
        ≡ parents_of (map (node_of qual_tree) (listed parents))) }
{
    let Some(parents) = parents else {
        return Ok(None);
    };
    let mut all = Vec::new(alloc);
    push_elements(parents.into_inner(), &mut all)?;
    let mut made = Items::new(alloc);
    for parent in all {
        made.push(parent_declared(parent.node))?;
    }
    Ok(Some(made))
}
