// SPDX-License-Identifier: Apache-2.0
ghost use Rattle.std.specs.Prelude.{◌≡◌, ◌∷◌, ◌++◌, [], None, map, option_to_list, IfOk};
ghost use Rattle.std.specs.Option.{option_copied};
ghost use Rattle.cedar_text.specs.Lists.{elements};
ghost use Rattle.cedar_tree.specs.Meanings.{app_tree, node_of, scope_tree};
ghost use Rattle.cedar_tree.specs.Trees.{Principal, Resource};
ghost use Rattle.cedar_convert_faults.specs.Faults.{Clauses, applies_faults, clause_twice, fault_behind, first_place, is_like, missing_types, no_types, own_faults};
ghost use Rattle.cedar_convert_faults.specs.Lists.{first_found};
ghost use Rattle.cedar_convert_faults.specs.Remembering.{Remembers};

use crate::entities::shape_fault;
use cedar_convert_errors::{
    DuplicateContext, DuplicatePrincipalOrResource, NoPrincipalOrResource, ToJsonSchemaError,
};
use cedar_data::{Dup, Mem, Text};
use cedar_text::{Loc, Node, NonEmpty};
use cedar_tree::{AppDecl, PR};
use std::alloc::Global;

/// Where each kind of clause first stands, as far as an `appliesTo` was read.
#[derive(Drop)]
struct Seen<'a> {
    principal: Option<&'a Loc>,
    resource: Option<&'a Loc>,
    context: Option<&'a Loc>,
}

impl<'a> Seen<'a> {
    /// Where the first clause stands that is of the kind of this one, if there is one.
    fn earlier(&self, clause: &AppDecl) -> Option<&'a Loc>
        ensures { (before : Clauses) → Remembers self.now before
            → option_copied result ≡ first_place (is_like (app_tree clause.now)) before }
    {
        match clause {
            AppDecl::PR(list) => match list.kind.node {
                PR::Principal => self.principal,
                PR::Resource => self.resource,
            },
            AppDecl::Context(_) => self.context,
        }
    }

    /// With the place of a clause of whose kind none was read.
    #[tactic(auto, using(crate::proofs::ReadClauses::placing))]
    fn with(self, clause: &'a Node<AppDecl>) -> Seen<'a>
        ensures { (before : Clauses) → Remembers self.entry before
            → first_place (is_like (app_tree clause.now.node)) before ≡ None
            → Remembers result (before ++ node_of app_tree clause.now ∷ []) }
    {
        let Seen {
            principal,
            resource,
            context,
        } = self;
        let place = Some(&clause.loc);
        match &clause.node {
            AppDecl::PR(list) => match list.kind.node {
                PR::Principal => Seen {
                    principal: place,
                    resource,
                    context,
                },
                PR::Resource => Seen {
                    principal,
                    resource: place,
                    context,
                },
            },
            AppDecl::Context(_) => Seen {
                principal,
                resource,
                context: place,
            },
        }
    }
}

/// A clause that stands twice, for the action of this name.
fn clause_twice(
    alloc: Global,
    name: &Node<Text>,
    clause: &AppDecl,
    first: &Loc,
    second: &Loc,
) -> Mem<ToJsonSchemaError>
    ensures { IfOk result (λ fault. fault
        ≡ clause_twice name.now (app_tree clause.now) first.now second.now) }
{
    let name = name.node.dup(alloc)?;
    let loc1 = first.dup(alloc)?;
    let loc2 = second.dup(alloc)?;
    match clause {
        AppDecl::PR(list) => Ok(ToJsonSchemaError::DuplicatePrincipalOrResource(
            DuplicatePrincipalOrResource {
                name,
                kind: list.kind.node,
                loc1,
                loc2,
            },
        )),
        AppDecl::Context(_) => Ok(ToJsonSchemaError::DuplicateContext(DuplicateContext {
            name,
            loc1,
            loc2,
        })),
    }
}

/// An action without types of a kind: its list, at this place, is empty, or there is none.
fn no_types(
    alloc: Global,
    name: &Node<Text>,
    kind: PR,
    empty: Option<&Loc>,
) -> Mem<ToJsonSchemaError>
    ensures { IfOk result (λ fault. fault
        ≡ no_types name.now (scope_tree kind) (option_copied empty.entry)) }
{
    let empty_loc = match empty {
        None => None,
        Some(place) => Some(place.dup(alloc)?),
    };
    let name_loc = name.loc.dup(alloc)?;
    let name = name.node.dup(alloc)?;
    Ok(ToJsonSchemaError::NoPrincipalOrResource(NoPrincipalOrResource {
        name,
        kind,
        name_loc,
        empty_loc,
    }))
}

/// What is wrong with a clause alone, if anything is.
fn own_fault(
    alloc: Global,
    name: &Node<Text>,
    clause: &Node<AppDecl>,
) -> Mem<Option<ToJsonSchemaError>>
    ensures { IfOk result (λ fault. option_to_list fault
        ≡ own_faults name.now (app_tree clause.now.node) clause.now.loc) }
{
    match &clause.node {
        AppDecl::PR(list) => match &list.entity_tys {
            Some(_) => Ok(None),
            None => {
                let fault = no_types(alloc, name, list.kind.node, Some(&clause.loc))?;
                Ok(Some(fault))
            }
        },
        AppDecl::Context(context) => shape_fault(alloc, context),
    }
}

/// The first rule that a clause breaks, if it breaks one, where the first of its kind stands at this place.
fn clause_fault(
    alloc: Global,
    name: &Node<Text>,
    first: Option<&Loc>,
    clause: &Node<AppDecl>,
) -> Mem<Option<ToJsonSchemaError>>
    ensures { IfOk result (λ fault. option_to_list fault
        ≡ fault_behind name.now (option_copied first.entry) (node_of app_tree clause.now)) }
{
    match first {
        None => own_fault(alloc, name, clause),
        Some(first) => {
            let fault = clause_twice(alloc, name, &clause.node, first, &clause.loc)?;
            Ok(Some(fault))
        }
    }
}

/// The kind of types that no clause lists, resources first, if one is missing.
fn missing_fault(
    alloc: Global,
    name: &Node<Text>,
    seen: &Seen<'_>,
) -> Mem<Option<ToJsonSchemaError>>
    ensures { (before : Clauses) → Remembers seen.now before → IfOk result (λ fault.
        option_to_list fault ≡ first_found
        (missing_types name.now Resource before ∷ missing_types name.now Principal before ∷ [])) }
{
    if seen.resource.is_none() {
        let fault = no_types(alloc, name, PR::Resource, None)?;
        return Ok(Some(fault));
    }
    if seen.principal.is_none() {
        let fault = no_types(alloc, name, PR::Principal, None)?;
        return Ok(Some(fault));
    }
    Ok(None)
}

/// The first faulty clause of an `appliesTo`, or else the resources or the principals that are missing.
#[tactic(auto, using(crate::proofs::ReadClauses::reading))]
pub(crate) fn applies_fault(
    alloc: Global,
    name: &Node<Text>,
    clauses: &NonEmpty<Node<AppDecl>>,
) -> Mem<Option<ToJsonSchemaError>>
    ensures { IfOk result (λ fault. option_to_list fault
        ≡ applies_faults name.now (map (node_of app_tree) (elements clauses.now))) }
{
    let mut seen = Seen {
        principal: None,
        resource: None,
        context: None,
    };
    for clause in clauses.iter() {
        let first = seen.earlier(&clause.node);
        if let Some(fault) = clause_fault(alloc, name, first, clause)? {
            return Ok(Some(fault));
        }
        seen = seen.with(clause);
    }
    missing_fault(alloc, name, &seen)
}
