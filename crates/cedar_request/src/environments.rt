// SPDX-License-Identifier: Apache-2.0
ghost use Rattle.std.specs.Prelude.{◌≡◌, ◌+◌, map, IfOk};
ghost use Rattle.std.specs.List.Sorted.{IsStrictlySortedBy};
ghost use Rattle.cedar_names.specs.Names.{entity_cmp, entity_words};
ghost use Rattle.cedar_conform.specs.of_checks.SchemaViews.{action_of};
ghost use Rattle.cedar_request.specs.Counts.{AreCounted, ArePlaces, HasPlaces};
ghost use Rattle.cedar_request.specs.Numbers as numbers;
ghost use Rattle.cedar_request.specs.Numbers.{place_in, size_of};
ghost use Rattle.cedar_request.specs.Requests.{in_64_bits};

use cedar_data::{Dup, Map, Mem};
use cedar_names::{EntityType, EntityUID};
use cedar_resolved::{SetIter, ValidatorActionId, ValidatorSchema};
use std::alloc::Global;

/// How many of the types, which are in order, stand before each of them. It fails only for want of memory.
#[tactic(auto, using(crate::proofs::Places::places))]
fn places_of(alloc: Global, types: SetIter<'_, EntityType>) -> Mem<Map<EntityType, usize>>
    requires { IsStrictlySortedBy entity_cmp types }
    ensures { IfOk result (ArePlaces types.entry) }
{
    let mut places = Map::with_room(alloc, types.len())?;
    for ty in types {
        let ty = ty.dup(alloc)?;
        let place = places.len();
        places.push_last(ty, place)?;
    }
    Ok(places)
}

/// How many of the types stand before this one: all of them, where it is none of them.
fn place_among(
    places: &Map<EntityType, usize>,
    types: SetIter<'_, EntityType>,
    ty: &EntityType,
) -> usize
    requires { ArePlaces types places.now }
    ensures { result ≡ numbers.place_among (map entity_words types.entry) (entity_words ty.now) }
{
    match places.get(ty) {
        Some(place) => *place,
        None => types.len(),
    }
}

/// How many environments the action has, or the greatest `u64`.
fn count_of(action: &ValidatorActionId) -> u64
    ensures { result ≡ in_64_bits (size_of (action_of action.now)) }
{
    let principals = action.principals().len() as u64;
    let resources = action.resources().len() as u64;
    principals.saturating_mul(resources)
}

/// An action of a schema, how many environments stand before its own, or the greatest `u64`, and how many of its
/// principals and of its resources stand before each of them.
#[derive(Drop)]
pub(crate) struct Counted<'a> {
    /// The action.
    pub(crate) action: &'a ValidatorActionId,
    /// How many environments the actions before it have.
    pub(crate) before: u64,
    principals: Map<EntityType, usize>,
    resources: Map<EntityType, usize>,
}

impl<'a> Counted<'a> {
    /// The action, before whose environments so many stand. It fails only for want of memory.
    fn new(alloc: Global, action: &'a ValidatorActionId, before: u64) -> Mem<Counted<'a>>
        ensures action { IfOk result (λ c. c.action.now ≡ action.now) }
        ensures before { IfOk result (λ c. c.before ≡ before) }
        ensures places { IfOk result HasPlaces }
    {
        let principals = places_of(alloc, action.principals())?;
        let resources = places_of(alloc, action.resources())?;
        Ok(Counted {
            action,
            before,
            principals,
            resources,
        })
    }
}

/// Each action of the schema by its name, with how many environments stand before its own. It fails only for want of
/// memory.
#[tactic(auto, using(crate::proofs::Counting::counts))]
pub(crate) fn counted_actions<'a>(
    alloc: Global,
    schema: &'a ValidatorSchema,
) -> Mem<Map<EntityUID, Counted<'a>>>
    ensures { IfOk result (AreCounted schema.now) }
{
    let mut counted = Map::with_room(alloc, schema.by_action().len())?;
    let mut before = 0u64;
    for (name, action) in schema.by_action().iter() {
        let name = name.dup(alloc)?;
        let here = Counted::new(alloc, action, before)?;
        counted.push_last(name, here)?;
        before = before.saturating_add(count_of(action));
    }
    Ok(counted)
}

/// How many environments of the action stand before the one of these types, or the greatest `u64`.
fn place_of(found: &Counted<'_>, principal: &EntityType, resource: &EntityType) -> u64
    requires { HasPlaces found.now }
    ensures { result ≡ in_64_bits (place_in (action_of found.now.action.now)
        (entity_words principal.now) (entity_words resource.now)) }
{
    let principals = found.action.principals();
    let resources = found.action.resources();
    let width = resources.len() as u64;
    let row = place_among(&found.principals, principals, principal) as u64;
    let column = place_among(&found.resources, resources, resource) as u64;
    row.saturating_mul(width).saturating_add(column)
}

/// The number of the environment of these, counted from 0, or the greatest `u64`.
pub(crate) fn number_of(found: &Counted<'_>, principal: &EntityType, resource: &EntityType) -> u64
    requires { HasPlaces found.now }
    ensures { result ≡ in_64_bits (found.now.before
        + in_64_bits (place_in (action_of found.now.action.now)
        (entity_words principal.now) (entity_words resource.now))) }
{
    found
        .before
        .saturating_add(place_of(found, principal, resource))
}
