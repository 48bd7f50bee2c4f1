// SPDX-License-Identifier: Apache-2.0
ghost use Rattle.std.specs.Prelude.{◌≡◌, [], ◌∷◌, IfOk, OnOk};
ghost use Rattle.std.specs.BTreeMap.{insert_entry};
ghost use Rattle.std.specs.List.{flat_map};
ghost use Rattle.std.specs.Option.{option_copied};
ghost use Rattle.cedar_data.specs.Answers.{IfRefused};
ghost use Rattle.cedar_data.specs.Firsts.{IsFirst};
ghost use Rattle.cedar_names.specs.Components.{components};
ghost use Rattle.cedar_names.specs.Names.{internal_cmp};
ghost use Rattle.cedar_schema_error.specs.Told.{told};
ghost use Rattle.cedar_namespace_definitions.specs.Definitions.{AreEntityTypes, distinct_parents, entity_in, entity_made, entity_place, entry_of, kind_made, put_entries, standard_made, with_keys};
ghost use Rattle.cedar_namespace_definitions.specs.Faults.{entity_faults};
ghost use Rattle.cedar_namespace_definitions.specs.NamesIn.{entity_key, name_at, reserved_in};

use crate::names::entity_type_at;
use crate::sets::{distinct, set_of};
use cedar_data::{Dup, Map, Mem, Out};
use cedar_definitions::{EntityTypeFragment, EntityTypesDef};
use cedar_fragment::{
    ConditionalName, EntityType, EntityTypeKind, Qualifying, RawName, StandardEntityType,
    walk_unrefused,
};
use cedar_names::UnreservedId;
use cedar_schema_error::SchemaError;
use cedar_text::Loc;
use std::alloc::Global;

/// A standard entity type, its parents as a set.
fn standard_made<N: Ord + Drop>(
    alloc: Global,
    entity_type: StandardEntityType<N>,
) -> Mem<EntityTypeFragment<N>>
    ensures { IfOk result (λ made. made ≡ standard_made N.cmp entity_type) }
{
    let StandardEntityType {
        member_of_types,
        shape,
        tags,
    } = entity_type;
    let parents = set_of(alloc, member_of_types)?;
    Ok(EntityTypeFragment::Standard {
        attributes: shape,
        parents,
        tags,
    })
}

/// What kind of entity type it is, its parents as a set.
fn kind_made<N: Ord + Drop>(alloc: Global, kind: EntityTypeKind<N>) -> Mem<EntityTypeFragment<N>>
    ensures { IfOk result (λ made. made ≡ kind_made N.cmp kind) }
{
    match kind {
        EntityTypeKind::Standard(entity_type) => standard_made(alloc, entity_type),
        EntityTypeKind::Enum { choices } => Ok(EntityTypeFragment::Enum(choices)),
    }
}

/// The kind of entity type with its parents in order, of equal ones the first alone.
fn distinct_parents<N: Ord + Drop>(alloc: Global, kind: EntityTypeKind<N>) -> Mem<EntityTypeKind<N>>
    ensures { IfOk result (λ made. made ≡ distinct_parents N.cmp kind) }
{
    match kind {
        EntityTypeKind::Standard(entity_type) => {
            let StandardEntityType {
                member_of_types,
                shape,
                tags,
            } = entity_type;
            let member_of_types = distinct(alloc, member_of_types)?;
            Ok(EntityTypeKind::Standard(StandardEntityType {
                member_of_types,
                shape,
                tags,
            }))
        }
        EntityTypeKind::Enum { choices } => Ok(EntityTypeKind::Enum { choices }),
    }
}

/// What an entity type is, with what each name in it may stand for. Equal parents are dropped first, since a name with
/// all that it may stand for takes much memory.
fn entity_made(
    alloc: Global,
    step: &Qualifying<'_>,
    entity_type: EntityType<RawName>,
) -> Mem<EntityTypeFragment<ConditionalName>>
    ensures { IfOk result (λ made. made
        ≡ entity_made (option_copied step.now.namespace) entity_type) }
{
    let EntityType {
        kind,
        annotations: _,
        loc: _,
    } = entity_type;
    let kind = distinct_parents(alloc, kind)?;
    let kind = walk_unrefused(alloc, step, kind)?;
    kind_made(alloc, kind)
}

/// A copy of the place of an entity type, where it has one.
fn place_of<N>(alloc: Global, entity_type: &EntityType<N>) -> Mem<Option<Loc>>
    ensures { IfOk result (λ loc. loc ≡ entity_type.now.loc) }
{
    entity_type.loc.dup(alloc)
}

/// Puts the place of an entity type to the others, where it has one.
fn put_place(
    alloc: Global,
    locs: &mut Map<cedar_names::EntityType, Loc>,
    name: &cedar_names::EntityType,
    loc: Option<Loc>,
) -> Mem<()>
    ensures { OnOk result (with_keys entity_key locs.new
        ≡ put_entries internal_cmp (with_keys entity_key locs.old)
        (entry_of (entity_key name.now) loc)) }
{
    if let Some(loc) = loc {
        let name = name.dup(alloc)?;
        locs.put(name, loc)?;
    }
    Ok(())
}

/// Puts what an entity type of this name is to the others, with its place where it has one.
fn put_placed<V: Drop>(
    alloc: Global,
    defs: &mut Map<cedar_names::EntityType, V>,
    locs: &mut Map<cedar_names::EntityType, Loc>,
    name: cedar_names::EntityType,
    placed: (V, Option<Loc>),
) -> Mem<()>
    ensures defs { OnOk result (with_keys entity_key defs.new
        ≡ insert_entry internal_cmp (with_keys entity_key defs.old) (entity_key name) placed.0) }
    ensures locs { OnOk result (with_keys entity_key locs.new
        ≡ put_entries internal_cmp (with_keys entity_key locs.old)
        (entry_of (entity_key name) placed.1)) }
{
    let (value, loc) = placed;
    put_place(alloc, locs, &name, loc)?;
    defs.put(name, value)?;
    Ok(())
}

/// Puts what the entity type of an identifier is to the others, under its full name in the namespace, with its place
/// where it has one; refused where the namespace has `__cedar`.
fn put_named<V: Drop>(
    alloc: Global,
    step: &Qualifying<'_>,
    defs: &mut Map<cedar_names::EntityType, V>,
    locs: &mut Map<cedar_names::EntityType, Loc>,
    id: UnreservedId,
    placed: (V, Option<Loc>),
) -> Out<(), SchemaError>
    ensures defs { OnOk result (with_keys entity_key defs.new
        ≡ insert_entry internal_cmp (with_keys entity_key defs.old)
        (name_at (option_copied step.now.namespace) id placed.1) placed.0) }
    ensures locs { OnOk result (with_keys entity_key locs.new
        ≡ put_entries internal_cmp (with_keys entity_key locs.old)
        (entry_of (name_at (option_copied step.now.namespace) id placed.1) placed.1)) }
    ensures ok { OnOk result
        (reserved_in (option_copied step.now.namespace)
        (components (name_at (option_copied step.now.namespace) id placed.1)) ≡ []) }
    ensures refused { IfRefused result (λ e. IsFirst
        (reserved_in (option_copied step.now.namespace)
        (components (name_at (option_copied step.now.namespace) id placed.1))) (told e)) }
{
    let loc = placed.1.dup(alloc)?;
    let name = entity_type_at(alloc, step, id, loc)?;
    put_placed(alloc, defs, locs, name, placed)?;
    Ok(())
}

/// What an entity type is, with its place where it has one.
fn placed(
    alloc: Global,
    step: &Qualifying<'_>,
    entity_type: EntityType<RawName>,
) -> Mem<(EntityTypeFragment<ConditionalName>, Option<Loc>)>
    ensures { IfOk result (λ made. made
        ≡ (entity_made (option_copied step.now.namespace) entity_type, entity_type.loc)) }
{
    let loc = place_of(alloc, &entity_type)?;
    let fragment = entity_made(alloc, step, entity_type)?;
    Ok((fragment, loc))
}

/// Puts an entity type of the namespace to the others; refused where the namespace has `__cedar`.
#[tactic(auto, unfolding(crate::specs::Faults::entity_faults))]
fn declare_entity_type(
    alloc: Global,
    step: &Qualifying<'_>,
    defs: &mut Map<cedar_names::EntityType, EntityTypeFragment<ConditionalName>>,
    locs: &mut Map<cedar_names::EntityType, Loc>,
    id: UnreservedId,
    entity_type: EntityType<RawName>,
) -> Out<(), SchemaError>
    ensures defs { OnOk result (with_keys entity_key defs.new
        ≡ put_entries internal_cmp (with_keys entity_key defs.old)
        (entity_in (option_copied step.now.namespace) (id, entity_type) ∷ [])) }
    ensures locs { OnOk result (with_keys entity_key locs.new
        ≡ put_entries internal_cmp (with_keys entity_key locs.old)
        (entity_place (option_copied step.now.namespace) (id, entity_type))) }
    ensures ok { OnOk result
        (entity_faults (option_copied step.now.namespace) (id, entity_type) ≡ []) }
    ensures refused { IfRefused result
        (λ e. IsFirst (entity_faults (option_copied step.now.namespace) (id, entity_type))
        (told e)) }
{
    let placed = placed(alloc, step, entity_type)?;
    put_named(alloc, step, defs, locs, id, placed)
}

/// The entity types under their full names in the namespace, in order; refused with the first fault.
#[tactic(auto, using(crate::proofs::Loops::entity_types, crate::proofs::Faultless::faultless))]
pub(crate) fn entity_types_in(
    alloc: Global,
    step: &Qualifying<'_>,
    entity_types: Map<UnreservedId, EntityType<RawName>>,
) -> Out<EntityTypesDef<ConditionalName>, SchemaError>
    ensures made { IfOk result
        (λ made. AreEntityTypes (option_copied step.now.namespace) entity_types made) }
    ensures ok { IfOk result
        (λ _. flat_map (entity_faults (option_copied step.now.namespace)) entity_types ≡ []) }
    ensures refused { IfRefused result
        (λ e. IsFirst (flat_map (entity_faults (option_copied step.now.namespace)) entity_types)
        (told e)) }
{
    let mut defs = Map::with_room(alloc, entity_types.len())?;
    let mut locs = Map::with_room(alloc, entity_types.len())?;
    for (id, entity_type) in entity_types.into_entries() {
        declare_entity_type(alloc, step, &mut defs, &mut locs, id, entity_type)?;
    }
    Ok(EntityTypesDef { defs, locs })
}
