// SPDX-License-Identifier: Apache-2.0
ghost use Rattle.std.specs.Prelude.{◌≡◌, [], None, Some, map, IfOk};
ghost use Rattle.std.specs.List.{AllZip, filter};
ghost use Rattle.std.specs.Map.{keys_of};
ghost use Rattle.cedar_data.specs.Answers.{IfRefused};
ghost use Rattle.cedar_declared.specs.Held.{names_of};
ghost use Rattle.cedar_hierarchy.specs.Made.{MakesEntity};
ghost use Rattle.cedar_phases.specs.Holding.{AllPassed, HoldsUnfolded, OneRefuses, last_phases};
ghost use Rattle.cedar_phases.specs.NotDeclared.{AreNotDeclared};
ghost use Rattle.cedar_phases.specs.Places.{IsPlaced, places_outlined};
ghost use Rattle.cedar_checks.specs.SchemaViews.{IsConsistent, schema_in, types_of};
ghost use Rattle.cedar_names.specs.Components.{components};
ghost use Rattle.cedar_resolved.specs.Schemas.{action_types};
ghost use Rattle.cedar_schema_error.specs.KeptDeclarations.{KeepsAmong, placed_action};
ghost use Rattle.cedar_schema_error.specs.Told.{told};
ghost use Rattle.cedar_hierarchy.specs.of_outlines.Outlines.{entity_outline_in};
ghost use Rattle.cedar_undeclared.specs.Undeclared.{is_free, undeclared_refusal};
ghost use Rattle.cedar_qualified.specs.of_world.Denotes.{Denotes};
ghost use Rattle.cedar_qualified.specs.of_world.Worlds.{World};

use crate::memberships::membership_names;
use crate::unfolding::{FullTypes, UnfoldedTypes};
use cedar_data::{Failure, Map, Mem, Out, Set};
use cedar_declared::AllDefs;
use cedar_hierarchy::{ActionOutline, EntityOutline, resolved_actions, resolved_entity_types};
use cedar_names::{EntityType, EntityUID, InternalName};
use cedar_resolved::{ValidatorActionId, ValidatorSchema};
use cedar_schema_error::{SchemaError, UsePlace};
use cedar_types::Type;
use cedar_undeclared::{undeclared_error, undeclared_names};
use std::alloc::Global;

/// The names that stand where only an entity type may stand, and are none: those in full types, which are given up, and
/// the others that are given.
fn undeclared_among(
    alloc: Global,
    all_defs: &AllDefs,
    full: FullTypes,
    others: Vec<InternalName>,
) -> Mem<Set<InternalName>>
    ensures { IfOk result (λ names. AreNotDeclared
        (names_of all_defs.now) full.common_types full.uses others.items (map components names)) }
{
    undeclared_names(
        alloc,
        all_defs,
        &full.common_types,
        &full.uses,
        others.as_slice(),
    )
}

/// Refused with these names, which must be entity types and are none.
fn refuse_undeclared(alloc: Global, undeclared: &Set<InternalName>) -> Out<(), SchemaError>
    ensures declared { IfOk result (λ _. undeclared_refusal
        (filter is_free (map components undeclared.now)) ≡ None) }
    ensures refused { IfRefused result (λ e. undeclared_refusal
        (filter is_free (map components undeclared.now)) ≡ Some (told e)) }
{
    match undeclared_error(alloc, undeclared)? {
        None => Ok(()),
        Some(error) => Err(Failure::Refused(error)),
    }
}

/// The schema of the entity types of outlines, and of these actions, with what the uses of types unfold to. Refused
/// with these names, which must be entity types and are none.
fn finish(
    alloc: Global,
    all_defs: &AllDefs,
    uses: &Map<UsePlace, Type>,
    undeclared: &Set<InternalName>,
    entity_types: Map<EntityType, EntityOutline>,
    actions: Map<EntityUID, ValidatorActionId>,
) -> Out<ValidatorSchema, SchemaError>
    ensures declared { IfOk result (λ _. undeclared_refusal
        (filter is_free (map components undeclared.now)) ≡ None) }
    ensures entity_types { IfOk result
        (λ S. AllZip
        (MakesEntity (names_of all_defs.now)
        (map entity_outline_in entity_types) uses.now) entity_types (types_of S)) }
    ensures actions { IfOk result (λ S. action_types S ≡ actions) }
    ensures refused { IfRefused result (λ e. undeclared_refusal
        (filter is_free (map components undeclared.now)) ≡ Some (told e)) }
{
    match refuse_undeclared(alloc, undeclared) {
        Ok(()) => {
            let entity_types = resolved_entity_types(alloc, all_defs, entity_types, uses)?;
            Ok(ValidatorSchema::from_parts(entity_types, actions))
        }
        Err(failure) => Err(failure),
    }
}

/// The schema of these entity types and actions, with what the uses of types unfold to. Refused where an action descends
/// from itself; else with the names that must be entity types, and are none.
pub(crate) fn assemble(
    alloc: Global,
    all_defs: &AllDefs,
    types: UnfoldedTypes,
    entity_types: Map<EntityType, EntityOutline>,
    actions: Map<EntityUID, ActionOutline>,
) -> Out<ValidatorSchema, SchemaError>
    ensures passes { IfOk result (λ _. (W : World)
        → HoldsUnfolded W all_defs.now types.full.common_types types.full.uses
        types.uses entity_types actions → AllPassed W last_phases) }
    ensures denotes { IfOk result (λ S. (W : World)
        → HoldsUnfolded W all_defs.now types.full.common_types types.full.uses
        types.uses entity_types actions → Denotes W (schema_in S)) }
    ensures consistent { IfOk result IsConsistent }
    ensures placed { IfOk result (IsPlaced (places_outlined entity_types actions)) }
    ensures refused { IfRefused result (λ e. (W : World)
        → HoldsUnfolded W all_defs.now types.full.common_types types.full.uses
        types.uses entity_types actions → OneRefuses W last_phases (told e)) }
    ensures as_declared { IfRefused result
        (KeepsAmong [] (map placed_action (keys_of actions))) }
{
    let UnfoldedTypes { full, uses } = types;
    let memberships = membership_names(alloc, all_defs, &entity_types, &actions)?;
    let undeclared = undeclared_among(alloc, all_defs, full, memberships)?;
    match resolved_actions(alloc, all_defs, actions, &uses) {
        Ok(actions) => finish(alloc, all_defs, &uses, &undeclared, entity_types, actions),
        Err(failure) => Err(failure),
    }
}
