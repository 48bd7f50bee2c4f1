// SPDX-License-Identifier: Apache-2.0
ghost use Rattle.std.specs.Prelude.{◌≡◌, ◌++◌, ◌∷◌, [], map, IfOk, OnOk};
ghost use Rattle.std.specs.List.{flat_map};
ghost use Rattle.cedar_declared.specs.Held.{names_of};
ghost use Rattle.cedar_names.specs.Components.{components};
ghost use Rattle.cedar_phases.specs.NotDeclared.{other_targets};
ghost use Rattle.cedar_schema_error.specs.NameReferences.{reference_of};
ghost use Rattle.cedar_hierarchy.specs.of_outlines.Outlines.{action_outline_in, entity_outline_in, parts_of_action};

use cedar_data::{Dup, Map, Mem, Set};
use cedar_declared::AllDefs;
use cedar_hierarchy::{ActionOutline, EntityOutline};
use cedar_names::{EntityType, EntityUID, InternalName};
use cedar_schema_error::{ConditionalName, ReferenceType};
use std::alloc::Global;

/// Puts the name that a reference means behind the others, if it means one that is no declared entity type.
fn push_unless_entity(
    alloc: Global,
    all_defs: &AllDefs,
    reference: &ConditionalName,
    names: &mut Vec<InternalName>,
) -> Mem<()>
    ensures { OnOk result (map components names.new.items ≡ map components names.old.items
        ++ other_targets (names_of all_defs.now) (reference_of reference.now ∷ [])) }
{
    match all_defs.find_target(reference) {
        None => Ok(()),
        Some(name) => {
            if all_defs.is_defined_as_entity(name) {
                return Ok(());
            }
            let name = name.dup(alloc)?;
            names.push(name)?;
            Ok(())
        }
    }
}

/// The same. A reference that may stand for entity types alone means one or nothing, and isn't looked up.
fn push_other_target(
    alloc: Global,
    all_defs: &AllDefs,
    reference: &ConditionalName,
    names: &mut Vec<InternalName>,
) -> Mem<()>
    ensures { OnOk result (map components names.new.items ≡ map components names.old.items
        ++ other_targets (names_of all_defs.now) (reference_of reference.now ∷ [])) }
{
    match reference.reference_type() {
        ReferenceType::Entity => Ok(()),
        ReferenceType::Common | ReferenceType::CommonOrEntity => {
            push_unless_entity(alloc, all_defs, reference, names)
        }
    }
}

/// Puts the names that references mean and that are no declared entity types behind the others, in order.
#[tactic(auto, using(cedar_outlines::proofs::Appended::appended))]
fn push_other_targets(
    alloc: Global,
    all_defs: &AllDefs,
    references: &Set<ConditionalName>,
    names: &mut Vec<InternalName>,
) -> Mem<()>
    ensures { OnOk result (map components names.new.items ≡ map components names.old.items
        ++ other_targets (names_of all_defs.now) (map reference_of references.now)) }
{
    for reference in references.iter() {
        push_other_target(alloc, all_defs, reference, names)?;
    }
    Ok(())
}

/// The same of the parents of entity types.
#[tactic(auto, using(cedar_outlines::proofs::Appended::appended))]
fn push_parents(
    alloc: Global,
    all_defs: &AllDefs,
    entity_types: &Map<EntityType, EntityOutline>,
    names: &mut Vec<InternalName>,
) -> Mem<()>
    ensures { OnOk result (map components names.new.items ≡ map components names.old.items
        ++ other_targets (names_of all_defs.now)
        (flat_map (λ e. e.1.parents) (map entity_outline_in entity_types.now))) }
{
    for (_, outline) in entity_types.iter() {
        push_other_targets(alloc, all_defs, &outline.parents, names)?;
    }
    Ok(())
}

/// The same of what an action applies to: its principals, and then its resources.
fn push_application(
    alloc: Global,
    all_defs: &AllDefs,
    outline: &ActionOutline,
    names: &mut Vec<InternalName>,
) -> Mem<()>
    ensures { OnOk result (map components names.new.items ≡ map components names.old.items
        ++ other_targets (names_of all_defs.now) ((parts_of_action outline.now).principals
        ++ (parts_of_action outline.now).resources)) }
{
    push_other_targets(
        alloc,
        all_defs,
        &outline.applies_to.principal_apply_spec,
        names,
    )?;
    push_other_targets(
        alloc,
        all_defs,
        &outline.applies_to.resource_apply_spec,
        names,
    )?;
    Ok(())
}

/// The same of what actions apply to: of each its principals, and then its resources.
#[tactic(auto, using(cedar_outlines::proofs::Appended::appended))]
fn push_applications(
    alloc: Global,
    all_defs: &AllDefs,
    actions: &Map<EntityUID, ActionOutline>,
    names: &mut Vec<InternalName>,
) -> Mem<()>
    ensures { OnOk result (map components names.new.items ≡ map components names.old.items
        ++ other_targets (names_of all_defs.now)
        (flat_map (λ a. a.1.principals ++ a.1.resources) (map action_outline_in actions.now))) }
{
    for (_, outline) in actions.iter() {
        push_application(alloc, all_defs, outline, names)?;
    }
    Ok(())
}

/// The names that the parents of entity types mean, and then those of what actions apply to, in order, but for declared
/// entity types.
pub(crate) fn membership_names(
    alloc: Global,
    all_defs: &AllDefs,
    entity_types: &Map<EntityType, EntityOutline>,
    actions: &Map<EntityUID, ActionOutline>,
) -> Mem<Vec<InternalName>>
    ensures { IfOk result (λ names. map components names.items
        ≡ other_targets (names_of all_defs.now)
        (flat_map (λ e. e.1.parents) (map entity_outline_in entity_types.now))
        ++ other_targets (names_of all_defs.now)
        (flat_map (λ a. a.1.principals ++ a.1.resources) (map action_outline_in actions.now))) }
{
    let mut names = Vec::new(alloc);
    push_parents(alloc, all_defs, entity_types, &mut names)?;
    push_applications(alloc, all_defs, actions, &mut names)?;
    Ok(names)
}
