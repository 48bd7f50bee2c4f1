// SPDX-License-Identifier: Apache-2.0
ghost use Rattle.std.specs.Prelude.{◌≡◌, Some, IfOk};
ghost use Rattle.cedar_data.specs.Answers.{IfRefused};
ghost use Rattle.cedar_names.specs.Names.{entity_words};
ghost use Rattle.cedar_checks.specs.SchemaViews.{entity_of, schema_in};
ghost use Rattle.cedar_compat.specs.BreakChecks.{descendant_check, each, found_check, schema_check, type_stays_check};
ghost use Rattle.cedar_compat.specs.Changes.{break_of, type_break};
ghost use Rattle.cedar_compat.specs.Checks.{Tells};
ghost use Rattle.cedar_compat.specs.Compatible.{Compatible};
ghost use Rattle.cedar_compat.specs.KeptNames.{KeepsDescendant, KeepsNames};
ghost use Rattle.cedar_compat.specs.declared.kind.CompatKind.TheVariants.{DescendantRemoved};

use crate::broken::{Broken, of_type, refuse};
use crate::fault::CompatFault;
use crate::kind::CompatKind;
use crate::kinds::check_kind;
use cedar_data::{Dup, Out};
use cedar_names::EntityType;
use cedar_resolved::{ValidatorEntityType, ValidatorSchema};
use std::alloc::Global;

/// Refuses an entity type from which the one of this name doesn't descend.
#[tactic(auto, using(crate::proofs::Found::found))]
fn check_descendant(alloc: Global, name: &EntityType, new: &ValidatorEntityType) -> Out<(), Broken>
    ensures told { Tells break_of result
        (descendant_check (entity_of new.now) (entity_words name.now)) }
    ensures kept { IfRefused result (λ broken. broken.kind ≡ DescendantRemoved name.now) }
{
    if new.has_descendant_entity_type(name) {
        return Ok(());
    }
    let ty = name.dup(alloc)?;
    refuse(alloc, CompatKind::DescendantRemoved { ty })
}

/// Refuses an entity type that lacks a descendant of the old one.
#[tactic(auto, using(crate::proofs::Each::each_seen_passes))]
fn check_descendants(
    alloc: Global,
    old: &ValidatorEntityType,
    new: &ValidatorEntityType,
) -> Out<(), Broken>
    ensures told { Tells break_of result
        (each (descendant_check (entity_of new.now)) (entity_of old.now).descendants) }
    ensures kept { IfRefused result (λ broken. KeepsDescendant old.now broken.kind) }
{
    for name in old.descendants.iter() {
        check_descendant(alloc, name, new)?;
    }
    Ok(())
}

/// Refuses an entity type that takes something away from the old one.
fn check_found(
    alloc: Global,
    old: &ValidatorEntityType,
    found: &ValidatorEntityType,
) -> Out<(), Broken>
    ensures told { Tells break_of result
        (found_check (entity_of old.now) (Some (entity_of found.now))) }
    ensures kept { IfRefused result (λ broken. KeepsDescendant old.now broken.kind) }
{
    check_kind(alloc, old, found)?;
    check_descendants(alloc, old, found)
}

/// Refuses a new schema in which the entity type of this name isn't there, or takes something away from the old one.
#[tactic(auto, using(crate::proofs::Found::found))]
fn check_type_stays(
    alloc: Global,
    name: &EntityType,
    old: &ValidatorEntityType,
    new: &ValidatorSchema,
) -> Out<(), Broken>
    ensures told { Tells break_of result
        (type_stays_check (schema_in new.now) (entity_words name.now) (entity_of old.now)) }
    ensures kept { IfRefused result (λ broken. KeepsDescendant old.now broken.kind) }
{
    match new.get_entity_type(name) {
        Some(found) => check_found(alloc, old, found),
        None => refuse(alloc, CompatKind::TypeRemoved),
    }
}

/// Refuses a new schema that takes something away from an entity type of the old one.
#[tactic(auto, using(crate::proofs::Told::told, crate::proofs::TypeLoops::each_type_stays))]
fn check_types(alloc: Global, old: &ValidatorSchema, new: &ValidatorSchema) -> Out<(), CompatFault>
    ensures told { Tells type_break result (schema_check (schema_in old.now) (schema_in new.now)) }
    ensures kept { IfRefused result (KeepsNames old.now) }
{
    for (name, ty) in old.entity_type_names().zip(old.entity_types()) {
        of_type(alloc, name, check_type_stays(alloc, name, ty, new))?;
    }
    Ok(())
}

/// Refuses a new schema under which entities of the old one may not be valid any more: one that lacks an entity type, a
/// choice, an attribute, the tags or a descendant, that wants an attribute more, or that has another type somewhere.
/// Refused with the first break: entity type by entity type, in each the choices, or the attributes in the order of
/// their names and what they have inside, what is newly required, then the tags, then the descendants.
#[tactic(auto, using(crate::proofs::Passing::passing))]
pub fn compatible(
    alloc: Global,
    old: &ValidatorSchema,
    new: &ValidatorSchema,
) -> Out<(), CompatFault>
    ensures told { Tells type_break result (schema_check (schema_in old.now) (schema_in new.now)) }
    ensures fits { IfOk result (λ _. Compatible (schema_in old.now) (schema_in new.now)) }
    ensures unfit { IfRefused result (λ _. Compatible (schema_in old.now) (schema_in new.now)
        → ⊥) }
    ensures kept { IfRefused result (KeepsNames old.now) }
{
    check_types(alloc, old, new)
}
