// SPDX-License-Identifier: Apache-2.0
ghost use Rattle.std.specs.Prelude.{◌≡◌, [], true, false, IfOk};
ghost use Rattle.std.specs.Option.{option_copied};
ghost use Rattle.cedar_data.specs.Answers.{IfRefused};
ghost use Rattle.cedar_data.specs.Firsts.{IsFirst};
ghost use Rattle.cedar_names.specs.Components.{components, has_cedar};
ghost use Rattle.cedar_schema_error.specs.FullNames.{uid_in};
ghost use Rattle.cedar_schema_error.specs.Refusals.{ReservedName};
ghost use Rattle.cedar_schema_error.specs.Told.{told};
ghost use Rattle.cedar_namespace_definitions.specs.NamesIn.{action_at, action_key, action_type_in, entity_key, name_at, reserved_in};

use cedar_data::{Failure, Mem, Out, Text};
use cedar_names::{Eid, EntityType, EntityUID, InternalName, Name, UnreservedId};
use cedar_schema_error::SchemaError;
use cedar_text::Loc;
use cedar_written::{Qualifying, type_or_action};
use std::alloc::Global;

/// The name of an identifier in the namespace, at this place.
pub(crate) fn name_at(
    alloc: Global,
    step: &Qualifying<'_>,
    id: UnreservedId,
    loc: Option<Loc>,
) -> Mem<InternalName>
    ensures { IfOk result (λ n. n ≡ name_at (option_copied step.now.namespace) id loc) }
{
    let name = InternalName::unqualified_name(alloc, id.into_id(), loc);
    step.qualified(alloc, name)
}

/// The entity type of this name; refused where a component of it is `__cedar`. It takes no memory.
fn entity_type(name: InternalName) -> Out<EntityType, SchemaError>
    ensures ok { IfOk result (λ ty. (entity_key ty ≡ name)
        × (has_cedar (components name) ≡ false)) }
    ensures refused { IfRefused result (λ e. (told e ≡ ReservedName (components name))
        × (has_cedar (components name) ≡ true)) }
{
    match Name::from_internal(name) {
        Ok(name) => Ok(EntityType::from_name(name)),
        Err(reserved) => Err(Failure::Refused(SchemaError::ReservedName(reserved))),
    }
}

/// The entity type of an identifier in the namespace, at this place; refused where the namespace has `__cedar`.
#[tactic(auto, using(crate::proofs::Reserved::reserved))]
pub(crate) fn entity_type_at(
    alloc: Global,
    step: &Qualifying<'_>,
    id: UnreservedId,
    loc: Option<Loc>,
) -> Out<EntityType, SchemaError>
    ensures key { IfOk result (λ ty. entity_key ty
        ≡ name_at (option_copied step.now.namespace) id loc) }
    ensures ok { IfOk result
        (λ _. reserved_in (option_copied step.now.namespace)
        (components (name_at (option_copied step.now.namespace) id loc)) ≡ []) }
    ensures refused { IfRefused result (λ e. IsFirst
        (reserved_in (option_copied step.now.namespace)
        (components (name_at (option_copied step.now.namespace) id loc))) (told e)) }
{
    let name = name_at(alloc, step, id, loc)?;
    entity_type(name)
}

/// The action of a text in the namespace, at this place; refused where the namespace has `__cedar`.
#[tactic(auto, using(crate::proofs::Reserved::reserved))]
pub(crate) fn action_at(
    alloc: Global,
    step: &Qualifying<'_>,
    id: Text,
    loc: Option<Loc>,
) -> Out<EntityUID, SchemaError>
    ensures key { IfOk result (λ uid. action_key uid
        ≡ action_at (option_copied step.now.namespace) id loc) }
    ensures ok { IfOk result
        (λ _. reserved_in (option_copied step.now.namespace)
        (components (action_type_in (option_copied step.now.namespace))) ≡ []) }
    ensures refused { IfRefused result (λ e. IsFirst
        (reserved_in (option_copied step.now.namespace)
        (components (action_type_in (option_copied step.now.namespace)))) (told e)) }
{
    let name = type_or_action(alloc, None)?;
    let name = name.qualify_with(alloc, None)?;
    let name = step.qualified(alloc, name)?;
    let ty = entity_type(name)?;
    Ok(EntityUID::from_components(ty, Eid::new(id), loc))
}
