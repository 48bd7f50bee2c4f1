// SPDX-License-Identifier: Apache-2.0
ghost use Rattle.std.specs.Prelude.{◌≡◌, ◌++◌, [], map, IfOk};
ghost use Rattle.std.specs.List.{flat_map};
ghost use Rattle.std.specs.Option.{option_copied};
ghost use Rattle.cedar_data.specs.Answers.{IfRefused};
ghost use Rattle.cedar_data.specs.Firsts.{IsFirst};
ghost use Rattle.cedar_schema_error.specs.Told.{told};
ghost use Rattle.cedar_namespace_definitions.specs.Definitions.{AreEntityTypes, IsDefinitionOf, action_in, with_keys};
ghost use Rattle.cedar_namespace_definitions.specs.Faults.{action_faults, action_types, declaration_faults, definition_faults, each_fault, entity_faults};
ghost use Rattle.cedar_namespace_definitions.specs.NamesIn.{action_key};

use crate::action_attributes::check_attributes;
use crate::actions::actions_in;
use crate::common_types::common_types_in;
use crate::entity_types::entity_types_in;
use cedar_data::{Dup, Failure, Map, Mem, Out, Text};
use cedar_definitions::{ActionsDef, EntityTypesDef, ValidatorNamespaceDef};
use cedar_fragment::{
    ActionType, ConditionalName, EntityType, NamespaceDefinition, Qualifying, RawName,
};
use cedar_names::{Extensions, InternalName, UnreservedId};
use cedar_schema_error::{ActionBehavior, ActionEntityTypeDeclaredError, SchemaError};
use std::alloc::Global;

/// What the declarations of a namespace, as they are written, make a definition of.
pub trait FromNamespaceDefinition: Sized {
    /// The definition of the declarations of a namespace of this full name, none for the unnamed one. Refused with the
    /// first fault of the declarations; where `action_behavior` prohibits them, attributes of actions are one.
    fn from_namespace_definition(
        alloc: Global,
        namespace: Option<InternalName>,
        namespace_def: NamespaceDefinition<RawName>,
        action_behavior: ActionBehavior,
        extensions: &Extensions,
    ) -> Out<Self, SchemaError>;
}

/// Refused where an entity type is named `Action`. It takes no memory.
fn check_entity_types(entity_types: &Map<UnreservedId, EntityType<RawName>>) -> Out<(), SchemaError>
    ensures ok { IfOk result (λ _. action_types entity_types.now ≡ []) }
    ensures refused { IfRefused result (λ e. IsFirst (action_types entity_types.now) (told e)) }
{
    for (id, _) in entity_types.iter() {
        if id.as_ref() == "Action" {
            let error = ActionEntityTypeDeclaredError;
            return Err(Failure::Refused(SchemaError::ActionEntityTypeDeclared(error)));
        }
    }
    Ok(())
}

/// Refused with the first fault that the declarations have as a whole.
#[tactic(auto, using(crate::proofs::Faultless::firsts))]
fn check_declarations(
    alloc: Global,
    namespace_def: &NamespaceDefinition<RawName>,
    action_behavior: ActionBehavior,
) -> Out<(), SchemaError>
    ensures ok { IfOk result (λ _. declaration_faults action_behavior namespace_def.now ≡ []) }
    ensures refused { IfRefused result
        (λ e. IsFirst (declaration_faults action_behavior namespace_def.now) (told e)) }
{
    check_entity_types(&namespace_def.entity_types)?;
    check_attributes(alloc, action_behavior, &namespace_def.actions)
}

/// The entity types and the actions of the namespace; refused with the first fault of an action, else of an entity
/// type.
#[tactic(auto, using(crate::proofs::Faultless::firsts))]
fn types_and_actions(
    alloc: Global,
    step: &Qualifying<'_>,
    entity_types: Map<UnreservedId, EntityType<RawName>>,
    actions: Map<Text, ActionType<RawName>>,
) -> Out<
    (
        EntityTypesDef<ConditionalName>,
        ActionsDef<ConditionalName, ConditionalName>,
    ),
    SchemaError,
>
    ensures entity_types { IfOk result
        (λ made. AreEntityTypes (option_copied step.now.namespace) entity_types made.0) }
    ensures actions { IfOk result (λ made. with_keys action_key made.1.actions
        ≡ map (action_in (option_copied step.now.namespace)) actions) }
    ensures ok { IfOk result
        (λ _. flat_map (action_faults (option_copied step.now.namespace)) actions
        ++ flat_map (entity_faults (option_copied step.now.namespace)) entity_types ≡ []) }
    ensures refused { IfRefused result
        (λ e. IsFirst (flat_map (action_faults (option_copied step.now.namespace)) actions
        ++ flat_map (entity_faults (option_copied step.now.namespace)) entity_types) (told e)) }
{
    let actions = actions_in(alloc, step, actions)?;
    let entity_types = entity_types_in(alloc, step, entity_types)?;
    Ok((entity_types, actions))
}

/// A copy of the name of a namespace.
fn namespace_copied(alloc: Global, namespace: Option<&InternalName>) -> Mem<Option<InternalName>>
    ensures { IfOk result (λ copy. copy ≡ option_copied namespace.entry) }
{
    match namespace {
        Some(name) => {
            let copy = name.dup(alloc)?;
            Ok(Some(copy))
        }
        None => Ok(None),
    }
}

/// The definition of a namespace whose declarations have no fault as a whole; refused with the first fault of one of
/// them.
fn each_defined(
    alloc: Global,
    namespace: Option<&InternalName>,
    namespace_def: NamespaceDefinition<RawName>,
) -> Out<ValidatorNamespaceDef<ConditionalName, ConditionalName>, SchemaError>
    ensures made { IfOk result
        (λ d. IsDefinitionOf (option_copied namespace.entry) namespace_def d) }
    ensures ok { IfOk result (λ _. each_fault (option_copied namespace.entry) namespace_def
        ≡ []) }
    ensures refused { IfRefused result
        (λ e. IsFirst (each_fault (option_copied namespace.entry) namespace_def) (told e)) }
{
    let NamespaceDefinition {
        common_types,
        entity_types,
        actions,
        annotations: _,
    } = namespace_def;
    let step = Qualifying::new(alloc, namespace)?;
    let (entity_types, actions) = types_and_actions(alloc, &step, entity_types, actions)?;
    let common_types = common_types_in(alloc, &step, common_types)?;
    let namespace = namespace_copied(alloc, namespace)?;
    Ok(ValidatorNamespaceDef {
        namespace,
        common_types,
        entity_types,
        actions,
    })
}

/// The definition of a namespace; refused with its first fault.
#[tactic(auto, using(crate::proofs::Faultless::firsts))]
pub(crate) fn defined(
    alloc: Global,
    namespace: Option<&InternalName>,
    namespace_def: NamespaceDefinition<RawName>,
    action_behavior: ActionBehavior,
) -> Out<ValidatorNamespaceDef<ConditionalName, ConditionalName>, SchemaError>
    ensures made { IfOk result
        (λ d. IsDefinitionOf (option_copied namespace.entry) namespace_def d) }
    ensures ok { IfOk result
        (λ _. definition_faults action_behavior (option_copied namespace.entry) namespace_def
        ≡ []) }
    ensures refused { IfRefused result
        (λ e. IsFirst
        (definition_faults action_behavior (option_copied namespace.entry) namespace_def)
        (told e)) }
{
    check_declarations(alloc, &namespace_def, action_behavior)?;
    each_defined(alloc, namespace, namespace_def)
}

impl FromNamespaceDefinition for ValidatorNamespaceDef<ConditionalName, ConditionalName> {
    /// The declarations under their full names in the namespace, each reference with the names that it may stand for.
    /// Refused with the first fault: an entity type named `Action`; all actions that have attributes, where these are
    /// prohibited; of the first action that has one, its name where the namespace has `__cedar`, else the first value
    /// of its attributes that is an empty set, a null or an escape; the first entity type where the namespace has
    /// `__cedar`. No rule asks for `extensions`.
    fn from_namespace_definition(
        alloc: Global,
        namespace: Option<InternalName>,
        namespace_def: NamespaceDefinition<RawName>,
        action_behavior: ActionBehavior,
        extensions: &Extensions,
    ) -> Out<ValidatorNamespaceDef<ConditionalName, ConditionalName>, SchemaError>
        ensures made { IfOk result (λ d. IsDefinitionOf namespace namespace_def d) }
        ensures ok { IfOk result (λ _. definition_faults action_behavior namespace namespace_def
            ≡ []) }
        ensures refused { IfRefused result
            (λ e. IsFirst (definition_faults action_behavior namespace namespace_def) (told e)) }
    {
        defined(alloc, namespace.as_ref(), namespace_def, action_behavior)
    }
}
