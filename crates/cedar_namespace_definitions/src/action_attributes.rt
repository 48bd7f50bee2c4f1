// SPDX-License-Identifier: Apache-2.0
ghost use Rattle.std.specs.Prelude.{◌≡◌, [], IfOk, IfErr};
ghost use Rattle.std.specs.Option.{option_copied};
ghost use Rattle.cedar_data.specs.Answers.{IfRefused};
ghost use Rattle.cedar_data.specs.Firsts.{IsFirst};
ghost use Rattle.cedar_schema_error.specs.FullNames.{uid_in};
ghost use Rattle.cedar_schema_error.specs.Refusals.{ActionAttributesContainEmptySet, UnsupportedActionAttribute};
ghost use Rattle.cedar_schema_error.specs.Told.{told};
ghost use Rattle.cedar_types.specs.Types.{attributes_of};
ghost use Rattle.cedar_namespace_definitions.specs.Definitions.{types_in};
ghost use Rattle.cedar_namespace_definitions.specs.Faults.{all_refused, attribute_faults, prohibited, value_refusal, with_attributes};

use cedar_action_values::{ValueFault, attribute_types};
use cedar_data::{Dup, Failure, Items, Map, Mem, Out, Text};
use cedar_fragment::{ActionType, RawName, ValueMap};
use cedar_names::EntityUID;
use cedar_schema_error::{
    ActionAttributesContainEmptySetError, ActionBehavior, SchemaError,
    UnsupportedActionAttributeError, UnsupportedFeature, UnsupportedFeatureError,
};
use cedar_types::Attributes;
use std::alloc::Global;

/// The error that an attribute of an action is a null or an escape, as `form` names it.
fn unsupported(alloc: Global, uid: &EntityUID, form: &str) -> Mem<SchemaError>
    ensures { IfOk result (λ e. told e ≡ UnsupportedActionAttribute (uid_in uid.now) form.now) }
{
    let uid = uid.dup(alloc)?;
    let attr = Text::new(alloc, form)?;
    let error = UnsupportedActionAttributeError { uid, attr };
    Ok(SchemaError::UnsupportedActionAttribute(error))
}

/// The error that an attribute of an action has an empty set in it.
fn empty_set(alloc: Global, uid: &EntityUID) -> Mem<SchemaError>
    ensures { IfOk result (λ e. told e ≡ ActionAttributesContainEmptySet (uid_in uid.now)) }
{
    let uid = uid.dup(alloc)?;
    let error = ActionAttributesContainEmptySetError { uid };
    Ok(SchemaError::ActionAttributesContainEmptySet(error))
}

/// The error that an attribute of an action has this fault in it.
fn value_error(alloc: Global, uid: &EntityUID, fault: ValueFault) -> Mem<SchemaError>
    ensures { IfOk result (λ e. told e ≡ value_refusal (uid_in uid.now) fault) }
{
    match fault {
        ValueFault::EmptySet => empty_set(alloc, uid),
        ValueFault::Null => unsupported(alloc, uid, "null"),
        ValueFault::EntityEscape => unsupported(alloc, uid, "entity escape (`__entity`)"),
        ValueFault::ExprEscape => unsupported(alloc, uid, "expression escape (`__expr`)"),
        ValueFault::ExtnEscape => unsupported(alloc, uid, "extension function escape (`__extn`)"),
    }
}

/// The types of the attributes of an action, which share `none` where it has none; refused with the first fault in them.
pub(crate) fn types_in(
    alloc: Global,
    uid: &EntityUID,
    none: &Attributes,
    attributes: &Option<ValueMap>,
) -> Out<Attributes, SchemaError>
    requires { none.now ≡ attributes_of [] }
    ensures types { IfOk result (λ types. types ≡ types_in attributes.now) }
    ensures ok { IfOk result (λ _. attribute_faults (uid_in uid.now) attributes.now ≡ []) }
    ensures refused { IfRefused result
        (λ e. IsFirst (attribute_faults (uid_in uid.now) attributes.now) (told e)) }
{
    let Some(values) = attributes else {
        let none = none.dup(alloc)?;
        return Ok(none);
    };
    match attribute_types(alloc, values) {
        Ok(types) => Ok(types),
        Err(Failure::Refused(fault)) => Err(Failure::Refused(value_error(alloc, uid, fault)?)),
        Err(Failure::NoMemory) => Err(Failure::NoMemory),
    }
}

/// The actions that have attributes, in order.
fn with_attributes(alloc: Global, actions: &Map<Text, ActionType<RawName>>) -> Mem<Items<Text>>
    ensures { IfOk result (λ ids. ids ≡ with_attributes actions.now) }
{
    let mut ids = Items::new(alloc);
    for (id, action) in actions.iter() {
        if action.attributes.is_some() {
            let id = id.dup(alloc)?;
            ids.push(id)?;
        }
    }
    Ok(ids)
}

/// Refused with all actions that have attributes, where there are some.
fn refuse_attributes(ids: Items<Text>) -> Out<(), SchemaError>
    ensures ok { IfOk result (λ _. all_refused ids ≡ []) }
    ensures refused { IfRefused result (λ e. IsFirst (all_refused ids) (told e)) }
{
    if ids.is_empty() {
        return Ok(());
    }
    let feature = UnsupportedFeature::ActionAttributes(ids);
    let error = UnsupportedFeatureError { feature };
    Err(Failure::Refused(SchemaError::UnsupportedFeature(error)))
}

/// Where attributes are prohibited, refused with all actions that have some.
pub(crate) fn check_attributes(
    alloc: Global,
    action_behavior: ActionBehavior,
    actions: &Map<Text, ActionType<RawName>>,
) -> Out<(), SchemaError>
    ensures ok { IfOk result (λ _. prohibited action_behavior (with_attributes actions.now) ≡ []) }
    ensures refused { IfRefused result
        (λ e. IsFirst (prohibited action_behavior (with_attributes actions.now)) (told e)) }
{
    match action_behavior {
        ActionBehavior::PermitAttributes => Ok(()),
        ActionBehavior::ProhibitAttributes => {
            let ids = with_attributes(alloc, actions)?;
            refuse_attributes(ids)
        }
    }
}
