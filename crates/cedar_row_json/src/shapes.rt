// SPDX-License-Identifier: Apache-2.0
use cedar_data::{Failure, Mem, NoMemory, Out};
use cedar_fragment::{
    ActionEntityUID, ActionType, ApplySpec, CommonType, EntityType, Fragment, NamespaceDefinition,
    SchemaType, TypeOfAttribute,
};
use cedar_json::{FragmentJson, FromJson, ToJson};
use cedar_json_fault::JsonDeserializationError;
use serde_json::Value;
use std::alloc::Global;

/// What came of reading an input: what is written of it, its first fault, or nothing where the words or the text are no
/// input of that shape.
#[derive(Debug, Drop)]
pub(crate) enum Reading {
    /// What is written of what was read.
    Written(Value),
    /// The fault of the input.
    Faulty(JsonDeserializationError),
    /// There is no such shape, or the text is no JSON.
    Unread,
}

/// The input as the shape that the word names, and as the text of a fragment where there is no word.
pub(crate) fn reading_of(alloc: Global, words: &[&str], input: &str) -> Mem<Reading> {
    let Some(shape) = words.first() else {
        return written_of(alloc, Fragment::from_json_str(alloc, input));
    };
    match Value::from_str(alloc, input) {
        Ok(value) => read_as(alloc, shape, &value),
        Err(error) if error.is_memory() => Err(NoMemory),
        Err(_) => Ok(Reading::Unread),
    }
}

/// The value as the shape that the word names.
pub(crate) fn read_as(alloc: Global, shape: &str, value: &Value) -> Mem<Reading> {
    match shape {
        "fragment" => written_of(alloc, Fragment::from_json_value(alloc, value)),
        "namespace" => written_of(alloc, NamespaceDefinition::from_json_value(alloc, value)),
        "common-type" => written_of(alloc, CommonType::from_json_value(alloc, value)),
        "entity-type" => written_of(alloc, EntityType::from_json_value(alloc, value)),
        "action" => written_of(alloc, ActionType::from_json_value(alloc, value)),
        "applies-to" => written_of(alloc, ApplySpec::from_json_value(alloc, value)),
        "parent" => written_of(alloc, ActionEntityUID::from_json_value(alloc, value)),
        "type" => written_of(alloc, SchemaType::from_json_value(alloc, value)),
        "attribute" => written_of(alloc, TypeOfAttribute::from_json_value(alloc, value)),
        _ => Ok(Reading::Unread),
    }
}

fn written_of<T: ToJson + Drop>(
    alloc: Global,
    read: Out<T, JsonDeserializationError>,
) -> Mem<Reading> {
    match read {
        Ok(item) => Ok(Reading::Written(item.to_json_value(alloc)?)),
        Err(Failure::Refused(error)) => Ok(Reading::Faulty(error)),
        Err(Failure::NoMemory) => Err(NoMemory),
    }
}
