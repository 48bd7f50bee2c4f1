// SPDX-License-Identifier: Apache-2.0
use crate::lists::{counted, listed};
use cedar_data::{Failure, Mem, NoMemory, Out};
use cedar_names::Extensions;
use cedar_resolved::ValidatorSchema;
use cedar_row_schema_lines::error_told;
use cedar_row_trees::line_of;
use cedar_schema::CedarSchemaError;
use cedar_schema_json::SchemaJson;
use serde_json::Value;
use std::alloc::Global;

/// `from-value [counts]`: the listing of what the value denotes that the input is as JSON, or its
/// line of counts; or what is said of why it is refused.
pub fn from_value(alloc: Global, words: &[&str], input: &str) -> Mem<String> {
    match Value::from_str(alloc, input) {
        Ok(value) => value_told(alloc, words, &value),
        Err(error) if error.is_memory() => Err(NoMemory),
        Err(_) => line_of(alloc, "no JSON"),
    }
}

fn value_told(alloc: Global, words: &[&str], value: &Value) -> Mem<String> {
    let made = schema_of_value(alloc, value);
    let told = made_told(alloc, words, &made);
    drop(made);
    told
}

fn made_told(
    alloc: Global,
    words: &[&str],
    made: &Out<ValidatorSchema, CedarSchemaError>,
) -> Mem<String> {
    match made {
        Ok(schema) => if words.is_empty() {
            listed(alloc, schema)
        } else {
            counted(alloc, schema)
        },
        Err(Failure::Refused(error)) => error_told(alloc, error),
        Err(Failure::NoMemory) => Err(NoMemory),
    }
}

/// What the value denotes, where all extension types are available.
fn schema_of_value(alloc: Global, value: &Value) -> Out<ValidatorSchema, CedarSchemaError> {
    let extensions = Extensions::all_available(alloc)?;
    match ValidatorSchema::from_json_value(alloc, value, &extensions) {
        Ok(schema) => Ok(schema),
        Err(Failure::Refused(error)) => Err(Failure::Refused(CedarSchemaError::Schema(error))),
        Err(Failure::NoMemory) => Err(Failure::NoMemory),
    }
}
