// SPDX-License-Identifier: Apache-2.0
use crate::details::{fault_told, request_fault_told};
use crate::values::{outcome, value_of};
use cedar_conform::conforms_entities;
use cedar_data::{Failure, Mem, NoMemory, Out};
use cedar_request::check_requests;
use cedar_resolved::ValidatorSchema;
use cedar_row_schema_lines::{CedarSchemaError, error_told, schema_of};
use cedar_row_trees::line_of;
use serde_json::Value;
use std::alloc::Global;

/// What is asked of a value and a schema.
#[derive(Clone, Copy)]
enum Check {
    /// Whether it is a list of entities.
    Entities,
    /// The same, with all that the calls of the fault answer.
    EntityFault,
    /// Whether it is a list of requests, with all that the calls of the fault answer.
    RequestFault,
}

/// `entities`: whether the value behind the line `---` is a list of entities of the schema before it.
pub fn entities(alloc: Global, input: &str) -> Mem<String> {
    check_list(alloc, Check::Entities, input)
}

/// `entity-fault`: the same, with what the calls of the fault answer, and whether a copy of it equals it.
pub fn entity_fault(alloc: Global, input: &str) -> Mem<String> {
    check_list(alloc, Check::EntityFault, input)
}

/// `request-fault`: the same of a list of requests.
pub fn request_fault(alloc: Global, input: &str) -> Mem<String> {
    check_list(alloc, Check::RequestFault, input)
}

fn check_list(alloc: Global, check: Check, input: &str) -> Mem<String> {
    let Some((text, list)) = input.split_once("\n---\n") else {
        return line_of(alloc, "no line `---`");
    };
    match value_of(alloc, list)? {
        Some(value) => check_value(alloc, check, text, &value),
        None => line_of(alloc, "no JSON"),
    }
}

/// What is told of the value and the schema that the text denotes.
fn check_value(alloc: Global, check: Check, text: &str, value: &Value) -> Mem<String> {
    let made = schema_of(alloc, text);
    let told = checked(alloc, check, &made, value);
    drop(made);
    told
}

fn checked(
    alloc: Global,
    check: Check,
    made: &Out<ValidatorSchema, CedarSchemaError>,
    value: &Value,
) -> Mem<String> {
    match made {
        Ok(schema) => check_against(alloc, check, schema, value),
        Err(Failure::Refused(error)) => error_told(alloc, error),
        Err(Failure::NoMemory) => Err(NoMemory),
    }
}

fn check_against(
    alloc: Global,
    check: Check,
    schema: &ValidatorSchema,
    value: &Value,
) -> Mem<String> {
    match check {
        Check::Entities => outcome(alloc, "conforms", conforms_entities(alloc, schema, value)),
        Check::EntityFault => fault_told(alloc, conforms_entities(alloc, schema, value)),
        Check::RequestFault => request_fault_told(alloc, check_requests(alloc, schema, value)),
    }
}
