// SPDX-License-Identifier: Apache-2.0
use cedar_data::{Failure, Mem, NoMemory, Out};
use cedar_resolved::ValidatorSchema;
use cedar_row_schema_lines::{CedarSchemaError, error_told, schema_of};
use std::alloc::Global;

/// What the queries of the schema give that the input denotes, those by name for each of its names and for each word; or
/// what is said of why it is refused.
pub fn queries(alloc: Global, words: &[&str], input: &str) -> Mem<String> {
    let made = schema_of(alloc, input);
    let told = queries_told(alloc, words, &made);
    drop(made);
    told
}

/// What the queries of a schema give, or what is said of why there is none.
pub(crate) fn queries_told(
    alloc: Global,
    words: &[&str],
    made: &Out<ValidatorSchema, CedarSchemaError>,
) -> Mem<String> {
    match made {
        Ok(schema) => cedar_row_queries::queries(alloc, words, schema),
        Err(Failure::Refused(error)) => error_told(alloc, error),
        Err(Failure::NoMemory) => Err(NoMemory),
    }
}

/// `checked ATTRIBUTE` or `checked PRINCIPAL ACTION RESOURCE`: what a small checker says of the schema that the input
/// denotes; or what is said of why it is refused.
pub fn checked(alloc: Global, words: &[&str], input: &str) -> Mem<String> {
    let made = schema_of(alloc, input);
    let told = checked_told(alloc, words, &made);
    drop(made);
    told
}

fn checked_told(
    alloc: Global,
    words: &[&str],
    made: &Out<ValidatorSchema, CedarSchemaError>,
) -> Mem<String> {
    match made {
        Ok(schema) => cedar_row_queries::checked(alloc, words, schema),
        Err(Failure::Refused(error)) => error_told(alloc, error),
        Err(Failure::NoMemory) => Err(NoMemory),
    }
}
