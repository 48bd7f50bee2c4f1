// SPDX-License-Identifier: Apache-2.0
use cedar_data::{Boxed, Failure, Mem, NoMemory};
use cedar_names::NonEmpty;
use cedar_row_schema_lines::{CedarSchemaError, error_told, schema_of};
use cedar_row_trees::line_of;
use cedar_schema_error::SchemaError;
use std::alloc::Global;

/// What is said of the one error of all errors with which the texts are refused that the input is, apart by lines `---`.
pub fn joined_errors(alloc: Global, input: &str) -> Mem<String> {
    let errors = errors_of(alloc, input)?;
    match NonEmpty::from_vec(errors) {
        Some(errors) => joined_told(alloc, errors),
        None => line_of(alloc, "no errors"),
    }
}

/// What is said of these errors as one.
fn joined_told(alloc: Global, errors: NonEmpty<SchemaError>) -> Mem<String> {
    let error = boxed(alloc, SchemaError::join_nonempty(alloc, errors)?)?;
    error_told(alloc, error.get())
}

/// The error of a schema as one of its text. It stands on the heap, since so wide a value would have to be given up
/// variant by variant.
fn boxed(alloc: Global, error: SchemaError) -> Mem<Boxed<CedarSchemaError>> {
    Boxed::new(alloc, CedarSchemaError::from(error))
}

/// The errors of the texts that are refused with an error of a schema.
fn errors_of(alloc: Global, input: &str) -> Mem<Vec<SchemaError>> {
    let mut errors = Vec::new(alloc);
    for text in input.split("---\n") {
        if let Some(error) = error_of(alloc, text)? {
            errors.push(error)?;
        }
    }
    Ok(errors)
}

/// The error of a schema with which a text is refused, if it is with one.
fn error_of(alloc: Global, text: &str) -> Mem<Option<SchemaError>> {
    match schema_of(alloc, text) {
        Err(Failure::Refused(CedarSchemaError::Schema(error))) => Ok(Some(error)),
        Err(Failure::NoMemory) => Err(NoMemory),
        _ => Ok(None),
    }
}
