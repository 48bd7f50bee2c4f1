// SPDX-License-Identifier: Apache-2.0
use cedar_data::{Failure, Mem, NoMemory, Out};
use cedar_fragment::Fragment;
use cedar_names::Extensions;
use cedar_row_schema_lines::{CedarSchemaError, FragmentText, error_told};
use cedar_schema_error::SchemaError;
use std::alloc::Global;

/// What is told of the definitions that the input declares and of each word; or what is said of why
/// it is refused.
pub fn definitions(alloc: Global, words: &[&str], input: &str) -> Mem<String> {
    let made = lines_of(alloc, words, input);
    let told = made_told(alloc, &made);
    drop(made);
    told
}

/// What each structure of the definitions is with full names that the input declares, where each
/// word is declared as a common type; or what is said of why it is refused.
pub fn full_names(alloc: Global, words: &[&str], input: &str) -> Mem<String> {
    let made = full_lines_of(alloc, words, input);
    let told = made_told(alloc, &made);
    drop(made);
    told
}

fn made_told(alloc: Global, made: &Out<String, CedarSchemaError>) -> Mem<String> {
    match made {
        Ok(lines) => Ok(String::from_str(alloc, lines.as_str())?),
        Err(Failure::Refused(error)) => error_told(alloc, error),
        Err(Failure::NoMemory) => Err(NoMemory),
    }
}

/// What is told of the definitions that a text declares.
fn lines_of(alloc: Global, words: &[&str], input: &str) -> Out<String, CedarSchemaError> {
    let extensions = Extensions::all_available(alloc)?;
    match Fragment::from_cedarschema_str(alloc, input, &extensions) {
        Ok((fragment, _)) => as_schema_error(cedar_row_definitions::definitions(
            alloc,
            words,
            &fragment,
            &extensions,
        )),
        Err(failure) => Err(failure),
    }
}

/// What is told of the structures that a text declares.
fn full_lines_of(alloc: Global, words: &[&str], input: &str) -> Out<String, CedarSchemaError> {
    let extensions = Extensions::all_available(alloc)?;
    match Fragment::from_cedarschema_str(alloc, input, &extensions) {
        Ok((fragment, _)) => as_schema_error(cedar_row_definitions::full_names(
            alloc,
            words,
            &fragment,
            &extensions,
        )),
        Err(failure) => Err(failure),
    }
}

/// The same, refused with an error of a schema or of its text.
fn as_schema_error(lines: Out<String, SchemaError>) -> Out<String, CedarSchemaError> {
    match lines {
        Ok(lines) => Ok(lines),
        Err(Failure::Refused(error)) => Err(Failure::Refused(CedarSchemaError::Schema(error))),
        Err(Failure::NoMemory) => Err(Failure::NoMemory),
    }
}
