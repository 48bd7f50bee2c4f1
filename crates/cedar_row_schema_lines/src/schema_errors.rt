// SPDX-License-Identifier: Apache-2.0
use cedar_data::{Failure, Mem, NoMemory, Out};
use cedar_resolved::ValidatorSchema;
use cedar_row_trees::{Lines, line_of};
use cedar_schema::{CedarSchemaError, FromCedarSchema};
use std::alloc::Global;

/// What the calls of the error say with which a text is refused.
pub fn schema_error(alloc: Global, input: &str) -> Mem<String> {
    let made = schema_of(alloc, input);
    let told = refusal_told(alloc, &made);
    drop(made);
    told
}

fn refusal_told(alloc: Global, made: &Out<ValidatorSchema, CedarSchemaError>) -> Mem<String> {
    match made {
        Ok(_) => line_of(alloc, "a schema"),
        Err(Failure::Refused(error)) => error_told(alloc, error),
        Err(Failure::NoMemory) => Err(NoMemory),
    }
}

/// The schema of a text, where all extension types are available.
pub fn schema_of(alloc: Global, input: &str) -> Out<ValidatorSchema, CedarSchemaError> {
    ValidatorSchema::parse(alloc, input)
}

/// What the calls of an error say.
pub fn error_told(alloc: Global, error: &CedarSchemaError) -> Mem<String> {
    let mut lines = Lines::new(alloc);
    lines.add_line(error.to_string(alloc)?)?;
    lines.add_help(error.help(alloc)?)?;
    lines.add_all_places(error.spans(alloc)?)?;
    Ok(lines.into_text())
}
