// SPDX-License-Identifier: Apache-2.0
use crate::queried::queries_told;
use cedar_data::{Dup, Failure, Mem, Out};
use cedar_fragment::{Fragment, NamespaceDefinition, RawName};
use cedar_names::Extensions;
use cedar_resolved::ValidatorSchema;
use cedar_row_schema_lines::{CedarSchemaError, FragmentText, FromFragment};
use std::alloc::Global;

/// What the queries of the schema give that the namespace without a name of the input denotes by itself; or what is
/// said of why it is refused.
pub fn unnamed_queries(alloc: Global, words: &[&str], input: &str) -> Mem<String> {
    let made = schema_of_unnamed(alloc, input);
    let told = queries_told(alloc, words, &made);
    drop(made);
    told
}

fn schema_of_unnamed(alloc: Global, input: &str) -> Out<ValidatorSchema, CedarSchemaError> {
    let extensions = Extensions::all_available(alloc)?;
    match Fragment::from_cedarschema_str(alloc, input, &extensions) {
        Ok((fragment, _)) => denoted(alloc, &fragment),
        Err(failure) => Err(failure),
    }
}

/// The schema of the namespace without a name, which is empty where the fragment has none.
fn denoted(alloc: Global, fragment: &Fragment<RawName>) -> Out<ValidatorSchema, CedarSchemaError> {
    match fragment.0.get(&None) {
        Some(definition) => denoted_alone(alloc, definition.dup(alloc)?),
        None => Ok(ValidatorSchema::empty(alloc)),
    }
}

/// The schema of a namespace, which is refused with an error of a schema.
fn denoted_alone(
    alloc: Global,
    definition: NamespaceDefinition<RawName>,
) -> Out<ValidatorSchema, CedarSchemaError> {
    match ValidatorSchema::from_namespace_definition(alloc, definition) {
        Ok(schema) => Ok(schema),
        Err(Failure::Refused(error)) => Err(Failure::Refused(CedarSchemaError::Schema(error))),
        Err(Failure::NoMemory) => Err(Failure::NoMemory),
    }
}
