// SPDX-License-Identifier: Apache-2.0
use cedar_data::{Failure, Mem, NoMemory, Out};
use cedar_definitions::{ValidatorNamespaceDef, ValidatorSchemaFragment};
use cedar_fragment::{Fragment, RawName};
use cedar_listing::{write_counts, write_listing};
use cedar_names::Extensions;
use cedar_resolved::ValidatorSchema;
use cedar_row_schema_lines::error_told;
use cedar_schema::{CedarSchemaError, FragmentText, FromSchemaFragment, FromSchemaFragments};
use cedar_schema_error::ActionBehavior;
use cedar_streams::MemSink;
use cedar_written::ConditionalName;
use std::alloc::Global;

/// The definitions of a list of texts.
type Definitions = Vec<ValidatorSchemaFragment<ConditionalName, ConditionalName>>;

/// A definition that no text makes.
pub type Definition = ValidatorNamespaceDef<ConditionalName, ConditionalName>;

/// How many bytes a listing of a row may have.
const ROOM: usize = 65_536;

/// The listing of what the texts denote together that the input is, apart by lines `---`; or what is said of why they are
/// refused.
pub fn several(alloc: Global, input: &str) -> Mem<String> {
    let none = Vec::new(alloc);
    several_beside(alloc, input, none)
}

/// The same of the texts and of these definitions behind them.
pub(crate) fn several_beside(alloc: Global, input: &str, others: Vec<Definition>) -> Mem<String> {
    let made = schema_of_all(alloc, input, others);
    let told = made_told(alloc, &made);
    drop(made);
    told
}

fn made_told(alloc: Global, made: &Out<ValidatorSchema, CedarSchemaError>) -> Mem<String> {
    match made {
        Ok(schema) => listed(alloc, schema),
        Err(Failure::Refused(error)) => error_told(alloc, error),
        Err(Failure::NoMemory) => Err(NoMemory),
    }
}

/// The listing of a schema.
pub(crate) fn listed(alloc: Global, schema: &ValidatorSchema) -> Mem<String> {
    let mut sink = MemSink::new(alloc, ROOM, ROOM, Vec::new(alloc))?;
    match write_listing(schema, &[], &mut sink) {
        Ok(()) => text_of(alloc, sink.bytes()),
        Err(_) => Ok(String::from_str(alloc, "no room\n")?),
    }
}

/// The line of counts of a schema.
pub(crate) fn counted(alloc: Global, schema: &ValidatorSchema) -> Mem<String> {
    let mut sink = MemSink::new(alloc, ROOM, ROOM, Vec::new(alloc))?;
    match write_counts(schema, &[], &mut sink) {
        Ok(()) => text_of(alloc, sink.bytes()),
        Err(_) => Ok(String::from_str(alloc, "no room\n")?),
    }
}

fn text_of(alloc: Global, bytes: &[u8]) -> Mem<String> {
    let text = std::str::from_utf8(bytes).unwrap_or("not a text\n");
    Ok(String::from_str(alloc, text)?)
}

fn schema_of_all(
    alloc: Global,
    input: &str,
    others: Vec<Definition>,
) -> Out<ValidatorSchema, CedarSchemaError> {
    let extensions = Extensions::all_available(alloc)?;
    match definitions_of_all(alloc, input, &extensions) {
        Ok(mut definitions) => {
            definitions.push(ValidatorSchemaFragment::from_namespaces(others))?;
            resolved(alloc, definitions, &extensions)
        }
        Err(failure) => Err(failure),
    }
}

fn resolved(
    alloc: Global,
    definitions: Definitions,
    extensions: &Extensions,
) -> Out<ValidatorSchema, CedarSchemaError> {
    match ValidatorSchema::from_schema_fragments(alloc, definitions, extensions) {
        Ok(schema) => Ok(schema),
        Err(Failure::Refused(error)) => Err(Failure::Refused(CedarSchemaError::Schema(error))),
        Err(Failure::NoMemory) => Err(Failure::NoMemory),
    }
}

fn definitions_of_all(
    alloc: Global,
    input: &str,
    extensions: &Extensions,
) -> Out<Definitions, CedarSchemaError> {
    let mut all = Vec::new(alloc);
    for text in input.split("---\n") {
        let definitions = definitions_of(alloc, text, extensions)?;
        all.push(definitions)?;
    }
    Ok(all)
}

fn definitions_of(
    alloc: Global,
    text: &str,
    extensions: &Extensions,
) -> Out<ValidatorSchemaFragment<ConditionalName, ConditionalName>, CedarSchemaError> {
    match Fragment::from_cedarschema_str(alloc, text, extensions) {
        Ok((fragment, _)) => defined(alloc, fragment, extensions),
        Err(failure) => Err(failure),
    }
}

fn defined(
    alloc: Global,
    fragment: Fragment<RawName>,
    extensions: &Extensions,
) -> Out<ValidatorSchemaFragment<ConditionalName, ConditionalName>, CedarSchemaError> {
    let behavior = ActionBehavior::ProhibitAttributes;
    match ValidatorSchemaFragment::from_schema_fragment(alloc, fragment, behavior, extensions) {
        Ok(definitions) => Ok(definitions),
        Err(Failure::Refused(error)) => Err(Failure::Refused(CedarSchemaError::Schema(error))),
        Err(Failure::NoMemory) => Err(Failure::NoMemory),
    }
}
