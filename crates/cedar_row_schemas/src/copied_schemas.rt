// SPDX-License-Identifier: Apache-2.0
use cedar_data::{Failure, Mem, NoMemory, Out};
use cedar_resolved::{ValidatorActionId, ValidatorEntityType, ValidatorSchema};
use cedar_row_calls::printing;
use cedar_row_schema_lines::schema_of;
use cedar_row_trees::Lines;
use cedar_schema::CedarSchemaError;
use cedar_types::{OpenTag, TypeView};
use std::alloc::Global;

/// What is said of copies of the schema that the input denotes and of each of its types and actions; or of a copy of the
/// error with which it is refused.
pub fn schema_copies(alloc: Global, input: &str) -> Mem<String> {
    let made = schema_of(alloc, input);
    let told = made_told(alloc, &made);
    drop(made);
    told
}

fn made_told(alloc: Global, made: &Out<ValidatorSchema, CedarSchemaError>) -> Mem<String> {
    match made {
        Ok(schema) => schema_told(alloc, schema),
        Err(Failure::Refused(error)) => error_told(alloc, error),
        Err(Failure::NoMemory) => Err(NoMemory),
    }
}

/// An error: its variant, and what is said of its copy.
fn error_told(alloc: Global, error: &CedarSchemaError) -> Mem<String> {
    let printed = printing(alloc, error)?;
    match error {
        CedarSchemaError::Parsing(_) => { Ok(format!(in alloc; "Parsing: a copy is {printed}\n")?) }
        CedarSchemaError::Schema(error) => {
            let shown = format!(in alloc; "{error:?}")?;
            let (variant, _) = shown.as_str().split_once('(').unwrap_or(("", ""));
            Ok(format!(in alloc; "{variant}: a copy is {printed}\n")?)
        }
    }
}

fn schema_told(alloc: Global, schema: &ValidatorSchema) -> Mem<String> {
    let mut lines = Lines::new(alloc);
    let printed = printing(alloc, schema)?;
    lines.add_line(format!(in alloc; "schema: a copy is {printed}")?)?;
    for ty in schema.entity_types() {
        lines.add_line(entity_told(alloc, ty)?)?;
    }
    for action in schema.action_ids() {
        lines.add_line(action_told(alloc, action)?)?;
    }
    Ok(lines.into_text())
}

/// An entity type: its name, the numbers of its descendants and of its attributes, and what is said of its copy.
fn entity_told(alloc: Global, ty: &ValidatorEntityType) -> Mem<String> {
    let name = ty.name();
    let descendants = ty.descendants.len();
    let attributes = ty.attributes().len();
    let printed = printing(alloc, ty)?;
    Ok(format!(in alloc;
        "entity {name}, {descendants} descendants, {attributes} attributes: a copy is {printed}"
    )?)
}

/// An action: its name, the numbers of its descendants, principals and resources, whether its context is a closed
/// record, and what is said of its copy.
fn action_told(alloc: Global, action: &ValidatorActionId) -> Mem<String> {
    let name = action.name();
    let descendants = action.descendants().count();
    let principals = action.principals().count();
    let resources = action.resources().count();
    let context = match action.context().view() {
        TypeView::Record(_, OpenTag::ClosedAttributes) => "a closed",
        _ => "another",
    };
    let printed = printing(alloc, action)?;
    Ok(format!(in alloc;
        "action {name}, {descendants} descendants, {principals} principals, {resources} resources, {context} context: a copy is {printed}"
    )?)
}
