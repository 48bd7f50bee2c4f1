// SPDX-License-Identifier: Apache-2.0
use cedar_data::{Failure, Mem, NoMemory, Out};
use cedar_definitions::ValidatorSchemaFragment;
use cedar_fragment::{Fragment, RawName};
use cedar_json::FragmentJson;
use cedar_names::Extensions;
use cedar_row_schema_lines::{add_attributes, error_told};
use cedar_row_trees::{Lines, line_of};
use cedar_schema::{CedarSchemaError, FromSchemaFragment};
use cedar_schema_error::ActionBehavior;
use cedar_written::ConditionalName;
use std::alloc::Global;

/// The definitions of a schema over names that are not resolved.
type Definitions = ValidatorSchemaFragment<ConditionalName, ConditionalName>;

/// The types of the attributes of the actions of the schema in JSON that the input is, where actions may have
/// attributes; or what is said of why it is refused.
pub fn action_values(alloc: Global, input: &str) -> Mem<String> {
    match Fragment::from_json_str(alloc, input) {
        Ok(fragment) => fragment_told(alloc, fragment),
        Err(Failure::Refused(_)) => line_of(alloc, "not read"),
        Err(Failure::NoMemory) => Err(NoMemory),
    }
}

fn fragment_told(alloc: Global, fragment: Fragment<RawName>) -> Mem<String> {
    let made = defined(alloc, fragment);
    let told = made_told(alloc, &made);
    drop(made);
    told
}

fn made_told(alloc: Global, made: &Out<Definitions, CedarSchemaError>) -> Mem<String> {
    match made {
        Ok(definitions) => definitions_told(alloc, definitions),
        Err(Failure::Refused(error)) => error_told(alloc, error),
        Err(Failure::NoMemory) => Err(NoMemory),
    }
}

fn defined(alloc: Global, fragment: Fragment<RawName>) -> Out<Definitions, CedarSchemaError> {
    let extensions = Extensions::all_available(alloc)?;
    let behavior = ActionBehavior::PermitAttributes;
    match ValidatorSchemaFragment::from_schema_fragment(alloc, fragment, behavior, &extensions) {
        Ok(definitions) => Ok(definitions),
        Err(Failure::Refused(error)) => Err(Failure::Refused(CedarSchemaError::Schema(error))),
        Err(Failure::NoMemory) => Err(Failure::NoMemory),
    }
}

fn definitions_told(alloc: Global, definitions: &Definitions) -> Mem<String> {
    let mut lines = Lines::new(alloc);
    for definition in definitions.definitions() {
        for (uid, action) in definition.actions.actions.iter() {
            lines.add_line(format!(in alloc; "action {uid}")?)?;
            add_attributes(&mut lines, 1, &action.attribute_types)?;
        }
    }
    Ok(lines.into_text())
}
