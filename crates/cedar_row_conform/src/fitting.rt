// SPDX-License-Identifier: Apache-2.0
use crate::values::{outcome, value_of};
use cedar_conform::conforms_value;
use cedar_data::{Failure, Mem, NoMemory, Out};
use cedar_names::EntityType;
use cedar_resolved::ValidatorSchema;
use cedar_row_schema_lines::{CedarSchemaError, error_told, schema_of};
use cedar_row_trees::line_of;
use cedar_types::Type;
use serde_json::Value;
use std::alloc::Global;

/// `fits TYPE ATTRIBUTE`: whether the value behind the line `---` fits the type of this attribute of this entity type of
/// the schema before it.
pub fn fits(alloc: Global, words: &[&str], input: &str) -> Mem<String> {
    let [ty, attribute] = words else {
        return line_of(alloc, "no type and attribute");
    };
    let Some((text, member)) = input.split_once("\n---\n") else {
        return line_of(alloc, "no line `---`");
    };
    match value_of(alloc, member)? {
        Some(value) => fits_schema(alloc, text, ty, attribute, &value),
        None => line_of(alloc, "no JSON"),
    }
}

fn fits_schema(alloc: Global, text: &str, ty: &str, attribute: &str, value: &Value) -> Mem<String> {
    let made = schema_of(alloc, text);
    let told = fits_made(alloc, &made, ty, attribute, value);
    drop(made);
    told
}

fn fits_made(
    alloc: Global,
    made: &Out<ValidatorSchema, CedarSchemaError>,
    ty: &str,
    attribute: &str,
    value: &Value,
) -> Mem<String> {
    match made {
        Ok(schema) => fits_attribute(alloc, schema, ty, attribute, value),
        Err(Failure::Refused(error)) => error_told(alloc, error),
        Err(Failure::NoMemory) => Err(NoMemory),
    }
}

fn fits_attribute(
    alloc: Global,
    schema: &ValidatorSchema,
    ty: &str,
    attribute: &str,
    value: &Value,
) -> Mem<String> {
    match EntityType::from_normalized_str(alloc, ty) {
        Ok(ty) => match type_of(schema, &ty, attribute) {
            Some(ty) => outcome(alloc, "fits", conforms_value(alloc, schema, value, ty)),
            None => line_of(alloc, "no such attribute"),
        },
        Err(Failure::Refused(_)) => line_of(alloc, "no name"),
        Err(Failure::NoMemory) => Err(NoMemory),
    }
}

/// The type of the attribute of the entity type, if the schema has both.
fn type_of<'a>(schema: &'a ValidatorSchema, ty: &EntityType, attribute: &str) -> Option<&'a Type> {
    match schema.get_entity_type(ty)?.attr(attribute) {
        Some(found) => Some(&found.attr_type),
        None => None,
    }
}
