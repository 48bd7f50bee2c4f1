// SPDX-License-Identifier: Apache-2.0
use crate::queried_schemas::queries;
use cedar_data::{Failure, Mem, NoMemory, Out, Text};
use cedar_names::{EntityType, EntityUID, NameFault};
use cedar_resolved::{ValidatorActionId, ValidatorEntityType, ValidatorSchema};
use cedar_row_trees::line_of;
use cedar_text::NonEmpty;
use cedar_types::{Attributes, CedarValueJson, OpenTag, Type, ValueMap};
use std::alloc::Global;

/// What the queries give of the schema that is made of entity types and actions, one a line of the input.
pub fn made_queries(alloc: Global, words: &[&str], input: &str) -> Mem<String> {
    match schema_made(alloc, input) {
        Ok(schema) => queries(alloc, words, &schema),
        Err(Failure::Refused(_)) => line_of(alloc, "no name"),
        Err(Failure::NoMemory) => Err(NoMemory),
    }
}

fn schema_made(alloc: Global, input: &str) -> Out<ValidatorSchema, NameFault> {
    if input.is_empty() {
        return Ok(ValidatorSchema::empty(alloc));
    }
    let mut types = Vec::new(alloc);
    let mut actions = Vec::new(alloc);
    for line in input.lines() {
        let words: Vec<&str> = line.split_whitespace().collect(alloc)?;
        match words.as_slice() {
            ["action", name, fields @ ..] => actions.push(action_made(alloc, name, fields)?)?,
            ["entity", name, fields @ ..] => types.push(type_made(alloc, name, fields)?)?,
            _ => (),
        }
    }
    Ok(ValidatorSchema::new(alloc, types, actions)?)
}

/// The words that stand behind the name of a field.
fn field<'a>(alloc: Global, fields: &[&'a str], name: &str) -> Mem<Vec<&'a str>> {
    let mut found = Vec::new(alloc);
    let mut is_within = false;
    for word in fields {
        match *word {
            "above" | "by" | "listing" | "on" | "with" => is_within = *word == name,
            _ if is_within => found.push(*word)?,
            _ => (),
        }
    }
    Ok(found)
}

fn types_of(alloc: Global, fields: &[&str], name: &str) -> Out<Vec<EntityType>, NameFault> {
    let mut types = Vec::new(alloc);
    for word in field(alloc, fields, name)? {
        types.push(EntityType::from_normalized_str(alloc, word)?)?;
    }
    Ok(types)
}

fn uids_of(alloc: Global, fields: &[&str], name: &str) -> Out<Vec<EntityUID>, NameFault> {
    let mut uids = Vec::new(alloc);
    for word in field(alloc, fields, name)? {
        uids.push(EntityUID::from_normalized_str(alloc, word)?)?;
    }
    Ok(uids)
}

/// The lists of names of an action.
#[derive(Drop)]
struct ActionLists {
    principals: Vec<EntityType>,
    resources: Vec<EntityType>,
    descendants: Vec<EntityUID>,
}

fn names_of(alloc: Global, fields: &[&str]) -> Out<ActionLists, NameFault> {
    let principals = types_of(alloc, fields, "by")?;
    let resources = types_of(alloc, fields, "on")?;
    let descendants = uids_of(alloc, fields, "above")?;
    Ok(ActionLists {
        principals,
        resources,
        descendants,
    })
}

/// An action `by` these principals `on` these resources, `above` these actions and `with` these attributes, which are
/// true.
fn action_made(alloc: Global, name: &str, fields: &[&str]) -> Out<ValidatorActionId, NameFault> {
    let name = EntityUID::from_normalized_str(alloc, name)?;
    let ActionLists {
        principals,
        resources,
        descendants,
    } = names_of(alloc, fields)?;
    let context = empty_context(alloc)?;
    let types = attributes_of(alloc, fields)?;
    let values = values_of(alloc, fields)?;
    let made = ValidatorActionId::new(
        alloc,
        name,
        principals,
        resources,
        descendants,
        context,
        types,
        values,
        None,
    );
    Ok(made?)
}

fn empty_context(alloc: Global) -> Mem<Type> {
    let attributes = Attributes::with_attributes(alloc, Vec::new(alloc))?;
    Type::record_with_attributes(alloc, attributes, OpenTag::ClosedAttributes)
}

fn values_of(alloc: Global, fields: &[&str]) -> Mem<ValueMap> {
    let mut values = ValueMap::new(alloc);
    for word in field(alloc, fields, "with")? {
        let name = Text::new(alloc, word)?;
        values.insert(name, CedarValueJson::Bool(true))?;
    }
    Ok(values)
}

/// The attributes `with` which something is, all of them truth values and required.
fn attributes_of(alloc: Global, fields: &[&str]) -> Mem<Attributes> {
    let mut list = Vec::new(alloc);
    for word in field(alloc, fields, "with")? {
        list.push((Text::new(alloc, word)?, Type::primitive_boolean()))?;
    }
    Attributes::with_required_attributes(alloc, list)
}

/// An entity type `above` these `with` these attributes and others, tagged with text; or one `listing` these entities.
fn type_made(alloc: Global, name: &str, fields: &[&str]) -> Out<ValidatorEntityType, NameFault> {
    let name = EntityType::from_normalized_str(alloc, name)?;
    let descendants = types_of(alloc, fields, "above")?;
    match NonEmpty::from_vec(texts_of(alloc, fields)?) {
        Some(ids) => Ok(ValidatorEntityType::new_enum(alloc, name, descendants, ids, None)?),
        None => Ok(ValidatorEntityType::new_standard(
            alloc,
            name,
            descendants,
            attributes_of(alloc, fields)?,
            OpenTag::OpenAttributes,
            Some(Type::primitive_string()),
            None,
        )?),
    }
}

fn texts_of(alloc: Global, fields: &[&str]) -> Mem<Vec<Text>> {
    let mut texts = Vec::new(alloc);
    for word in field(alloc, fields, "listing")? {
        texts.push(Text::new(alloc, word)?)?;
    }
    Ok(texts)
}
