// SPDX-License-Identifier: Apache-2.0
use crate::bracketed::{Bracketed, types_told};
use cedar_data::{Mem, SetIter};
use cedar_names::{EntityType, EntityUID};
use cedar_resolved::{ValidatorActionId, ValidatorSchema};
use cedar_row_trees::Lines;
use cedar_types::{OpenTag, Type, TypeView};
use std::alloc::Global;

/// Lines of the names of the actions, of their principals and resources, and of the groups; and for each action what is
/// told of it.
pub(crate) fn add_actions(lines: &mut Lines, schema: &ValidatorSchema) -> Mem<()> {
    let names = names_told(lines.alloc, schema)?;
    let principals = principals_told(lines.alloc, schema)?;
    let resources = resources_told(lines.alloc, schema)?;
    let groups = groups_told(lines.alloc, schema)?;
    lines.add_line(format!(in lines.alloc; "actions {names}")?)?;
    lines.add_line(format!(in lines.alloc; "principals {principals}")?)?;
    lines.add_line(format!(in lines.alloc; "resources {resources}")?)?;
    lines.add_line(format!(in lines.alloc; "groups {groups}")?)?;
    for name in schema.actions() {
        add_action_lookup(lines, schema, name)?;
    }
    Ok(())
}

fn names_told(alloc: Global, schema: &ValidatorSchema) -> Mem<String> {
    let mut names = Bracketed::new(alloc);
    for name in schema.actions() {
        names.add_uid(name)?;
    }
    names.told()
}

fn principals_told(alloc: Global, schema: &ValidatorSchema) -> Mem<String> {
    let mut principals = Bracketed::new(alloc);
    for ty in schema.principals() {
        principals.add_type(ty)?;
    }
    principals.told()
}

fn resources_told(alloc: Global, schema: &ValidatorSchema) -> Mem<String> {
    let mut resources = Bracketed::new(alloc);
    for ty in schema.resources() {
        resources.add_type(ty)?;
    }
    resources.told()
}

fn groups_told(alloc: Global, schema: &ValidatorSchema) -> Mem<String> {
    let mut groups = Bracketed::new(alloc);
    for name in schema.action_groups() {
        groups.add_uid(name)?;
    }
    groups.told()
}

/// What the queries by name say of an action, and what it says of itself.
pub(crate) fn add_action_lookup(
    lines: &mut Lines,
    schema: &ValidatorSchema,
    uid: &EntityUID,
) -> Mem<()> {
    let principals = types_or_none(lines.alloc, schema.principals_for_action(uid))?;
    let resources = types_or_none(lines.alloc, schema.resources_for_action(uid))?;
    let context = match schema.context_type(uid) {
        Some(ty) => record_told(lines.alloc, ty)?,
        None => format!(in lines.alloc; "none")?,
    };
    lines.add_line(format!(in lines.alloc;
        "action {uid}: principals {principals}, resources {resources}, context {context}"
    )?)?;
    match schema.get_action_id(uid) {
        Some(action) => add_action(lines, schema, action),
        None => lines.add_deep(1, "none"),
    }
}

fn types_or_none(alloc: Global, types: Option<SetIter<'_, EntityType>>) -> Mem<String> {
    match types {
        Some(types) => types_told(alloc, types),
        None => Ok(format!(in alloc; "none")?),
    }
}

/// What an action says of itself, and of each entity type of the schema.
fn add_action(lines: &mut Lines, schema: &ValidatorSchema, action: &ValidatorActionId) -> Mem<()> {
    let alloc = lines.alloc;
    let principals = types_told(alloc, action.applies_to_principals())?;
    let resources = types_told(alloc, action.applies_to_resources())?;
    let context = record_told(alloc, action.context_type())?;
    let line = format!(in alloc; "applies to {principals}, {resources}, {context}")?;
    lines.add_deep(1, line.as_str())?;
    let line = applicable_told(alloc, schema, action)?;
    lines.add_deep(1, line.as_str())?;
    let line = rest_told(alloc, action)?;
    lines.add_deep(1, line.as_str())
}

/// The entity types of the schema to which an action applies, each asked alone.
fn applicable_told(
    alloc: Global,
    schema: &ValidatorSchema,
    action: &ValidatorActionId,
) -> Mem<String> {
    let mut principals = Bracketed::new(alloc);
    let mut resources = Bracketed::new(alloc);
    for ty in schema.entity_type_names() {
        if action.is_applicable_principal_type(ty) {
            principals.add_type(ty)?;
        }
        if action.is_applicable_resource_type(ty) {
            resources.add_type(ty)?;
        }
    }
    let (principals, resources) = (principals.told()?, resources.told()?);
    Ok(format!(in alloc; "applicable {principals}, {resources}")?)
}

/// The descendants and the attributes of an action.
fn rest_told(alloc: Global, action: &ValidatorActionId) -> Mem<String> {
    let mut descendants = Bracketed::new(alloc);
    for below in action.descendants() {
        descendants.add_uid(below)?;
    }
    let mut attributes = Bracketed::new(alloc);
    for (name, _) in action.attributes() {
        attributes.add(name.as_str())?;
    }
    let mut types = Bracketed::new(alloc);
    for (name, _) in action.attribute_types().iter() {
        types.add(name.as_str())?;
    }
    let (descendants, attributes, types) = (descendants.told()?, attributes.told()?, types.told()?);
    Ok(format!(in alloc; "descendants {descendants}, attributes {attributes}, types of {types}")?)
}

/// The attributes of a record, one that isn't required with a question mark.
fn record_told(alloc: Global, ty: &Type) -> Mem<String> {
    match ty.view() {
        TypeView::Record(attributes, OpenTag::ClosedAttributes) => {
            let mut names = Bracketed::new(alloc);
            for (name, attribute) in attributes.iter() {
                let mark = if attribute.is_required { "" } else { "?" };
                let shown = format!(in alloc; "{}{mark}", name.as_str())?;
                names.add(shown.as_str())?;
            }
            names.told()
        }
        _ => Ok(format!(in alloc; "no closed record")?),
    }
}
