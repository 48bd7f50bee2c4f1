// SPDX-License-Identifier: Apache-2.0
use crate::bracketed::Bracketed;
use cedar_data::Mem;
use cedar_names::EntityType;
use cedar_resolved::{ValidatorEntityType, ValidatorEntityTypeKind, ValidatorSchema};
use cedar_row_trees::Lines;
use cedar_types::OpenTag;
use std::alloc::Global;

/// A line of the names of the entity types, and for each what is told of it.
pub(crate) fn add_types(lines: &mut Lines, schema: &ValidatorSchema) -> Mem<()> {
    let mut names = Bracketed::new(lines.alloc);
    for name in schema.entity_type_names() {
        names.add_type(name)?;
    }
    let names = names.told()?;
    lines.add_line(format!(in lines.alloc; "entity types {names}")?)?;
    for name in schema.entity_type_names() {
        add_type_lookup(lines, schema, name)?;
    }
    Ok(())
}

/// What the queries by name say of an entity type.
pub(crate) fn add_type_lookup(
    lines: &mut Lines,
    schema: &ValidatorSchema,
    name: &EntityType,
) -> Mem<()> {
    let ancestors = ancestors_told(lines.alloc, schema, name)?;
    let found = match schema.get_entity_type(name) {
        Some(ty) => type_told(lines.alloc, schema, ty)?,
        None => format!(in lines.alloc; "none")?,
    };
    lines.add_line(format!(in lines.alloc; "entity type {name}: ancestors {ancestors}, {found}")?)
}

/// The ancestors of an entity type.
fn ancestors_told(alloc: Global, schema: &ValidatorSchema, name: &EntityType) -> Mem<String> {
    match schema.ancestors(name) {
        Some(above) => {
            let mut ancestors = Bracketed::new(alloc);
            for ancestor in above {
                ancestors.add_type(ancestor)?;
            }
            ancestors.told()
        }
        None => Ok(format!(in alloc; "none")?),
    }
}

/// Which types of the schema descend from an entity type, whether it lists its entities, its attributes and its tags.
fn type_told(alloc: Global, schema: &ValidatorSchema, ty: &ValidatorEntityType) -> Mem<String> {
    let mut descendants = Bracketed::new(alloc);
    for name in schema.entity_type_names() {
        if ty.has_descendant_entity_type(name) {
            descendants.add_type(name)?;
        }
    }
    let descendants = descendants.told()?;
    let attributes = attributes_told(alloc, ty)?;
    let kind = match &ty.kind {
        ValidatorEntityTypeKind::Standard(_) => "standard",
        ValidatorEntityTypeKind::Enum(_) => "listed",
    };
    let open = match ty.open_attributes() {
        OpenTag::OpenAttributes => "open",
        OpenTag::ClosedAttributes => "closed",
    };
    let tags = if ty.tag_type().is_some() {
        "tags"
    } else {
        "no tags"
    };
    Ok(format!(in alloc;
        "descendants {descendants}, {kind}, {open}, attributes {attributes}, {tags}"
    )?)
}

/// The attributes of an entity type, each looked up by its name; one that isn't required with a question mark.
fn attributes_told(alloc: Global, ty: &ValidatorEntityType) -> Mem<String> {
    let mut attributes = Bracketed::new(alloc);
    for (name, _) in ty.attributes().iter() {
        let shown = match ty.attr(name.as_str()) {
            Some(found) if found.is_required => format!(in alloc; "{}", name.as_str())?,
            Some(_) => format!(in alloc; "{}?", name.as_str())?,
            None => format!(in alloc; "none")?,
        };
        attributes.add(shown.as_str())?;
    }
    attributes.told()
}
