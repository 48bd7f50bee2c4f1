// SPDX-License-Identifier: Apache-2.0
use crate::types::add_type;
use crate::writing::Writing;
use cedar_data::{Mem, Text};
use cedar_fragment::{
    ActionEntityUID, ActionType, ApplySpec, CommonType, EntityType, EntityTypeKind,
    NamespaceDefinition, RawName, SchemaType, StandardEntityType,
};
use cedar_names::Annotations;
use cedar_text::{Loc, NonEmpty};

/// Adds the definitions of a namespace: its common types, its entity types and its actions, a line
/// each, and its annotations before them.
pub fn add_definition(writing: &mut Writing, definition: &NamespaceDefinition<RawName>) -> Mem<()> {
    add_annotations(writing, "  ", &definition.annotations)?;
    for (id, common) in definition.common_types.iter() {
        add_common(writing, id.as_ref().as_ref(), common)?;
    }
    for (id, entity) in definition.entity_types.iter() {
        add_entity(writing, id.as_ref(), entity)?;
    }
    for (id, action) in definition.actions.iter() {
        add_action(writing, id, action)?;
    }
    Ok(())
}

fn add_annotations(writing: &mut Writing, indent: &str, annotations: &Annotations) -> Mem<()> {
    for (key, annotation) in annotations.iter() {
        let line = format!(in writing.alloc; "{indent}@{key}(\"{}\")\n", annotation.val)?;
        writing.add(line.as_str())?;
    }
    Ok(())
}

/// Adds the end of a declaration: its place, and its annotations on lines of their own.
fn add_end(writing: &mut Writing, loc: Option<&Loc>, annotations: &Annotations) -> Mem<()> {
    writing.add_place(loc)?;
    writing.add("\n")?;
    add_annotations(writing, "    ", annotations)
}

fn add_common(writing: &mut Writing, id: &str, common: &CommonType<RawName>) -> Mem<()> {
    let head = format!(in writing.alloc; "  type {id} = ")?;
    writing.add(head.as_str())?;
    add_type(writing, &common.ty)?;
    add_end(writing, common.loc.as_ref(), &common.annotations)
}

fn add_entity(writing: &mut Writing, id: &str, entity: &EntityType<RawName>) -> Mem<()> {
    writing.add("  entity ")?;
    writing.add(id)?;
    match &entity.kind {
        EntityTypeKind::Standard(standard) => add_standard(writing, standard)?,
        EntityTypeKind::Enum { choices } => add_choices(writing, choices)?,
    }
    add_end(writing, entity.loc.as_ref(), &entity.annotations)
}

fn add_standard(writing: &mut Writing, standard: &StandardEntityType<RawName>) -> Mem<()> {
    writing.add(" in ")?;
    writing.add_names(standard.member_of_types.as_slice())?;
    writing.add(" shape ")?;
    add_type(writing, &standard.shape.0)?;
    match &standard.tags {
        Some(tags) => add_tags(writing, tags),
        None => Ok(()),
    }
}

fn add_tags(writing: &mut Writing, tags: &SchemaType<RawName>) -> Mem<()> {
    writing.add(" tags ")?;
    add_type(writing, tags)
}

fn add_choices(writing: &mut Writing, choices: &NonEmpty<Text>) -> Mem<()> {
    writing.add(" enum")?;
    for choice in choices.iter() {
        let piece = format!(in writing.alloc; " \"{choice}\"")?;
        writing.add(piece.as_str())?;
    }
    Ok(())
}

fn add_parent(writing: &mut Writing, parent: &ActionEntityUID<RawName>) -> Mem<()> {
    writing.add(" in ")?;
    if let Some(ty) = parent.raw_ty() {
        writing.add_name(ty)?;
        writing.add("::")?;
    }
    let id = format!(in writing.alloc; "\"{}\"", parent.id)?;
    writing.add(id.as_str())
}

fn add_action(writing: &mut Writing, id: &Text, action: &ActionType<RawName>) -> Mem<()> {
    let head = format!(in writing.alloc; "  action \"{id}\"")?;
    writing.add(head.as_str())?;
    if let Some(parents) = &action.member_of {
        for parent in parents.iter() {
            add_parent(writing, parent)?;
        }
    }
    if action.attributes.is_some() {
        writing.add(" with attributes")?;
    }
    if let Some(applies) = &action.applies_to {
        add_applies_to(writing, applies)?;
    }
    add_end(writing, action.loc.as_ref(), &action.annotations)
}

fn add_applies_to(writing: &mut Writing, applies: &ApplySpec<RawName>) -> Mem<()> {
    writing.add(" principals ")?;
    writing.add_names(applies.principal_types.as_slice())?;
    writing.add(" resources ")?;
    writing.add_names(applies.resource_types.as_slice())?;
    writing.add(" context ")?;
    add_type(writing, &applies.context.0)
}
