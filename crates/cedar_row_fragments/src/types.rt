// SPDX-License-Identifier: Apache-2.0
use crate::writing::Writing;
use cedar_data::{Map, Mem, Text};
use cedar_fragment::{RawName, SchemaType, TypeOfAttribute, TypeVariant};
use cedar_names::Annotations;

/// Adds a type; with `common` before the name of a common type, and `entity` or `extension` before
/// one of those.
#[cycle(types)]
pub fn add_type(writing: &mut Writing, ty: &SchemaType<RawName>) -> Mem<()> {
    match ty {
        SchemaType::CommonTypeRef { type_name, loc } => {
            writing.add("common ")?;
            writing.add_name(type_name)?;
            writing.add_place(loc.as_ref())
        }
        SchemaType::Variant { ty, loc } => {
            add_variant(writing, ty)?;
            writing.add_place(loc.as_ref())
        }
    }
}

/// Adds what kind of type it is.
#[cycle(types)]
fn add_variant(writing: &mut Writing, ty: &TypeVariant<RawName>) -> Mem<()> {
    match ty {
        TypeVariant::String => writing.add("string"),
        TypeVariant::Long => writing.add("long"),
        TypeVariant::Boolean => writing.add("boolean"),
        TypeVariant::Set { element } => {
            writing.add("Set<")?;
            add_type(writing, element.get())?;
            writing.add(">")
        }
        TypeVariant::Record(record) => {
            add_attributes(writing, &record.attributes)?;
            if record.additional_attributes {
                writing.add(" open")
            } else {
                Ok(())
            }
        }
        TypeVariant::Entity { name } => {
            writing.add("entity ")?;
            writing.add_name(name)
        }
        TypeVariant::EntityOrCommon { type_name } => writing.add_name(type_name),
        TypeVariant::Extension { name } => {
            writing.add("extension ")?;
            writing.add(name.as_ref())
        }
    }
}

/// Adds annotations, each with a blank behind it.
fn add_notes(writing: &mut Writing, annotations: &Annotations) -> Mem<()> {
    for (key, annotation) in annotations.iter() {
        let note = format!(in writing.alloc; "@{key}(\"{}\") ", annotation.val)?;
        writing.add(note.as_str())?;
    }
    Ok(())
}

/// Adds attributes between braces.
#[cycle(types)]
#[tactic(auto, using(crate::proofs::Remaining::remaining))]
fn add_attributes(
    writing: &mut Writing,
    attributes: &Map<Text, TypeOfAttribute<RawName>>,
) -> Mem<()> {
    writing.add("{")?;
    let mut is_first = true;
    for (name, attribute) in attributes.iter() {
        writing.add_comma(is_first)?;
        add_attribute(writing, name, attribute)?;
        is_first = false;
    }
    writing.add("}")
}

/// Adds an attribute: its annotations, its name, `?` where it may be left out, and its type.
#[cycle(types)]
fn add_attribute(
    writing: &mut Writing,
    name: &Text,
    attribute: &TypeOfAttribute<RawName>,
) -> Mem<()> {
    add_notes(writing, &attribute.annotations)?;
    add_attribute_name(writing, name, attribute.required)?;
    add_type(writing, &attribute.ty)
}

/// Adds the name of an attribute before its type.
fn add_attribute_name(writing: &mut Writing, name: &Text, is_required: bool) -> Mem<()> {
    let mark = if is_required { "" } else { "?" };
    let head = format!(in writing.alloc; "\"{name}\"{mark}: ")?;
    writing.add(head.as_str())
}
