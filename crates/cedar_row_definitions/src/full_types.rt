// SPDX-License-Identifier: Apache-2.0
use cedar_data::{Dup, Failure, Mem, NoMemory, Out};
use cedar_declared::{AllDefs, FullyQualify};
use cedar_fragment::{
    AttributesOrContext, RawName, RecordType, SchemaType, TypeOfAttribute, TypeVariant,
};
use cedar_names::InternalName;
use cedar_row_trees::Lines;
use cedar_schema_error::SchemaError;
use std::fmt::Display;

/// What references are resolved by.
#[derive(Clone, Copy)]
pub(crate) struct Scope<'a> {
    /// The declared names.
    pub(crate) names: &'a AllDefs,
    /// The namespace in which the references stand, none for the unnamed one.
    pub(crate) namespace: Option<&'a InternalName>,
}

/// Adds a line of the structure with the full name that each of its references means, or of what is
/// said of the first that means nothing.
pub(crate) fn add_full<T: FullyQualify>(
    lines: &mut Lines,
    what: &str,
    part: T,
    names: &AllDefs,
) -> Mem<()>
where
    T::Full: Display + Drop,
{
    let made = part.fully_qualify_type_references(lines.alloc, names);
    let added = add_made(lines, what, &made);
    drop(made);
    added
}

fn add_made<T: Display>(lines: &mut Lines, what: &str, made: &Out<T, SchemaError>) -> Mem<()> {
    match made {
        Ok(part) => add_shown(lines, what, part),
        Err(Failure::Refused(error)) => add_error(lines, error),
        Err(Failure::NoMemory) => Err(NoMemory),
    }
}

fn add_shown<T: Display>(lines: &mut Lines, what: &str, part: &T) -> Mem<()> {
    let line = format!(in lines.alloc; "{what}{part}")?;
    lines.add_deep(1, line.as_str())
}

/// Adds a line of what is said of a reference that means nothing.
pub(crate) fn add_error(lines: &mut Lines, error: &SchemaError) -> Mem<()> {
    let line = format!(in lines.alloc; "{error}")?;
    lines.add_deep(1, line.as_str())
}

/// Adds the lines of a type, of what kind it is, and of the record that it may be.
pub(crate) fn add_type(lines: &mut Lines, scope: Scope<'_>, ty: &SchemaType<RawName>) -> Mem<()> {
    let copy = ty.dup(lines.alloc)?;
    let part = copy.conditionally_qualify_type_references(lines.alloc, scope.namespace)?;
    add_full(lines, "type ", part, scope.names)?;
    match ty {
        SchemaType::Variant { ty, .. } => add_variant(lines, scope, ty),
        SchemaType::CommonTypeRef { .. } => Ok(()),
    }
}

fn add_variant(lines: &mut Lines, scope: Scope<'_>, ty: &TypeVariant<RawName>) -> Mem<()> {
    let copy = ty.dup(lines.alloc)?;
    let part = copy.conditionally_qualify_type_references(lines.alloc, scope.namespace)?;
    add_full(lines, "variant ", part, scope.names)?;
    match ty {
        TypeVariant::Record(record) => add_record(lines, scope, record),
        _ => Ok(()),
    }
}

fn add_record(lines: &mut Lines, scope: Scope<'_>, record: &RecordType<RawName>) -> Mem<()> {
    let copy = record.dup(lines.alloc)?;
    let part = copy.conditionally_qualify_type_references(lines.alloc, scope.namespace)?;
    add_full(lines, "record ", part, scope.names)?;
    for (_, attribute) in record.attributes.iter() {
        add_attribute(lines, scope, attribute)?;
    }
    Ok(())
}

fn add_attribute(
    lines: &mut Lines,
    scope: Scope<'_>,
    attribute: &TypeOfAttribute<RawName>,
) -> Mem<()> {
    let copy = attribute.dup(lines.alloc)?;
    let part = copy.conditionally_qualify_type_references(lines.alloc, scope.namespace)?;
    let made = part.fully_qualify_type_references(lines.alloc, scope.names);
    let added = add_made_attribute(lines, &made);
    drop(made);
    added
}

fn add_made_attribute(
    lines: &mut Lines,
    made: &Out<TypeOfAttribute<InternalName>, SchemaError>,
) -> Mem<()> {
    match made {
        Ok(attribute) => add_shown(lines, "attribute ", &attribute.ty),
        Err(Failure::Refused(error)) => add_error(lines, error),
        Err(Failure::NoMemory) => Err(NoMemory),
    }
}

/// Adds a line of the shape of an entity type.
pub(crate) fn add_shape(
    lines: &mut Lines,
    scope: Scope<'_>,
    shape: &AttributesOrContext<RawName>,
) -> Mem<()> {
    let copy = shape.dup(lines.alloc)?;
    let part = copy.conditionally_qualify_type_references(lines.alloc, scope.namespace)?;
    add_full(lines, "shape ", part, scope.names)
}
