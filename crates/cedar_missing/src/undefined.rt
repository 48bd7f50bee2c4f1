// SPDX-License-Identifier: Apache-2.0
//! The first reference of a type that means nothing declared. It is looked for without memory.
ghost use Rattle.std.specs.Prelude.{◌≡◌, IfOk};
ghost use Rattle.std.specs.Option.{option_copied};
ghost use Rattle.cedar_declared.specs.Held.{names_of};
ghost use Rattle.cedar_missing.specs.Undeclared.{first_undefined, missing_in_type, references_of_attributes, unless_found};
ghost use Rattle.cedar_written.specs.References.{references, references_of_attribute, references_of_record, references_of_variant};

use cedar_data::{Dup, Items, Map, Mem, Text};
use cedar_declared::{
    AllDefs, ConditionalName, RecordType, SchemaType, TypeOfAttribute, TypeVariant,
};
use std::alloc::Global;

/// The first reference of a type that means nothing declared, alone, if there is one.
pub(crate) fn missing_in_type(
    alloc: Global,
    all_defs: &AllDefs,
    ty: &SchemaType<ConditionalName>,
) -> Mem<Items<ConditionalName>>
    ensures { IfOk result (λ ns. ns ≡ missing_in_type (names_of all_defs.now) ty.now) }
{
    let mut missing = Items::new(alloc);
    if let Some(name) = undefined_in_type(all_defs, ty) {
        missing.push(name.dup(alloc)?)?;
    }
    Ok(missing)
}

/// The name, unless it means something declared.
fn undefined_name<'a>(all_defs: &AllDefs, name: &'a ConditionalName) -> Option<&'a ConditionalName>
    ensures { option_copied result ≡ unless_found (names_of all_defs.now) name.now }
{
    match all_defs.find_target(name) {
        Some(_) => None,
        None => Some(name),
    }
}

/// The first reference of a type that means nothing declared.
#[cycle(look)]
fn undefined_in_type<'a>(
    all_defs: &AllDefs,
    ty: &'a SchemaType<ConditionalName>,
) -> Option<&'a ConditionalName>
    ensures { option_copied result ≡ first_undefined (names_of all_defs.now) (references ty.now) }
{
    match ty {
        SchemaType::Variant { ty, loc: _ } => undefined_in_variant(all_defs, ty),
        SchemaType::CommonTypeRef { type_name, loc: _ } => undefined_name(all_defs, type_name),
    }
}

/// The same of what kind of type it is.
#[cycle(look)]
fn undefined_in_variant<'a>(
    all_defs: &AllDefs,
    ty: &'a TypeVariant<ConditionalName>,
) -> Option<&'a ConditionalName>
    ensures { option_copied result
        ≡ first_undefined (names_of all_defs.now) (references_of_variant ty.now) }
{
    match ty {
        TypeVariant::String => None,
        TypeVariant::Long => None,
        TypeVariant::Boolean => None,
        TypeVariant::Set { element } => undefined_in_type(all_defs, element.get()),
        TypeVariant::Record(fields) => undefined_in_record(all_defs, fields),
        TypeVariant::Entity { name } => undefined_name(all_defs, name),
        TypeVariant::EntityOrCommon { type_name } => undefined_name(all_defs, type_name),
        TypeVariant::Extension { name: _ } => None,
    }
}

/// The same of a record type.
#[cycle(look)]
fn undefined_in_record<'a>(
    all_defs: &AllDefs,
    fields: &'a RecordType<ConditionalName>,
) -> Option<&'a ConditionalName>
    ensures { option_copied result
        ≡ first_undefined (names_of all_defs.now) (references_of_record fields.now) }
{
    undefined_in_attributes(all_defs, &fields.attributes)
}

/// The same of attributes by name.
#[cycle(look)]
#[tactic(auto, using(crate::proofs::FirstUndefined::first))]
fn undefined_in_attributes<'a>(
    all_defs: &AllDefs,
    attributes: &'a Map<Text, TypeOfAttribute<ConditionalName>>,
) -> Option<&'a ConditionalName>
    ensures { option_copied result
        ≡ first_undefined (names_of all_defs.now) (references_of_attributes attributes.now) }
{
    for (_, attribute) in attributes.iter() {
        if let Some(name) = undefined_in_attribute(all_defs, attribute) {
            return Some(name);
        }
    }
    None
}

/// The same of an attribute.
#[cycle(look)]
fn undefined_in_attribute<'a>(
    all_defs: &AllDefs,
    attribute: &'a TypeOfAttribute<ConditionalName>,
) -> Option<&'a ConditionalName>
    ensures { option_copied result
        ≡ first_undefined (names_of all_defs.now) (references_of_attribute attribute.now) }
{
    undefined_in_type(all_defs, &attribute.ty)
}
