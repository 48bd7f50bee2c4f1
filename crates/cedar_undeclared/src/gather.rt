// SPDX-License-Identifier: Apache-2.0
//! Undeclared names put to others, those of types in the order in which they stand there.
ghost use Rattle.std.specs.Prelude.{◌≡◌, OnOk};
ghost use Rattle.cedar_missing.specs.of_declared.Held.{names_of};
ghost use Rattle.cedar_missing.specs.Undeclared.{references_of_attributes};
ghost use Rattle.cedar_undeclared.specs.Gathering.{references_of_types, with_all_undeclared, with_references, with_undeclared};
ghost use Rattle.cedar_written.specs.References.{references, references_of_attribute, references_of_record, references_of_variant};

use cedar_data::{Dup, Map, Mem, Set, Text};
use cedar_missing::AllDefs;
use cedar_names::InternalName;
use cedar_written::{RecordType, SchemaType, TypeOfAttribute, TypeVariant};
use std::alloc::Global;

/// Puts the name to the others, unless it is a declared entity type.
fn gather_name(
    alloc: Global,
    all_defs: &AllDefs,
    name: &InternalName,
    names: &mut Set<InternalName>,
) -> Mem<()>
    ensures { OnOk result (names.new ≡ with_undeclared (names_of all_defs.now) names.old name.now) }
{
    if all_defs.is_defined_as_entity(name) {
        return Ok(());
    }
    let undeclared = name.dup(alloc)?;
    names.insert(undeclared)?;
    Ok(())
}

/// Puts all these names to the others, but for declared entity types.
pub(crate) fn gather_names(
    alloc: Global,
    all_defs: &AllDefs,
    more: &[InternalName],
    names: &mut Set<InternalName>,
) -> Mem<()>
    ensures { OnOk result (names.new
        ≡ with_all_undeclared (names_of all_defs.now) names.old more.now) }
{
    for name in more.iter() {
        gather_name(alloc, all_defs, name, names)?;
    }
    Ok(())
}

/// The same of the names that stand in types where only an entity type may stand.
#[tactic(auto, using(crate::proofs::Gathers::gathers))]
pub(crate) fn gather_in_types<K: Ord>(
    alloc: Global,
    all_defs: &AllDefs,
    types: &Map<K, SchemaType<InternalName>>,
    names: &mut Set<InternalName>,
) -> Mem<()>
    ensures { OnOk result (names.new
        ≡ with_references (names_of all_defs.now) names.old (references_of_types types.now)) }
{
    for (_, ty) in types.iter() {
        gather_in_type(alloc, all_defs, ty, names)?;
    }
    Ok(())
}

/// The same of a type.
#[cycle(gather)]
fn gather_in_type(
    alloc: Global,
    all_defs: &AllDefs,
    ty: &SchemaType<InternalName>,
    names: &mut Set<InternalName>,
) -> Mem<()>
    ensures { OnOk result (names.new
        ≡ with_references (names_of all_defs.now) names.old (references ty.now)) }
{
    match ty {
        SchemaType::Variant { ty, loc: _ } => gather_in_variant(alloc, all_defs, ty, names),
        SchemaType::CommonTypeRef {
            type_name: _,
            loc: _,
        } => Ok(()),
    }
}

/// The same of what kind of type it is.
#[cycle(gather)]
fn gather_in_variant(
    alloc: Global,
    all_defs: &AllDefs,
    ty: &TypeVariant<InternalName>,
    names: &mut Set<InternalName>,
) -> Mem<()>
    ensures { OnOk result (names.new
        ≡ with_references (names_of all_defs.now) names.old (references_of_variant ty.now)) }
{
    match ty {
        TypeVariant::String => Ok(()),
        TypeVariant::Long => Ok(()),
        TypeVariant::Boolean => Ok(()),
        TypeVariant::Set { element } => gather_in_type(alloc, all_defs, element.get(), names),
        TypeVariant::Record(fields) => gather_in_record(alloc, all_defs, fields, names),
        TypeVariant::Entity { name } => gather_name(alloc, all_defs, name, names),
        TypeVariant::EntityOrCommon { type_name: _ } => Ok(()),
        TypeVariant::Extension { name: _ } => Ok(()),
    }
}

/// The same of a record type.
#[cycle(gather)]
fn gather_in_record(
    alloc: Global,
    all_defs: &AllDefs,
    fields: &RecordType<InternalName>,
    names: &mut Set<InternalName>,
) -> Mem<()>
    ensures { OnOk result (names.new
        ≡ with_references (names_of all_defs.now) names.old (references_of_record fields.now)) }
{
    gather_in_attributes(alloc, all_defs, &fields.attributes, names)
}

/// The same of attributes by name.
#[cycle(gather)]
#[tactic(auto, using(crate::proofs::Gathers::gathers))]
fn gather_in_attributes(
    alloc: Global,
    all_defs: &AllDefs,
    attributes: &Map<Text, TypeOfAttribute<InternalName>>,
    names: &mut Set<InternalName>,
) -> Mem<()>
    ensures { OnOk result (names.new
        ≡ with_references (names_of all_defs.now) names.old
        (references_of_attributes attributes.now)) }
{
    for (_, attribute) in attributes.iter() {
        gather_in_attribute(alloc, all_defs, attribute, names)?;
    }
    Ok(())
}

/// The same of an attribute.
#[cycle(gather)]
fn gather_in_attribute(
    alloc: Global,
    all_defs: &AllDefs,
    attribute: &TypeOfAttribute<InternalName>,
    names: &mut Set<InternalName>,
) -> Mem<()>
    ensures { OnOk result (names.new
        ≡ with_references (names_of all_defs.now) names.old
        (references_of_attribute attribute.now)) }
{
    gather_in_type(alloc, all_defs, &attribute.ty, names)
}
