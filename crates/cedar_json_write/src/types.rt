// SPDX-License-Identifier: Apache-2.0
ghost use Rattle.std.specs.Prelude.{◌≡◌, not, codes, IfOk, OnOk};
ghost use Rattle.serde_json.specs.Data.{boolean, string};
ghost use Rattle.serde_json.specs.View.{view, members_view};
ghost use Rattle.cedar_data.specs.Maps.{map_values};
ghost use Rattle.cedar_json_write.specs.Written as written;
ghost use Rattle.cedar_json_write.specs.Written.{attribute_fields, attribute_json, attributes_json, named, put_all, record_fields, type_fields, type_json, unless, variant_fields};

use crate::fields::{Members, put_json, put_text, put_value};
use crate::names::put_notes;
use crate::to_json::ToJson;
use cedar_data::{Map, Mem, Text};
use cedar_fragment::{RawName, RecordType, SchemaType, TypeOfAttribute, TypeVariant};
use serde_json::Value;
use std::alloc::Global;

/// Puts the word of a type whose other key is a name.
fn put_named(alloc: Global, members: &mut Members, word: &str, name: &RawName) -> Mem<()>
    ensures { OnOk result (members_view members.new.entries
        ≡ put_all (named word.now name.now) (members_view members.old.entries)) }
{
    put_text(alloc, members, "type", word)?;
    put_json(alloc, members, "name", name)
}

/// Puts the truth value at the key, unless it goes without saying.
fn put_flag(alloc: Global, members: &mut Members, key: &str, flag: bool, unsaid: bool) -> Mem<()>
    ensures { OnOk result (members_view members.new.entries
        ≡ put_all (unless unsaid key.now (boolean flag)) (members_view members.old.entries)) }
{
    if unsaid {
        return Ok(());
    }
    put_value(alloc, members, key, Value::from(flag))
}

/// Puts the members of a type.
#[cycle(write)]
pub(crate) fn put_type(alloc: Global, ty: &SchemaType<RawName>, members: &mut Members) -> Mem<()>
    ensures { OnOk result (members_view members.new.entries
        ≡ put_all (type_fields ty.now) (members_view members.old.entries)) }
{
    match ty {
        SchemaType::Variant { ty, loc: _ } => put_variant(alloc, ty, members),
        SchemaType::CommonTypeRef { type_name, loc: _ } => {
            put_json(alloc, members, "type", type_name)
        }
    }
}

/// Puts the members of a type that is no common type.
#[cycle(write)]
fn put_variant(alloc: Global, ty: &TypeVariant<RawName>, members: &mut Members) -> Mem<()>
    ensures { OnOk result (members_view members.new.entries
        ≡ put_all (variant_fields ty.now) (members_view members.old.entries)) }
{
    match ty {
        TypeVariant::String => put_text(alloc, members, "type", "String"),
        TypeVariant::Long => put_text(alloc, members, "type", "Long"),
        TypeVariant::Boolean => put_text(alloc, members, "type", "Boolean"),
        TypeVariant::Set { element } => {
            put_text(alloc, members, "type", "Set")?;
            let element = write_type(alloc, element.get())?;
            put_value(alloc, members, "element", element)
        }
        TypeVariant::Record(fields) => {
            put_text(alloc, members, "type", "Record")?;
            put_record(alloc, fields, members)
        }
        TypeVariant::Entity { name } => put_named(alloc, members, "Entity", name),
        TypeVariant::EntityOrCommon { type_name } => {
            put_named(alloc, members, "EntityOrCommon", type_name)
        }
        TypeVariant::Extension { name } => {
            put_text(alloc, members, "type", "Extension")?;
            put_text(alloc, members, "name", name.as_ref())
        }
    }
}

/// The object of a type.
#[cycle(write)]
fn write_type(alloc: Global, ty: &SchemaType<RawName>) -> Mem<Value>
    ensures { IfOk result (λ v. view v ≡ type_json ty.now) }
{
    let mut members = Members::new(alloc);
    put_type(alloc, ty, &mut members)?;
    Ok(Value::from(members))
}

/// Puts the members of a record type behind its word.
#[cycle(write)]
#[tactic(auto, using(crate::proofs::Parts::type_parts))]
fn put_record(alloc: Global, fields: &RecordType<RawName>, members: &mut Members) -> Mem<()>
    ensures { OnOk result (members_view members.new.entries
        ≡ put_all (record_fields fields.now) (members_view members.old.entries)) }
{
    let attributes = write_attributes(alloc, &fields.attributes)?;
    put_value(alloc, members, "attributes", attributes)?;
    put_flag(
        alloc,
        members,
        "additionalAttributes",
        true,
        !fields.additional_attributes,
    )
}

/// The object of the attributes.
#[cycle(write)]
#[tactic(auto, using(crate::proofs::Building::puts))]
fn write_attributes(alloc: Global, attributes: &Map<Text, TypeOfAttribute<RawName>>) -> Mem<Value>
    ensures { IfOk result (λ v. view v
        ≡ attributes_json (map_values attribute_fields attributes.now)) }
{
    let mut members = Members::new(alloc);
    for (name, attribute) in attributes.iter() {
        let attribute = write_attribute(alloc, attribute)?;
        put_value(alloc, &mut members, name.as_str(), attribute)?;
    }
    Ok(Value::from(members))
}

/// The object of the type of an attribute.
#[cycle(write)]
#[tactic(auto, using(crate::proofs::Parts::type_parts))]
fn write_attribute(alloc: Global, attribute: &TypeOfAttribute<RawName>) -> Mem<Value>
    ensures { IfOk result (λ v. view v ≡ attribute_json attribute.now) }
{
    let mut members = Members::new(alloc);
    put_type(alloc, &attribute.ty, &mut members)?;
    put_flag(alloc, &mut members, "required", false, attribute.required)?;
    put_notes(alloc, &mut members, &attribute.annotations)?;
    Ok(Value::from(members))
}

impl ToJson for SchemaType<RawName> {
    ghost written = { type_json };

    fn to_json_value(&self, alloc: Global) -> Mem<Value> {
        write_type(alloc, self)
    }
}

impl ToJson for TypeOfAttribute<RawName> {
    ghost written = { attribute_json };

    fn to_json_value(&self, alloc: Global) -> Mem<Value> {
        write_attribute(alloc, self)
    }
}
