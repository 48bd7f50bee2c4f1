// SPDX-License-Identifier: Apache-2.0
ghost use Rattle.std.specs.Prelude.{◌≡◌, IfOk};
ghost use Rattle.serde_json.specs.Find.{get};
ghost use Rattle.serde_json.specs.View.{view, items_view, members_view};
ghost use Rattle.cedar_text.specs.Failures.{IfRefused};
ghost use Rattle.cedar_names.specs.Names.{name_words};
ghost use Rattle.cedar_types.specs.Types.{entries};
ghost use Rattle.cedar_unfold.specs.ResolvedViews.{resolved, resolved_map};
ghost use Rattle.cedar_checks.specs.SchemaViews.{schema_in};
ghost use Rattle.cedar_conform.specs.Checks.{Tells, each_item, each_member, each_value, here, in_array, passed};
ghost use Rattle.cedar_conform.specs.Fits as fits;
ghost use Rattle.cedar_conform.specs.Fits.{Fits};
ghost use Rattle.cedar_json_values.specs.ActionValues.{long_of};
ghost use Rattle.cedar_conform.specs.ValueChecks.{absent_check, attribute_check, attributes_check, boolean_check, in_range, long_check, name_known_check, names_check, record_check, string_check, value_check};
ghost use Rattle.cedar_conform_fault.specs.Flaws.{extension_value};

use crate::references::check_reference;
use crate::refusing::{refuse, under, under_place, wrong_kind};
use cedar_conform_fault::{Fault, FaultKind};
use cedar_data::{Dup, Out, Text};
use cedar_json_fault::JsonKind;
use cedar_names::Name;
use cedar_resolved::ValidatorSchema;
use cedar_types::{AttributeType, Attributes, Type, TypeView};
use serde_json::{Map as Members, Value};
use std::alloc::Global;

/// Refuses what is no truth value.
fn check_boolean(alloc: Global, value: &Value) -> Out<(), Fault>
    ensures { Tells passed result (boolean_check (view value.now)) }
{
    match value {
        Value::Bool(_) => Ok(()),
        _ => wrong_kind(alloc, value, JsonKind::Boolean),
    }
}

/// Refuses what is no whole number of 64 bits.
fn check_long(alloc: Global, value: &Value) -> Out<(), Fault>
    ensures { Tells passed result (long_check (view value.now)) }
{
    match value {
        Value::Number(_) => check_range(alloc, value),
        _ => wrong_kind(alloc, value, JsonKind::Number),
    }
}

/// Refuses a number that is no whole one of 64 bits.
fn check_range(alloc: Global, value: &Value) -> Out<(), Fault>
    ensures { Tells passed result (in_range (long_of (view value.now))) }
{
    match value.as_i64() {
        Some(_) => Ok(()),
        None => refuse(alloc, FaultKind::NumberOutOfRange),
    }
}

/// Refuses what is no text.
fn check_string(alloc: Global, value: &Value) -> Out<(), Fault>
    ensures { Tells passed result (string_check (view value.now)) }
{
    match value {
        Value::String(_) => Ok(()),
        _ => wrong_kind(alloc, value, JsonKind::String),
    }
}

/// Refuses a value for its extension type.
fn refuse_extension(alloc: Global, name: &Name) -> Out<(), Fault>
    ensures { Tells passed result (here (extension_value (name_words name.now))) }
{
    let name = name.dup(alloc)?;
    refuse(alloc, FaultKind::ExtensionValue { name })
}

/// Refuses a key that is the name of no attribute.
fn check_name(alloc: Global, key: &str, attributes: &Attributes) -> Out<(), Fault>
    ensures { Tells passed result
        (name_known_check (resolved_map (entries attributes.now)) key.now) }
{
    let name = Text::new(alloc, key)?;
    if has_attribute(attributes, &name) {
        return Ok(());
    }
    refuse(alloc, FaultKind::UnknownAttribute { name })
}

/// Refuses members of which one has a key that is the name of no attribute.
#[tactic(auto, using(crate::proofs::Members::each_member_passes))]
fn check_each_name(
    alloc: Global,
    members: &Members<String, Value>,
    attributes: &Attributes,
) -> Out<(), Fault>
    ensures { Tells passed result
        (each_member (λ k d. name_known_check (resolved_map (entries attributes.now)) k)
        (members_view members.now.entries)) }
{
    for (key, _) in members.iter() {
        check_name(alloc, key.as_str(), attributes)?;
    }
    Ok(())
}

/// Refuses what is no object, and an object with a key that is the name of no attribute.
#[tactic(auto, using(crate::proofs::ByKind::kinds_of_values))]
fn check_names(alloc: Global, value: &Value, attributes: &Attributes) -> Out<(), Fault>
    ensures { Tells passed result
        (names_check (resolved_map (entries attributes.now)) (view value.now)) }
{
    match value.as_object() {
        Some(members) => check_each_name(alloc, members, attributes),
        None => wrong_kind(alloc, value, JsonKind::Object),
    }
}

/// Whether there is an attribute of this name.
#[tactic(auto, using(crate::proofs::Rows::names))]
fn has_attribute(attributes: &Attributes, name: &Text) -> bool
    ensures { result ≡ fits.has_attribute (resolved_map (entries attributes.now)) name.now }
{
    attributes.find(name).is_some()
}

/// Refuses a value that doesn't fit the type.
#[cycle(values)]
fn check_value(alloc: Global, schema: &ValidatorSchema, value: &Value, ty: &Type) -> Out<(), Fault>
    ensures { Tells passed result
        (value_check (schema_in schema.now) (resolved ty.now) (view value.now)) }
{
    match ty.view() {
        TypeView::Bool => check_boolean(alloc, value),
        TypeView::Long => check_long(alloc, value),
        TypeView::String => check_string(alloc, value),
        TypeView::Set(element) => check_list(alloc, schema, value, element),
        TypeView::Record(attributes, _) => check_record(alloc, schema, value, attributes),
        TypeView::Entity(ty) => check_reference(alloc, schema, value, ty),
        TypeView::Extension(name) => refuse_extension(alloc, name),
    }
}

/// Refuses what is no list of values that fit the type.
#[cycle(values)]
fn check_list(
    alloc: Global,
    schema: &ValidatorSchema,
    value: &Value,
    element: &Type,
) -> Out<(), Fault>
    ensures { Tells passed result
        (in_array (each_item (value_check (schema_in schema.now) (resolved element.now)) 0)
        (view value.now)) }
{
    match value.as_array() {
        Some(items) => check_items(alloc, schema, items, element),
        None => wrong_kind(alloc, value, JsonKind::Array),
    }
}

/// Refuses items of which one doesn't fit the type.
#[cycle(values)]
#[tactic(auto, using(crate::proofs::Items::each_item_passes))]
fn check_items(
    alloc: Global,
    schema: &ValidatorSchema,
    items: &Vec<Value>,
    element: &Type,
) -> Out<(), Fault>
    ensures { Tells passed result
        (each_item (value_check (schema_in schema.now) (resolved element.now)) 0
        (items_view items.now.items)) }
{
    let mut place = 0usize;
    for item in items {
        under_place(alloc, place, check_value(alloc, schema, item, element))?;
        place += 1;
    }
    Ok(())
}

/// Refuses what doesn't fit the record of the attributes.
#[cycle(values)]
pub(crate) fn check_record(
    alloc: Global,
    schema: &ValidatorSchema,
    value: &Value,
    attributes: &Attributes,
) -> Out<(), Fault>
    ensures { Tells passed result (record_check (schema_in schema.now)
        (resolved_map (entries attributes.now)) (view value.now)) }
{
    check_names(alloc, value, attributes)?;
    check_attributes(alloc, schema, value, attributes)
}

/// Refuses an object that lacks a required attribute, or in which the value of an attribute doesn't fit its type.
#[cycle(values)]
#[tactic(auto, using(crate::proofs::Rows::each_attribute))]
fn check_attributes(
    alloc: Global,
    schema: &ValidatorSchema,
    value: &Value,
    attributes: &Attributes,
) -> Out<(), Fault>
    ensures { Tells passed result (attributes_check (schema_in schema.now)
        (resolved_map (entries attributes.now)) (view value.now)) }
{
    for (name, attribute) in attributes.iter() {
        check_attribute(alloc, schema, value, name, attribute)?;
    }
    Ok(())
}

/// Refuses an attribute that is required and isn't there, or whose value doesn't fit its type.
#[cycle(values)]
fn check_attribute(
    alloc: Global,
    schema: &ValidatorSchema,
    value: &Value,
    name: &Text,
    attribute: &AttributeType,
) -> Out<(), Fault>
    ensures { Tells passed result (attribute_check name.now attribute.now.is_required
        (value_check (schema_in schema.now) (resolved attribute.now.attr_type))
        (get name.now (view value.now))) }
{
    match value.get(name.as_str()) {
        Some(member) => under(
            alloc,
            name.as_str(),
            check_value(alloc, schema, member, &attribute.attr_type),
        ),
        None => check_absent(alloc, name, attribute.is_required),
    }
}

/// Refuses that an attribute isn't there where it is required.
fn check_absent(alloc: Global, name: &Text, is_required: bool) -> Out<(), Fault>
    ensures { Tells passed result (absent_check name.now is_required) }
{
    if !is_required {
        return Ok(());
    }
    let name = name.dup(alloc)?;
    refuse(alloc, FaultKind::MissingAttribute { name })
}

/// Refuses an object of whose members one's value doesn't fit the type.
#[tactic(auto, using(crate::proofs::Members::each_member_passes))]
pub(crate) fn check_members(
    alloc: Global,
    schema: &ValidatorSchema,
    members: &Members<String, Value>,
    ty: &Type,
) -> Out<(), Fault>
    ensures { Tells passed result (each_value (value_check (schema_in schema.now) (resolved ty.now))
        (members_view members.now.entries)) }
{
    for (key, member) in members.iter() {
        under(alloc, key.as_str(), check_value(alloc, schema, member, ty))?;
    }
    Ok(())
}

/// Refuses a value in JSON that doesn't fit the type, with the first misfit: that the type is an extension type comes
/// before the kind of the value; the items of a list come in order; of a record come first the unknown attributes, in
/// the order of the keys, and then the attributes, in the order of their names.
#[tactic(auto, using(crate::proofs::Passing::passing))]
pub fn conforms_value(
    alloc: Global,
    schema: &ValidatorSchema,
    v: &Value,
    ty: &Type,
) -> Out<(), Fault>
    ensures told { Tells passed result
        (value_check (schema_in schema.now) (resolved ty.now) (view v.now)) }
    ensures fits { IfOk result (λ _. Fits (schema_in schema.now) (resolved ty.now) (view v.now)) }
    ensures unfit { IfRefused result
        (λ _. Fits (schema_in schema.now) (resolved ty.now) (view v.now) → ⊥) }
{
    check_value(alloc, schema, v, ty)
}
