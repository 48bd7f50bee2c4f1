// SPDX-License-Identifier: Apache-2.0
ghost use Rattle.std.specs.Prelude.{◌≡◌, ◌<◌, suc, Some, None, IfOk};
ghost use Rattle.std.specs.Cmp.Lexicographic.{slice_cmp};
ghost use Rattle.std.specs.Ordering.{nat_cmp};
ghost use Rattle.cedar_text.specs.Failures.{IfRefused};
ghost use Rattle.cedar_types.specs.Values as values;
ghost use Rattle.serde_json.specs.View.{view, items_view, members_view};
ghost use Rattle.cedar_json_types.specs.Faults.{any_text, entry_fault, items_fault, map_fault, members_fault};
ghost use Rattle.cedar_json_types.specs.Shapes.{EachItem, Entry, MapMembers};
ghost use Rattle.cedar_json_values.specs.ActionValues.{IsLong, IsMapped, ValuePart, ValueShape, ValuesShape, layer_fault, long_fault, value_fault};

use cedar_data::{Out, Text};
use cedar_json_fault::{JsonDeserializationError, JsonFault, JsonKind};
use cedar_json_types::{refuse, under, under_place, wrong_type};
use cedar_types::{CedarValueJson, ValueList, ValueMap};
use serde_json::{Map as Members, Value};
use std::alloc::Global;

/// The whole number of 64 bits that a number is.
fn read_long(alloc: Global, value: &Value) -> Out<i64, JsonDeserializationError>
    ensures shape { IfOk result (λ z. IsLong (view value.now) z) }
    ensures clean { IfOk result (λ _. long_fault (view value.now) ≡ None) }
    ensures refused { IfRefused result (λ e. long_fault (view value.now) ≡ Some e) }
{
    match value.as_i64() {
        Some(long) => Ok(long),
        None => refuse(alloc, JsonFault::NumberOutOfRange),
    }
}

/// The value with these members: one of the three escapes, where it has the key of one, or else a record.
#[tactic(auto, using(crate::proofs::ValueLemmas::mapped))]
fn mapped(value: &Value, map: ValueMap) -> CedarValueJson
    ensures { IsMapped (view value.now) map result }
{
    if value.get("__expr").is_some() {
        return CedarValueJson::ExprEscape(map);
    }
    if value.get("__entity").is_some() {
        return CedarValueJson::EntityEscape(map);
    }
    if value.get("__extn").is_some() {
        return CedarValueJson::ExtnEscape(map);
    }
    CedarValueJson::Record(map)
}

/// The value, in which at most `left` arrays and objects may nest.
#[cycle(read)]
#[tactic(auto, using(crate::proofs::ValueLemmas::value_shapes))]
fn read_value(
    alloc: Global,
    value: &Value,
    left: usize,
) -> Out<CedarValueJson, JsonDeserializationError>
    ensures shape { IfOk result (λ v. ValueShape left (view value.now) v) }
    ensures clean { IfOk result (λ _. layer_fault left (value_fault left) (view value.now) ≡ None) }
    ensures refused { IfRefused result (λ e. layer_fault left (value_fault left) (view value.now)
        ≡ Some e) }
{
    match value {
        Value::Null => Ok(CedarValueJson::Null),
        Value::Bool(flag) => Ok(CedarValueJson::Bool(*flag)),
        Value::Number(_) => {
            let long = read_long(alloc, value)?;
            Ok(CedarValueJson::Long(long))
        }
        Value::String(text) => {
            let text = Text::new(alloc, text.as_str())?;
            Ok(CedarValueJson::String(text))
        }
        Value::Array(items) => {
            if left == 0 {
                return refuse(alloc, JsonFault::TooDeep);
            }
            let list = read_items(alloc, items, left)?;
            Ok(CedarValueJson::Set(list))
        }
        Value::Object(members) => {
            if left == 0 {
                return refuse(alloc, JsonFault::TooDeep);
            }
            let map = read_members(alloc, members, left)?;
            Ok(mapped(value, map))
        }
    }
}

/// A value within an array or object, where `left` may nest from that one on.
#[cycle(read)]
#[tactic(auto, using(crate::proofs::ValueLemmas::less))]
fn read_part(
    alloc: Global,
    value: &Value,
    left: usize,
) -> Out<CedarValueJson, JsonDeserializationError>
    requires { 0 < left }
    ensures shape { IfOk result (λ v. ValuePart left (view value.now) v) }
    ensures clean { IfOk result (λ _. value_fault left (view value.now) ≡ None) }
    ensures refused { IfRefused result (λ e. value_fault left (view value.now) ≡ Some e) }
{
    read_value(alloc, value, left - 1)
}

/// The values that the items are.
#[cycle(read)]
#[tactic(auto, using(cedar_json_types::proofs::ItemLoops::reads_items))]
fn read_items(
    alloc: Global,
    items: &Vec<Value>,
    left: usize,
) -> Out<ValueList, JsonDeserializationError>
    requires { 0 < left }
    ensures shape { IfOk result
        (λ l. EachItem (ValuePart left) (items_view items.now.items) (values.list_values l)) }
    ensures clean { IfOk result (λ _. items_fault (value_fault left) 0 (items_view items.now.items)
        ≡ None) }
    ensures refused { IfRefused result
        (λ e. items_fault (value_fault left) 0 (items_view items.now.items) ≡ Some e) }
{
    let mut read = ValueList::new(alloc);
    let mut place = 0usize;
    for item in items {
        let value = under_place(alloc, place, read_part(alloc, item, left))?;
        read.push(value)?;
        place += 1;
    }
    Ok(read)
}

/// The values by name that the members are.
#[cycle(read)]
#[tactic(auto, using(cedar_json_types::proofs::MemberLoops::reads_members))]
fn read_members(
    alloc: Global,
    members: &Members<String, Value>,
    left: usize,
) -> Out<ValueMap, JsonDeserializationError>
    requires { 0 < left }
    ensures shape { IfOk result
        (λ m. MapMembers (slice_cmp nat_cmp) (Entry (λ k t. t ≡ k) (ValuePart left))
        (members_view members.now.entries) (values.members m)) }
    ensures clean { IfOk result
        (λ _. members_fault (entry_fault any_text (value_fault left))
        (members_view members.now.entries) ≡ None) }
    ensures refused { IfRefused result
        (λ e. members_fault (entry_fault any_text (value_fault left))
        (members_view members.now.entries) ≡ Some e) }
{
    let mut read = ValueMap::new(alloc);
    for (key, member) in members.iter() {
        let value = under(alloc, key.as_str(), read_part(alloc, member, left))?;
        let name = Text::new(alloc, key.as_str())?;
        read.insert(name, value)?;
    }
    Ok(read)
}

/// The attributes of an action that the value has the shape of.
pub fn read_values(alloc: Global, value: &Value) -> Out<ValueMap, JsonDeserializationError>
    ensures shape { IfOk result (λ m. ValuesShape (ValuePart 129) (view value.now) m) }
    ensures clean { IfOk result
        (λ _. map_fault (entry_fault any_text (value_fault 129)) (view value.now) ≡ None) }
    ensures refused { IfRefused result
        (λ e. map_fault (entry_fault any_text (value_fault 129)) (view value.now) ≡ Some e) }
{
    let Some(members) = value.as_object() else {
        return wrong_type(alloc, value, JsonKind::Object);
    };
    read_members(alloc, members, 129)
}
