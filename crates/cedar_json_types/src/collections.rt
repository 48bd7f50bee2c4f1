// SPDX-License-Identifier: Apache-2.0
ghost use Rattle.std.specs.Prelude.{◌≡◌, [], Some, None, IfOk};
ghost use Rattle.cedar_text.specs.Failures.{IfRefused};
ghost use Rattle.serde_json.specs.View.{view, items_view, members_view};
ghost use Rattle.cedar_json_types.specs.Faults.{items_fault, array_fault, members_fault, map_fault, entry_fault};
ghost use Rattle.cedar_json_types.specs.Shapes.{EachItem, ArrayOf, MapMembers, MapOf, Entry};

use crate::reading::{JsonKey, MayBeAbsent, ReadPart};
use crate::refusing::{under, under_place, wrong_type};
use cedar_data::{Items, Map, Out};
use cedar_json_fault::{JsonDeserializationError, JsonKind};
use serde_json::{Map as Members, Value};
use std::alloc::Global;

/// What the items have the shapes of.
#[tactic(auto, using(crate::proofs::ItemLoops::reads_items))]
fn read_items<T: ReadPart + Drop>(
    alloc: Global,
    items: &Vec<Value>,
) -> Out<Items<T>, JsonDeserializationError>
    ensures shape { IfOk result (λ vs. EachItem T.shapes (items_view items.now.items) vs) }
    ensures clean { IfOk result (λ _. items_fault T.fault 0 (items_view items.now.items) ≡ None) }
    ensures refused { IfRefused result (λ e. items_fault T.fault 0 (items_view items.now.items)
        ≡ Some e) }
{
    let mut read = Items::new(alloc);
    let mut place = 0usize;
    for item in items {
        let value = under_place(alloc, place, T::from_json_value(alloc, item))?;
        read.push(value)?;
        place += 1;
    }
    Ok(read)
}

impl<T: ReadPart + Drop> ReadPart for Items<T> {
    ghost shapes = { ArrayOf T.shapes };

    ghost fault = { array_fault T.fault };

    fn from_json_value(alloc: Global, json: &Value) -> Out<Items<T>, JsonDeserializationError> {
        let Some(items) = json.as_array() else {
            return wrong_type(alloc, json, JsonKind::Array);
        };
        read_items(alloc, items)
    }
}

impl<T: ReadPart + Drop> MayBeAbsent for Items<T> {
    ghost absent = { λ vs. vs ≡ [] };

    fn when_absent(alloc: Global) -> Items<T> {
        Items::new(alloc)
    }
}

/// The entry that a member is.
fn read_entry<K: JsonKey + Drop, V: ReadPart + Drop>(
    alloc: Global,
    key: &str,
    value: &Value,
) -> Out<(K, V), JsonDeserializationError>
    ensures shape { IfOk result (λ e. Entry K.named V.shapes key.now (view value.now) e.0 e.1) }
    ensures clean { IfOk result (λ _. entry_fault K.key_fault V.fault key.now (view value.now)
        ≡ None) }
    ensures refused { IfRefused result
        (λ e. entry_fault K.key_fault V.fault key.now (view value.now) ≡ Some e) }
{
    let name = K::from_key(alloc, key)?;
    let value = under(alloc, key, V::from_json_value(alloc, value))?;
    Ok((name, value))
}

/// The map of the entries that the members are.
#[tactic(auto, using(crate::proofs::MemberLoops::reads_members))]
fn read_members<K: Ord + JsonKey + Drop, V: ReadPart + Drop>(
    alloc: Global,
    members: &Members<String, Value>,
) -> Out<Map<K, V>, JsonDeserializationError>
    ensures shape { IfOk result
        (λ m. MapMembers K.cmp (Entry K.named V.shapes) (members_view members.now.entries) m) }
    ensures clean { IfOk result
        (λ _. members_fault (entry_fault K.key_fault V.fault) (members_view members.now.entries)
        ≡ None) }
    ensures refused { IfRefused result
        (λ e. members_fault (entry_fault K.key_fault V.fault) (members_view members.now.entries)
        ≡ Some e) }
{
    let mut read = Map::new(alloc);
    for (key, member) in members.iter() {
        let (name, value) = read_entry(alloc, key.as_str(), member)?;
        read.put(name, value)?;
    }
    Ok(read)
}

impl<K: Ord + JsonKey + Drop, V: ReadPart + Drop> ReadPart for Map<K, V> {
    ghost shapes = { MapOf K.cmp (Entry K.named V.shapes) };

    ghost fault = { map_fault (entry_fault K.key_fault V.fault) };

    fn from_json_value(alloc: Global, json: &Value) -> Out<Map<K, V>, JsonDeserializationError> {
        let Some(members) = json.as_object() else {
            return wrong_type(alloc, json, JsonKind::Object);
        };
        read_members(alloc, members)
    }
}

impl<K: Ord + JsonKey + Drop, V: ReadPart + Drop> MayBeAbsent for Map<K, V> {
    ghost absent = { λ m. m ≡ [] };

    fn when_absent(alloc: Global) -> Map<K, V> {
        Map::new(alloc)
    }
}
