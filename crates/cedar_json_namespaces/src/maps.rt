// SPDX-License-Identifier: Apache-2.0
ghost use Rattle.std.specs.Prelude.{◌≡◌, [], Some, None, IfOk};
ghost use Rattle.cedar_text.specs.Failures.{IfRefused};
ghost use Rattle.serde_json.specs.View.{view, members_view};
ghost use Rattle.cedar_json_types.specs.Faults.{allows, entry_fault, map_fault, members_fault, needs};
ghost use Rattle.cedar_json_types.specs.Shapes.{At, Entry, MapMembers, MapOf, MayHave};

use cedar_data::{Map, Out};
use cedar_json_fault::{JsonDeserializationError, JsonKind};
use cedar_json_read::ReadDeclaration;
use cedar_json_types::{JsonKey, missing, under, wrong_type};
use serde_json::{Map as Members, Value};
use std::alloc::Global;

/// The entry that a member is.
fn read_entry<K: JsonKey + Drop, V: ReadDeclaration + Drop>(
    alloc: Global,
    key: &str,
    value: &Value,
) -> Out<(K, V), JsonDeserializationError>
    ensures shape { IfOk result (λ e. Entry K.named V.shapes key.now (view value.now) e.0 e.1) }
    ensures clean { IfOk result (λ _. entry_fault K.key_fault V.fault key.now (view value.now)
        ≡ None) }
    ensures refused { IfRefused result
        (λ e. entry_fault K.key_fault V.fault key.now (view value.now) ≡ Some e) }
{
    let name = K::from_key(alloc, key)?;
    let value = under(alloc, key, V::from_json_value(alloc, value))?;
    Ok((name, value))
}

/// The map of the entries that the members are.
#[tactic(auto, using(cedar_json_types::proofs::MemberLoops::reads_members))]
fn read_members<K: Ord + JsonKey + Drop, V: ReadDeclaration + Drop>(
    alloc: Global,
    members: &Members<String, Value>,
) -> Out<Map<K, V>, JsonDeserializationError>
    ensures shape { IfOk result
        (λ m. MapMembers K.cmp (Entry K.named V.shapes) (members_view members.now.entries) m) }
    ensures clean { IfOk result
        (λ _. members_fault (entry_fault K.key_fault V.fault) (members_view members.now.entries)
        ≡ None) }
    ensures refused { IfRefused result
        (λ e. members_fault (entry_fault K.key_fault V.fault) (members_view members.now.entries)
        ≡ Some e) }
{
    let mut read = Map::new(alloc);
    for (key, member) in members.iter() {
        let (name, value) = read_entry(alloc, key.as_str(), member)?;
        read.put(name, value)?;
    }
    Ok(read)
}

/// The map that the value has the shape of.
fn read_map<K: Ord + JsonKey + Drop, V: ReadDeclaration + Drop>(
    alloc: Global,
    value: &Value,
) -> Out<Map<K, V>, JsonDeserializationError>
    ensures shape { IfOk result (λ m. MapOf K.cmp (Entry K.named V.shapes) (view value.now) m) }
    ensures clean { IfOk result (λ _. map_fault (entry_fault K.key_fault V.fault) (view value.now)
        ≡ None) }
    ensures refused { IfRefused result
        (λ e. map_fault (entry_fault K.key_fault V.fault) (view value.now) ≡ Some e) }
{
    let Some(members) = value.as_object() else {
        return wrong_type(alloc, value, JsonKind::Object);
    };
    read_members(alloc, members)
}

/// The map at the key, which has to be there.
pub(crate) fn map_at<K: Ord + JsonKey + Drop, V: ReadDeclaration + Drop>(
    alloc: Global,
    value: &Value,
    key: &str,
) -> Out<Map<K, V>, JsonDeserializationError>
    ensures shape { IfOk result
        (λ m. At key.now (MapOf K.cmp (Entry K.named V.shapes)) (view value.now) m) }
    ensures clean { IfOk result
        (λ _. needs key.now (map_fault (entry_fault K.key_fault V.fault)) (view value.now) ≡ None) }
    ensures refused { IfRefused result
        (λ e. needs key.now (map_fault (entry_fault K.key_fault V.fault)) (view value.now)
        ≡ Some e) }
{
    let Some(member) = value.get(key) else {
        return missing(alloc, key);
    };
    under(alloc, key, read_map(alloc, member))
}

/// The map at the key; an absent one stands for the empty map.
pub(crate) fn map_unless_absent<K: Ord + JsonKey + Drop, V: ReadDeclaration + Drop>(
    alloc: Global,
    value: &Value,
    key: &str,
) -> Out<Map<K, V>, JsonDeserializationError>
    ensures shape { IfOk result (λ m. MayHave key.now (λ m. m
        ≡ []) (MapOf K.cmp (Entry K.named V.shapes)) (view value.now) m) }
    ensures clean { IfOk result
        (λ _. allows key.now (map_fault (entry_fault K.key_fault V.fault)) (view value.now)
        ≡ None) }
    ensures refused { IfRefused result
        (λ e. allows key.now (map_fault (entry_fault K.key_fault V.fault)) (view value.now)
        ≡ Some e) }
{
    match value.get(key) {
        None => Ok(Map::new(alloc)),
        Some(member) => under(alloc, key, read_map(alloc, member)),
    }
}
