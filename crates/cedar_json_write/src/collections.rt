// SPDX-License-Identifier: Apache-2.0
ghost use Rattle.std.specs.Prelude.{◌≡◌, [], ◌∷◌, ◌++◌, map, IfOk, OnOk};
ghost use Rattle.serde_json.specs.View.{view, members_view};
ghost use Rattle.cedar_json_write.specs.Written.{all_of, each_at, if_any, put_all};

use crate::fields::{Members, put_at, put_value};
use crate::to_json::{ToJson, ToKey};
use cedar_data::{Items, Map, Mem};
use serde_json::Value;
use std::alloc::Global;

/// Puts what is written behind the values.
pub(crate) fn push_item<T: ToJson>(alloc: Global, values: &mut Vec<Value>, item: &T) -> Mem<()>
    ensures { OnOk result (map view values.new.items ≡ map view values.old.items
        ++ T.written item.now ∷ []) }
{
    let value = item.to_json_value(alloc)?;
    values.push(value)?;
    Ok(())
}

/// Puts what is written of each behind the values, in order.
pub(crate) fn push_items<T: ToJson>(alloc: Global, values: &mut Vec<Value>, items: &[T]) -> Mem<()>
    ensures { OnOk result (map view values.new.items ≡ map view values.old.items
        ++ map T.written items.now) }
{
    for item in items {
        push_item(alloc, values, item)?;
    }
    Ok(())
}

/// The array of what is written of each.
pub(crate) fn write_items<T: ToJson>(alloc: Global, items: &[T]) -> Mem<Value>
    ensures { IfOk result (λ v. view v ≡ all_of T.written items.now) }
{
    let mut values = Vec::new(alloc);
    push_items(alloc, &mut values, items)?;
    Ok(Value::from(values))
}

/// Puts the array of what is written of each at the key, unless there is none.
pub(crate) fn put_items<T: ToJson>(
    alloc: Global,
    members: &mut Members,
    key: &str,
    items: &Items<T>,
) -> Mem<()>
    ensures { OnOk result (members_view members.new.entries
        ≡ put_all (if_any key.now (all_of T.written) items.now)
        (members_view members.old.entries)) }
{
    if items.is_empty() {
        return Ok(());
    }
    let value = write_items(alloc, items.as_slice())?;
    put_value(alloc, members, key, value)
}

/// The object of what is written of each value, at what is written of its key.
#[tactic(auto, using(crate::proofs::Building::puts))]
pub(crate) fn write_map<K: Ord + ToKey, V: ToJson>(alloc: Global, map: &Map<K, V>) -> Mem<Value>
    ensures { IfOk result (λ v. view v ≡ each_at K.text V.written map.now) }
{
    let mut members = Members::new(alloc);
    for (key, value) in map.iter() {
        let key = key.to_key(alloc)?;
        let value = value.to_json_value(alloc)?;
        put_at(&mut members, key, value)?;
    }
    Ok(Value::from(members))
}

/// Puts the object of what is written of each value at the key, unless there is none.
pub(crate) fn put_map<K: Ord + ToKey, V: ToJson>(
    alloc: Global,
    members: &mut Members,
    key: &str,
    map: &Map<K, V>,
) -> Mem<()>
    ensures { OnOk result (members_view members.new.entries
        ≡ put_all (if_any key.now (each_at K.text V.written) map.now)
        (members_view members.old.entries)) }
{
    if map.is_empty() {
        return Ok(());
    }
    let value = write_map(alloc, map)?;
    put_value(alloc, members, key, value)
}
