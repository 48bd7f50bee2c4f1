// SPDX-License-Identifier: Apache-2.0
ghost use Rattle.std.specs.Prelude.{◌≡◌, IfOk};
ghost use Rattle.std.specs.Map.{keys_of};
ghost use Rattle.cedar_data.specs.Sets.{set_of};

use cedar_data::{Items, Map, Mem, Set};
use std::alloc::Global;

/// The set of the items.
pub(crate) fn set_of<K: Ord + Drop>(alloc: Global, items: Items<K>) -> Mem<Set<K>>
    ensures { IfOk result (λ set. set ≡ set_of K.cmp items) }
{
    let mut set = Set::new(alloc);
    for item in items.into_vec() {
        set.insert(item)?;
    }
    Ok(set)
}

/// The keys of a map, in their order.
fn keys_in_order<K: Ord + Drop>(alloc: Global, map: Map<K, ()>) -> Mem<Items<K>>
    ensures { IfOk result (λ keys. keys ≡ keys_of map) }
{
    let mut keys = Vec::with_capacity(alloc, map.len())?;
    for (key, _) in map.into_entries() {
        keys.push(key)?;
    }
    Ok(Items::from_vec(keys))
}

/// The items in their order, of equal ones the first alone.
pub(crate) fn distinct<K: Ord + Drop>(alloc: Global, items: Items<K>) -> Mem<Items<K>>
    ensures { IfOk result (λ kept. kept ≡ set_of K.cmp items) }
{
    if items.len() < 2 {
        return Ok(items);
    }
    let mut kept = Map::new(alloc);
    for item in items.into_vec() {
        kept.put(item, ())?;
    }
    keys_in_order(alloc, kept)
}
