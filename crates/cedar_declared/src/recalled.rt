// SPDX-License-Identifier: Apache-2.0
//! A map that recalls where it was searched last.
ghost use Rattle.std.specs.Prelude.{◌≡◌, [], is_some, OnOk, OnErr};
ghost use Rattle.std.specs.BTreeMap.{insert_entry};
ghost use Rattle.std.specs.Option.{option_copied};
ghost use Rattle.cedar_data.specs.Maps.{get};

use cedar_data::{Dup, Map, Mem, Near};
use std::alloc::Global;
use std::cell::Cell;
use std::marker::Model;

/// A map that contracts see as the list of its entries. Keys are mostly looked for in order, and the next one is then
/// found in few steps.
#[derive(Debug, Drop)]
pub(crate) struct RecalledMap<K: Ord, V> {
    map: Map<K, V>,
    /// Where a key was looked for last.
    recent: Cell<Near>,
}

impl<K: Ord, V> Model for RecalledMap<K, V> {
    ghost use Rattle.std.specs.Prelude.{List};

    ghost Value = { List (K × V) };

    ghost view = { λ m. m.map };
}

impl<K: Ord, V> RecalledMap<K, V> {
    /// The empty map. It takes no memory.
    pub(crate) fn new(alloc: Global) -> RecalledMap<K, V>
        ensures { result ≡ [] }
    {
        RecalledMap {
            map: Map::new(alloc),
            recent: Cell::new(Near::first()),
        }
    }

    /// The value at the key that is equal to `key`.
    pub(crate) fn get(&self, key: &K) -> Option<&V>
        ensures { option_copied result ≡ get K.cmp self.now key.now }
    {
        let mut near = self.recent.get();
        let found = self.map.get_near(&mut near, key);
        self.recent.set(near);
        found
    }

    /// Whether a key is equal to `key`.
    pub(crate) fn contains_key(&self, key: &K) -> bool
        ensures { result ≡ is_some (get K.cmp self.now key.now) }
    {
        let mut near = self.recent.get();
        let found = self.map.contains_near(&mut near, key);
        self.recent.set(near);
        found
    }
}

impl<K: Ord + Drop, V: Drop> RecalledMap<K, V> {
    /// Puts `value` at `key`, in place of the value that was there. It fails only for want of memory, and then changes
    /// nothing.
    pub(crate) fn put(&mut self, key: K, value: V) -> Mem<()>
        ensures ok { OnOk result (self.new ≡ insert_entry K.cmp self.old key value) }
        ensures err { OnErr result (self.new ≡ self.old) }
    {
        self.map.put(key, value)
    }
}

impl<K: Ord + Dup + Drop, V: Dup + Drop> Dup for RecalledMap<K, V> {
    fn dup(&self, alloc: Global) -> Mem<RecalledMap<K, V>> {
        let map = self.map.dup(alloc)?;
        Ok(RecalledMap {
            map,
            recent: Cell::new(Near::first()),
        })
    }
}
