// SPDX-License-Identifier: Apache-2.0
ghost use Rattle.std.specs.Prelude.{◌≡◌, [], ◌∷◌, ◌++◌, ◌&&◌, ◌↔◌, length, is_some, option_map, IsTrue, IfOk, OnOk, OnErr};
ghost use Rattle.std.specs.Option.{option_copied};
ghost use Rattle.std.specs.BTreeMap.{insert_entry, is_at};
ghost use Rattle.std.specs.Map.{keys_of, values_of};
ghost use Rattle.std.specs.List.Sorted.{IsStrictlySortedBy};
ghost use Rattle.std.specs.Cmp.Lexicographic.{pointwise, slice_cmp, slice_partial_cmp, lists_per, lists_equiv, lists_po, lists_total, lists_agrees, lists_ties};
ghost use Rattle.std.specs.Cmp.{on_per, and_per, on_equiv, and_equiv, on_po, then_po, on_total, then_total, then_agrees, both_tied};
ghost use Rattle.std.specs.Ordering.{ordering_then, partial_ordering_then};
ghost use Rattle.cedar_data.specs.Maps.{get, map_of, get_text, last_value, IsSortedMap, Puts};
ghost use Rattle.cedar_data.specs.Runs.{first_after};

use crate::comparing::{compare_entries, partially_compare_entries, same_entries};
use crate::dup::Dup;
use crate::entries::Entries;
use crate::map_iter::{MapIntoIter, MapIter, MapKeys, MapValues};
use crate::memory::Mem;
use crate::near::Near;
use crate::text::Text;
use std::alloc::Global;
use std::cmp::Ordering;
use std::marker::Model;

/// A map in the order of its keys, that contracts see as the list of its entries, so that a copy equals its source.
#[derive(Debug, Drop)]
pub struct Map<K: Ord, V> {
    alloc: Global,
    map: Entries<K, V>,
}

impl<K: Ord, V> Model for Map<K, V> {
    ghost use Rattle.std.specs.Prelude.{List};
    ghost use Rattle.std.specs.Coded.{coded_list, coded×};

    ghost Value = { List (K × V) };

    ghost coded = { coded_list (coded× K.code V.code) };

    ghost view = { λ m. m.map };
}

impl<K: Ord, V> Map<K, V> {
    /// The empty map. It takes no memory.
    pub fn new(alloc: Global) -> Map<K, V>
        ensures { result ≡ [] }
    {
        Map {
            alloc,
            map: Entries::new(alloc),
        }
    }

    /// The empty map, with room for `count` entries in one piece, or for fewer where there are many. It fails only for
    /// want of memory.
    pub fn with_room(alloc: Global, count: usize) -> Mem<Map<K, V>>
        ensures { IfOk result (λ m. m ≡ []) }
    {
        let map = Entries::with_room(alloc, count)?;
        Ok(Map { alloc, map })
    }

    /// How many entries the map has.
    pub fn len(&self) -> usize
        ensures count { result ≡ length self.now }
        ensures ordered { IsSortedMap K.cmp self.now }
    {
        self.map.len()
    }

    /// Whether the map has no entry.
    pub fn is_empty(&self) -> bool
        ensures { IsTrue result ↔ (self.now ≡ []) }
    {
        self.map.len() == 0
    }

    /// The value at the key that is equal to `key` in the order of the keys.
    pub fn get(&self, key: &K) -> Option<&V>
        ensures { option_copied result ≡ get K.cmp self.now key.now }
    {
        self.map.get(key)
    }

    /// As `get`, in few steps where the keys of the searches ascend: each begins where the last one ended, which `near`
    /// tells. It makes no difference to what is found.
    pub fn get_near(&self, near: &mut Near, key: &K) -> Option<&V>
        ensures { option_copied result ≡ get K.cmp self.now key.now }
    {
        self.map.get_near(near, key)
    }

    /// The first entry whose key is greater than `key`, in few steps where the keys of the searches ascend: each begins
    /// where the last one ended, which `near` tells. It makes no difference to what is found.
    pub fn after_near(&self, near: &mut Near, key: &K) -> Option<(&K, &V)>
        ensures { option_map (λ e. (e.0.now, e.1.now)) result ≡ first_after K.cmp key.now self.now }
    {
        self.map.after_near(near, key)
    }

    /// Whether a key is equal to `key` in the order of the keys.
    pub fn contains_key(&self, key: &K) -> bool
        ensures { result ≡ is_some (get K.cmp self.now key.now) }
    {
        self.map.get(key).is_some()
    }

    /// As `contains_key`, in few steps where the keys of the searches ascend.
    pub fn contains_near(&self, near: &mut Near, key: &K) -> bool
        ensures { result ≡ is_some (get K.cmp self.now key.now) }
    {
        self.map.get_near(near, key).is_some()
    }

    /// The entries, in the order of the keys.
    pub fn iter(&self) -> MapIter<'_, K, V>
        ensures rest { result ≡ self.now }
        ensures ordered { IsSortedMap K.cmp self.now }
    {
        MapIter::of(self.map.iter())
    }

    /// The keys, in their order.
    pub fn keys(&self) -> MapKeys<'_, K, V>
        ensures { result ≡ keys_of self.now }
    {
        MapKeys::of(self.map.iter())
    }

    /// The values, in the order of their keys.
    pub fn values(&self) -> MapValues<'_, K, V>
        ensures { result ≡ values_of self.now }
    {
        MapValues::of(self.map.iter())
    }
}

impl<K: Ord + Drop, V: Drop> Map<K, V> {
    /// The entries by value, in the order of the keys.
    pub fn into_entries(self) -> MapIntoIter<K, V>
        ensures rest { result ≡ self }
        ensures ordered { IsSortedMap K.cmp self }
    {
        let Map { alloc: _, map } = self;
        MapIntoIter::of(map.into_entries())
    }

    /// Puts `value` at `key`, and answers the value that was there. An equal key that is there stays, also where it
    /// is not identical to `key`. It fails only for want of memory, and then changes nothing.
    pub fn insert(&mut self, key: K, value: V) -> Mem<Option<V>>
        ensures ok { OnOk result (self.new ≡ insert_entry K.cmp self.old key value) }
        ensures puts { OnOk result (Puts K.cmp self.old self.new key value) }
        ensures old { IfOk result (λ old. old ≡ get K.cmp self.old key) }
        ensures err { OnErr result (self.new ≡ self.old) }
        ensures ordered { IsSortedMap K.cmp self.new }
    {
        self.map.insert(key, value)
    }

    /// Puts `value` at `key`, in place of the value that was there. It fails only for want of memory, and then changes
    /// nothing.
    pub fn put(&mut self, key: K, value: V) -> Mem<()>
        ensures ok { OnOk result (self.new ≡ insert_entry K.cmp self.old key value) }
        ensures puts { OnOk result (Puts K.cmp self.old self.new key value) }
        ensures err { OnErr result (self.new ≡ self.old) }
        ensures ordered { IsSortedMap K.cmp self.new }
    {
        self.insert(key, value)?;
        Ok(())
    }

    /// The map of the pairs. Of several pairs of one key, the last counts. It fails only for want of memory.
    pub fn from_pairs(alloc: Global, pairs: Vec<(K, V)>) -> Mem<Map<K, V>>
        ensures made { IfOk result (λ m. m ≡ map_of K.cmp pairs.items) }
        ensures values { IfOk result (λ m. (key : K)
            → get K.cmp m key ≡ last_value (is_at (K.cmp key)) pairs.items) }
        ensures ordered { IfOk result (λ m. IsSortedMap K.cmp m) }
    {
        let mut map = Map::new(alloc);
        for (key, value) in pairs {
            map.put(key, value)?;
        }
        Ok(map)
    }

    /// The map of entries that are in the order of their keys already. It fails only for want of memory.
    pub fn from_sorted(alloc: Global, entries: Vec<(K, V)>) -> Mem<Map<K, V>>
        requires { IsSortedMap K.cmp entries.items }
        ensures { IfOk result (λ m. m ≡ entries.items) }
    {
        let map = Entries::of_sorted(alloc, entries)?;
        Ok(Map { alloc, map })
    }

    /// Puts an entry after all others. It fails only for want of memory, and then changes nothing.
    pub fn push_last(&mut self, key: K, value: V) -> Mem<()>
        requires { IsStrictlySortedBy K.cmp (keys_of self.old ++ key ∷ []) }
        ensures ok { OnOk result (self.new ≡ self.old ++ (key, value) ∷ []) }
        ensures err { OnErr result (self.new ≡ self.old) }
    {
        self.map.push(key, value)
    }
}

impl<V> Map<Text, V> {
    /// The value at the key with the bytes of `name`.
    pub fn get_text(&self, name: &str) -> Option<&V>
        ensures { option_copied result ≡ get_text self.now name.now }
    {
        for (key, value) in self.iter() {
            if name == key.as_str() {
                return Some(value);
            }
        }
        None
    }
}

impl<K: Ord + Dup + Drop, V: Dup + Drop> Dup for Map<K, V> {
    fn dup(&self, alloc: Global) -> Mem<Map<K, V>> {
        let mut copies = Vec::with_capacity(alloc, self.len())?;
        for (key, value) in self.iter() {
            let key = key.dup(alloc)?;
            let value = value.dup(alloc)?;
            copies.push((key, value))?;
        }
        let map = Entries::of_sorted(alloc, copies)?;
        Ok(Map { alloc, map })
    }
}

impl<K: Ord, V: PartialEq> PartialEq for Map<K, V> {
    ghost eq = { pointwise (λ p q. K.eq p.0 q.0 && V.eq p.1 q.1) };

    ghost laws = { lists_per (and_per (on_per (λ p. p.0) K.PartialEq.laws)
        (on_per (λ p. p.1) V.laws)) };

    fn eq(&self, other: &Self) -> bool {
        same_entries(self.map.iter(), other.map.iter())
    }
}

impl<K: Ord, V: Eq> Eq for Map<K, V> {
    ghost laws = { lists_equiv (and_equiv (on_equiv (λ p. p.0) K.Eq.laws)
        (on_equiv (λ p. p.1) V.Eq.laws)) };
}

impl<K: Ord, V: PartialOrd> PartialOrd for Map<K, V> {
    ghost partial_cmp = { slice_partial_cmp (λ p q. partial_ordering_then (K.partial_cmp p.0 q.0)
        (V.partial_cmp p.1 q.1)) };

    ghost laws = { lists_po (then_po (on_po (λ p. p.0) K.PartialOrd.laws)
        (on_po (λ p. p.1) V.PartialOrd.laws)) };

    fn partial_cmp(&self, other: &Self) -> Option<Ordering> {
        partially_compare_entries(self.map.iter(), other.map.iter())
    }
}

impl<K: Ord, V: Ord> Ord for Map<K, V> {
    ghost cmp = { slice_cmp (λ p q. ordering_then (K.cmp p.0 q.0) (V.cmp p.1 q.1)) };

    ghost total = { lists_total (then_total (on_total (λ p. p.0) K.total)
        (on_total (λ p. p.1) V.total)) };

    ghost matches_partial_cmp = { lists_agrees (then_agrees (λ p q. K.matches_partial_cmp p.0 q.0)
        (λ p q. V.matches_partial_cmp p.1 q.1)) };

    ghost matches_eq = { let K' = K.cmp in let V' = V.cmp in
        lists_ties (λ p q. ordering_then (K' p.0 q.0) (V' p.1 q.1))
        (λ p q. both_tied _ _ (K' p.0 q.0) (V' p.1 q.1) (K.matches_eq p.0 q.0)
        (V.matches_eq p.1 q.1)) };

    fn cmp(&self, other: &Self) -> Ordering {
        compare_entries(self.map.iter(), other.map.iter())
    }
}
