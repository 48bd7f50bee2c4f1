// SPDX-License-Identifier: Apache-2.0
ghost use Rattle.std.specs.Prelude.{◌≡◌, [], ◌∷◌, ◌++◌, ◌^◌, ◌<◌, ◌≤◌, true, length, slice_get, take, drop, option_map, IfOk, IfErr, OnOk, OnErr};
ghost use Rattle.std.specs.Option.{option_copied};
ghost use Rattle.std.specs.BTreeMap.{insert_entry};
ghost use Rattle.std.specs.List.Sorted.{IsStrictlySortedBy};
ghost use Rattle.std.specs.Map.{keys_of};
ghost use Rattle.cedar_data.specs.Maps.{get, IsSortedMap};
ghost use Rattle.cedar_data.specs.Places.{StandsAt, BelongsAt, EndsBefore};

use crate::memory::{Mem, widen};
use std::alloc::Global;
use std::marker::Model;
use std::mem;
use std::slice::Iter;

/// How many entries a run has at most, where there is memory to split a longer one.
pub(crate) const MOST: usize = 64;

/// Entries in the order of their keys, in one list.
#[derive(Debug, Drop)]
pub(crate) struct Run<K: Ord, V> {
    entries: Vec<(K, V)>,
}

impl<K: Ord, V> Model for Run<K, V> {
    ghost use Rattle.std.specs.Prelude.{List};
    ghost use Rattle.std.specs.Coded.{coded_list, coded×};
    ghost use Rattle.cedar_data.specs.Maps.{IsSortedMap};

    ghost Value = { List (K × V) };

    ghost coded = { coded_list (coded× K.code V.code) };

    ghost view = { λ r. r.entries.items };

    ghost invariant = { λ r. IsSortedMap K.cmp r.entries.items };
}

/// Makes room for one entry more. Where there is none, room is made for 1, 4, 16, or `MOST` entries, or for one more.
fn make_room<T>(entries: &mut Vec<T>) -> Mem<()>
    ensures { entries.new.items ≡ entries.old.items }
{
    let count = entries.len();
    let room = match count {
        0 => 1,
        1..=3 => 4 - count,
        4..=15 => 16 - count,
        16..MOST => MOST - count,
        _ => 1,
    };
    widen(entries, room)
}

impl<K: Ord, V> Run<K, V> {
    /// The empty run. It takes no memory.
    pub(crate) fn new(alloc: Global) -> Run<K, V>
        ensures { result ≡ [] }
    {
        Run {
            entries: Vec::new(alloc),
        }
    }

    /// The empty run, with room for `count` entries, or for `MOST` where that is less.
    pub(crate) fn with_room(alloc: Global, count: usize) -> Mem<Run<K, V>>
        ensures { IfOk result (λ run. run ≡ []) }
    {
        let entries = Vec::with_capacity(alloc, count.min(MOST))?;
        Ok(Run { entries })
    }

    /// The run of entries that are in order.
    pub(crate) fn of_sorted(entries: Vec<(K, V)>) -> Run<K, V>
        requires { IsSortedMap K.cmp entries.items }
        ensures { result ≡ entries.items }
    {
        Run { entries }
    }

    /// How many entries there are.
    pub(crate) fn len(&self) -> usize
        ensures count { result ≡ length self.now }
        ensures ordered { IsSortedMap K.cmp self.now }
    {
        self.entries.len()
    }

    /// The entries, in order.
    pub(crate) fn as_slice(&self) -> &[(K, V)]
        ensures entries { result.now ≡ self.now }
        ensures ordered { IsSortedMap K.cmp self.now }
    {
        self.entries.as_slice()
    }

    /// The entries, in order, by value.
    pub(crate) fn into_vec(self) -> Vec<(K, V)>
        ensures entries { result.items ≡ self }
        ensures ordered { IsSortedMap K.cmp self }
    {
        let Run { entries } = self;
        entries
    }

    /// True only where there is a last entry, and its key is less than this one.
    pub(crate) fn ends_before(&self, key: &K) -> bool
        ensures { (result ≡ true) → EndsBefore K.cmp self.now key.now }
    {
        match self.entries.as_slice().last() {
            Some(entry) => entry.0.cmp(key).is_lt(),
            None => false,
        }
    }

    /// Where the key stands, or else where it would be put.
    pub(crate) fn place(&self, key: &K) -> Result<usize, usize>
        ensures found { IfOk result (λ at. StandsAt K.cmp self.now key.now at) }
        ensures missing { IfErr result (λ at. BelongsAt K.cmp self.now key.now at) }
        ensures counted { length self.now < 2 ^ 64 }
    {
        self.entries
            .as_slice()
            .binary_search_by(|entry| entry.0.cmp(key))
    }

    /// The value at the key that is equal to `key`.
    pub(crate) fn get(&self, key: &K) -> Option<&V>
        ensures { option_copied result ≡ get K.cmp self.now key.now }
    {
        match self.place(key) {
            Ok(at) => Some(&self.entries[at].1),
            Err(_) => None,
        }
    }

    /// The entry at the index, if there is one.
    pub(crate) fn entry_at(&self, at: usize) -> Option<(&K, &V)>
        ensures { option_map (λ e. (e.0.now, e.1.now)) result ≡ slice_get self.now at }
    {
        match self.entries.as_slice().get(at) {
            Some(entry) => Some((&entry.0, &entry.1)),
            None => None,
        }
    }
}

impl<K: Ord + Drop, V: Drop> Run<K, V> {
    /// Puts `value` at `key`, and answers the value that was there. An equal key that is there stays. It fails only
    /// for want of memory, and then changes nothing.
    pub(crate) fn insert(&mut self, key: K, value: V) -> Mem<Option<V>>
        ensures ok { OnOk result (self.new ≡ insert_entry K.cmp self.old key value) }
        ensures old { IfOk result (λ old. old ≡ get K.cmp self.old key) }
        ensures err { OnErr result (self.new ≡ self.old) }
    {
        match self.place(&key) {
            Ok(at) => Ok(Some(mem::replace(&mut self.entries[at].1, value))),
            Err(at) => {
                make_room(&mut self.entries)?;
                self.entries.insert(at, (key, value))?;
                Ok(None)
            }
        }
    }

    /// Puts an entry after all others. It fails only for want of memory, and then changes nothing.
    pub(crate) fn push(&mut self, key: K, value: V) -> Mem<()>
        requires { IsStrictlySortedBy K.cmp (keys_of self.old ++ key ∷ []) }
        ensures ok { OnOk result (self.new ≡ self.old ++ (key, value) ∷ []) }
        ensures err { OnErr result (self.new ≡ self.old) }
    {
        make_room(&mut self.entries)?;
        self.entries.push((key, value))?;
        Ok(())
    }

    /// Takes the entries from the index `at` on as a run of their own. It fails only for want of memory, and then
    /// changes nothing.
    pub(crate) fn split_off(&mut self, at: usize) -> Mem<Run<K, V>>
        requires { at ≤ length self.old }
        ensures ok { OnOk result (self.new ≡ take at self.old) }
        ensures more { IfOk result (λ more. more ≡ drop at self.old) }
        ensures err { OnErr result (self.new ≡ self.old) }
    {
        let entries = self.entries.split_off(at)?;
        Ok(Run { entries })
    }
}
