// SPDX-License-Identifier: Apache-2.0
ghost use Rattle.std.specs.Prelude.{◌≡◌, [], ◌∷◌, ◌++◌, ◌↔◌, length, not, IsTrue, IfOk, OnOk, OnErr};
ghost use Rattle.std.specs.BTreeSet.{insert_key};
ghost use Rattle.std.specs.Iterator.{at_most};
ghost use Rattle.std.specs.List.Sorted.{IsStrictlySortedBy};
ghost use Rattle.std_collections.specs.Map.Iter.{TakesFirst, deref};
ghost use Rattle.std.specs.Cmp.Lexicographic.{pointwise, slice_cmp, slice_partial_cmp, lists_per, lists_equiv, lists_po, lists_total, lists_agrees, lists_ties};
ghost use Rattle.cedar_data.specs.Sets.{contains, Adds};

use crate::comparing::{compare_entries, partially_compare_entries, same_entries};
use crate::dup::Dup;
use crate::entries::Entries;
use crate::entries_iter::EntriesIter;
use crate::memory::Mem;
use crate::near::Near;
use std::alloc::Global;
use std::cmp::Ordering;
use std::iter::{ExactSizeIterator, Iterator};
use std::marker::Model;

/// The keys of a set, in their order.
#[derive(Debug, Drop)]
pub struct SetIter<'a, K: Ord> {
    keys: EntriesIter<'a, K, ()>,
}

impl<'a, K: Ord> Model for SetIter<'a, K> {
    ghost use Rattle.std.specs.Prelude.{List};
    ghost use Rattle.std.specs.Map.{keys_of};

    ghost Value = { List K };

    ghost view = { λ i. keys_of i.keys };
}

impl<'a, K: Ord> Iterator for SetIter<'a, K> {
    type Item = &'a K;

    ghost next_gives = { TakesFirst deref };

    ghost remaining = { λ s. at_most (length s) };

    fn next(&mut self) -> Option<&'a K> {
        match self.keys.next() {
            Some((key, _)) => Some(key),
            None => None,
        }
    }

    fn size_hint(&self) -> (usize, Option<usize>) {
        let len = self.len();
        (len, Some(len))
    }
}

impl<'a, K: Ord> ExactSizeIterator for SetIter<'a, K> {
    fn len(&self) -> usize {
        self.keys.len()
    }
}

/// A set in the order of its keys, that contracts see as the list of them, so that a copy equals its source.
#[derive(Debug, Drop)]
pub struct Set<K: Ord> {
    keys: Entries<K, ()>,
}

impl<K: Ord> Model for Set<K> {
    ghost use Rattle.std.specs.Prelude.{List};
    ghost use Rattle.std.specs.Map.{keys_of};
    ghost use Rattle.std.specs.Coded.{coded_list};

    ghost Value = { List K };

    ghost coded = { coded_list K.code };

    ghost view = { λ s. keys_of s.keys };
}

impl<K: Ord> Set<K> {
    /// The empty set. It takes no memory.
    pub fn new(alloc: Global) -> Set<K>
        ensures { result ≡ [] }
    {
        Set {
            keys: Entries::new(alloc),
        }
    }

    /// How many keys the set has.
    pub fn len(&self) -> usize
        ensures count { result ≡ length self.now }
        ensures ordered { IsStrictlySortedBy K.cmp self.now }
    {
        self.keys.len()
    }

    /// Whether the set has no key.
    pub fn is_empty(&self) -> bool
        ensures { IsTrue result ↔ (self.now ≡ []) }
    {
        self.keys.len() == 0
    }

    /// Whether a key is equal to `key` in the order of the keys.
    pub fn contains(&self, key: &K) -> bool
        ensures { result ≡ contains K.cmp self.now key.now }
    {
        self.keys.get(key).is_some()
    }

    /// As `contains`, in few steps where the keys of the searches ascend: each begins where the last one ended, which
    /// `near` tells. It makes no difference to the answer.
    pub fn contains_near(&self, near: &mut Near, key: &K) -> bool
        ensures { result ≡ contains K.cmp self.now key.now }
    {
        self.keys.get_near(near, key).is_some()
    }

    /// The keys, in their order.
    pub fn iter(&self) -> SetIter<'_, K>
        ensures rest { result ≡ self.now }
        ensures ordered { IsStrictlySortedBy K.cmp self.now }
    {
        SetIter {
            keys: self.keys.iter(),
        }
    }
}

impl<K: Ord + Drop> Set<K> {
    /// Puts `key` into the set, and answers whether it was not there. An equal key that is there stays, also where it
    /// is not identical to `key`. It fails only for want of memory, and then changes nothing.
    pub fn insert(&mut self, key: K) -> Mem<bool>
        ensures ok { OnOk result (self.new ≡ insert_key K.cmp self.old key) }
        ensures adds { OnOk result (Adds K.cmp self.old self.new key) }
        ensures added { IfOk result (λ added. added ≡ not (contains K.cmp self.old key)) }
        ensures err { OnErr result (self.new ≡ self.old) }
        ensures ordered { IsStrictlySortedBy K.cmp self.new }
    {
        let old = self.keys.insert(key, ())?;
        Ok(old.is_none())
    }

    /// The set of keys that are in their order already. It fails only for want of memory.
    pub fn from_sorted(alloc: Global, keys: Vec<K>) -> Mem<Set<K>>
        requires { IsStrictlySortedBy K.cmp keys.items }
        ensures { IfOk result (λ s. s ≡ keys.items) }
    {
        let mut entries = Vec::with_capacity(alloc, keys.len())?;
        for key in keys {
            entries.push((key, ()))?;
        }
        let keys = Entries::of_sorted(alloc, entries)?;
        Ok(Set { keys })
    }

    /// Puts a key after all others. It fails only for want of memory, and then changes nothing.
    pub fn push_last(&mut self, key: K) -> Mem<()>
        requires { IsStrictlySortedBy K.cmp (self.old ++ key ∷ []) }
        ensures ok { OnOk result (self.new ≡ self.old ++ key ∷ []) }
        ensures err { OnErr result (self.new ≡ self.old) }
    {
        self.insert(key)?;
        Ok(())
    }
}

impl<K: Ord + Dup + Drop> Dup for Set<K> {
    fn dup(&self, alloc: Global) -> Mem<Set<K>> {
        let mut copies = Vec::with_capacity(alloc, self.len())?;
        for key in self.iter() {
            let copy = key.dup(alloc)?;
            copies.push((copy, ()))?;
        }
        let keys = Entries::of_sorted(alloc, copies)?;
        Ok(Set { keys })
    }
}

impl<K: Ord> PartialEq for Set<K> {
    ghost eq = { pointwise K.eq };

    ghost laws = { lists_per K.PartialEq.laws };

    fn eq(&self, other: &Self) -> bool {
        same_entries(self.keys.iter(), other.keys.iter())
    }
}

impl<K: Ord> Eq for Set<K> {
    ghost laws = { lists_equiv K.Eq.laws };
}

impl<K: Ord> PartialOrd for Set<K> {
    ghost partial_cmp = { slice_partial_cmp K.partial_cmp };

    ghost laws = { lists_po K.PartialOrd.laws };

    fn partial_cmp(&self, other: &Self) -> Option<Ordering> {
        partially_compare_entries(self.keys.iter(), other.keys.iter())
    }
}

impl<K: Ord> Ord for Set<K> {
    ghost cmp = { slice_cmp K.cmp };

    ghost total = { lists_total K.total };

    ghost matches_partial_cmp = { lists_agrees K.matches_partial_cmp };

    ghost matches_eq = { lists_ties K.cmp K.matches_eq };

    fn cmp(&self, other: &Self) -> Ordering {
        compare_entries(self.keys.iter(), other.keys.iter())
    }
}
