// SPDX-License-Identifier: Apache-2.0
ghost use Rattle.std.specs.Prelude.{◌≡◌, length};
ghost use Rattle.std.specs.Iterator.{at_most};
ghost use Rattle.std.specs.Map.{keys_of, values_of};
ghost use Rattle.std_collections.specs.Map.Iter.{TakesFirst, deref, deref_pair};

use crate::entries_iter::{EntriesIntoIter, EntriesIter};
use std::iter::{ExactSizeIterator, Iterator};
use std::marker::Model;

/// The keys of a map, in their order.
#[derive(Debug, Drop)]
pub struct MapKeys<'a, K: Ord, V> {
    entries: EntriesIter<'a, K, V>,
}

impl<'a, K: Ord, V> Model for MapKeys<'a, K, V> {
    ghost use Rattle.std.specs.Prelude.{List};
    ghost use Rattle.std.specs.Map.{keys_of};

    ghost Value = { List K };

    ghost view = { λ i. keys_of i.entries };
}

impl<'a, K: Ord, V> MapKeys<'a, K, V> {
    pub(crate) fn of(entries: EntriesIter<'a, K, V>) -> MapKeys<'a, K, V>
        ensures { result ≡ keys_of entries.entry }
    {
        MapKeys { entries }
    }
}

impl<'a, K: Ord, V> Iterator for MapKeys<'a, K, V> {
    type Item = &'a K;

    ghost next_gives = { TakesFirst deref };

    ghost remaining = { λ s. at_most (length s) };

    fn next(&mut self) -> Option<&'a K> {
        match self.entries.next() {
            Some((key, _)) => Some(key),
            None => None,
        }
    }

    fn size_hint(&self) -> (usize, Option<usize>) {
        let len = self.len();
        (len, Some(len))
    }
}

impl<'a, K: Ord, V> ExactSizeIterator for MapKeys<'a, K, V> {
    fn len(&self) -> usize {
        self.entries.len()
    }
}

/// The entries of a map, in the order of their keys.
#[derive(Debug, Drop)]
pub struct MapIter<'a, K: Ord, V> {
    entries: EntriesIter<'a, K, V>,
}

impl<'a, K: Ord, V> Model for MapIter<'a, K, V> {
    ghost use Rattle.std.specs.Prelude.{List};

    ghost Value = { List (K × V) };

    ghost view = { λ i. i.entries };
}

impl<'a, K: Ord, V> MapIter<'a, K, V> {
    pub(crate) fn of(entries: EntriesIter<'a, K, V>) -> MapIter<'a, K, V>
        ensures { result ≡ entries.entry }
    {
        MapIter { entries }
    }
}

impl<'a, K: Ord, V> Iterator for MapIter<'a, K, V> {
    type Item = (&'a K, &'a V);

    ghost next_gives = { TakesFirst deref_pair };

    ghost remaining = { λ s. at_most (length s) };

    fn next(&mut self) -> Option<(&'a K, &'a V)> {
        self.entries.next()
    }
}

/// The values of a map, in the order of their keys.
#[derive(Debug, Drop)]
pub struct MapValues<'a, K: Ord, V> {
    entries: EntriesIter<'a, K, V>,
}

impl<'a, K: Ord, V> Model for MapValues<'a, K, V> {
    ghost use Rattle.std.specs.Prelude.{List};
    ghost use Rattle.std.specs.Map.{values_of};

    ghost Value = { List V };

    ghost view = { λ i. values_of i.entries };
}

impl<'a, K: Ord, V> MapValues<'a, K, V> {
    pub(crate) fn of(entries: EntriesIter<'a, K, V>) -> MapValues<'a, K, V>
        ensures { result ≡ values_of entries.entry }
    {
        MapValues { entries }
    }
}

impl<'a, K: Ord, V> Iterator for MapValues<'a, K, V> {
    type Item = &'a V;

    ghost next_gives = { TakesFirst deref };

    ghost remaining = { λ s. at_most (length s) };

    fn next(&mut self) -> Option<&'a V> {
        match self.entries.next() {
            Some((_, value)) => Some(value),
            None => None,
        }
    }

    fn size_hint(&self) -> (usize, Option<usize>) {
        let len = self.len();
        (len, Some(len))
    }
}

impl<'a, K: Ord, V> ExactSizeIterator for MapValues<'a, K, V> {
    fn len(&self) -> usize {
        self.entries.len()
    }
}

/// The entries of a map by value, in the order of their keys.
#[derive(Drop)]
pub struct MapIntoIter<K: Ord, V> {
    entries: EntriesIntoIter<K, V>,
}

impl<K: Ord, V> Model for MapIntoIter<K, V> {
    ghost use Rattle.std.specs.Prelude.{List};

    ghost Value = { List (K × V) };

    ghost view = { λ i. i.entries };
}

impl<K: Ord, V> MapIntoIter<K, V> {
    pub(crate) fn of(entries: EntriesIntoIter<K, V>) -> MapIntoIter<K, V>
        ensures { result ≡ entries }
    {
        MapIntoIter { entries }
    }
}

impl<K: Ord + Drop, V: Drop> Iterator for MapIntoIter<K, V> {
    type Item = (K, V);

    ghost next_gives = { TakesFirst (λ p. p) };

    ghost remaining = { λ s. at_most (length s) };

    fn next(&mut self) -> Option<(K, V)> {
        self.entries.next()
    }
}
