// SPDX-License-Identifier: Apache-2.0
ghost use Rattle.std.specs.Prelude.{◌≡◌, length};
ghost use Rattle.std.specs.Iterator.{at_most};
ghost use Rattle.std_collections.specs.Map.Iter.{TakesFirst, deref_pair};
ghost use Rattle.cedar_data.specs.Runs.{all_runs};

use crate::run::Run;
use std::alloc::Global;
use std::iter::{ExactSizeIterator, Iterator};
use std::marker::Model;
use std::{slice, vec};

/// Entries in the order of their keys, lent.
#[derive(Debug, Drop)]
pub struct EntriesIter<'a, K: Ord, V> {
    run: slice::Iter<'a, (K, V)>,
    runs: slice::Iter<'a, Run<K, V>>,
    left: usize,
}

/// Entries in the order of their keys, by value.
#[derive(Drop)]
pub struct EntriesIntoIter<K: Ord, V> {
    run: vec::IntoIter<(K, V)>,
    runs: vec::IntoIter<Run<K, V>>,
}

impl<'a, K: Ord, V> Model for EntriesIter<'a, K, V> {
    ghost use Rattle.std.specs.Prelude.{◌≡◌, List, length, ◌++◌};
    ghost use Rattle.std.specs.Slice.Iter.{iter_rest};
    ghost use Rattle.cedar_data.specs.Runs.{all_runs};

    ghost Value = { List (K × V) };

    ghost view = { λ i. iter_rest i.run ++ all_runs (iter_rest i.runs) };

    ghost invariant = { λ i. i.left ≡ length (iter_rest i.run ++ all_runs (iter_rest i.runs)) };
}

impl<'a, K: Ord, V> EntriesIter<'a, K, V> {
    /// The entries of one run, of which there are `left`.
    pub(crate) fn of_run(run: &'a Run<K, V>, left: usize) -> EntriesIter<'a, K, V>
        requires { left ≡ length run.now }
        ensures { result ≡ run.now }
    {
        EntriesIter {
            run: run.as_slice().iter(),
            runs: [].iter(),
            left,
        }
    }

    /// The entries of several runs, of which there are `left` in all.
    pub(crate) fn of_runs(runs: &'a [Run<K, V>], left: usize) -> EntriesIter<'a, K, V>
        requires { left ≡ length (all_runs runs.now) }
        ensures { result ≡ all_runs runs.now }
    {
        EntriesIter {
            run: [].iter(),
            runs: runs.iter(),
            left,
        }
    }
}

impl<'a, K: Ord, V> Iterator for EntriesIter<'a, K, V> {
    type Item = (&'a K, &'a V);

    ghost next_gives = { TakesFirst deref_pair };

    ghost remaining = { λ s. at_most (length s) };

    fn next(&mut self) -> Option<(&'a K, &'a V)> {
        loop {
            if let Some(entry) = self.run.next() {
                self.left -= 1;
                return Some((&entry.0, &entry.1));
            }
            let run = self.runs.next()?;
            self.run = run.as_slice().iter();
        }
    }

    fn size_hint(&self) -> (usize, Option<usize>) {
        let len = self.len();
        (len, Some(len))
    }
}

impl<'a, K: Ord, V> ExactSizeIterator for EntriesIter<'a, K, V> {
    fn len(&self) -> usize {
        self.left
    }
}

impl<K: Ord, V> Model for EntriesIntoIter<K, V> {
    ghost use Rattle.std.specs.Prelude.{List, ◌++◌};
    ghost use Rattle.std.specs.Vec.Iter.{into_iter_items};
    ghost use Rattle.cedar_data.specs.Runs.{all_runs};

    ghost Value = { List (K × V) };

    ghost view = { λ i. into_iter_items i.run ++ all_runs (into_iter_items i.runs) };
}

impl<K: Ord + Drop, V: Drop> EntriesIntoIter<K, V> {
    /// The entries of one run.
    pub(crate) fn of_run(alloc: Global, run: Run<K, V>) -> EntriesIntoIter<K, V>
        ensures { result ≡ run }
    {
        EntriesIntoIter {
            run: run.into_vec().into_iter(),
            runs: Vec::new(alloc).into_iter(),
        }
    }

    /// The entries of several runs.
    pub(crate) fn of_runs(alloc: Global, runs: Vec<Run<K, V>>) -> EntriesIntoIter<K, V>
        ensures { result ≡ all_runs runs.items }
    {
        EntriesIntoIter {
            run: Vec::new(alloc).into_iter(),
            runs: runs.into_iter(),
        }
    }
}

impl<K: Ord + Drop, V: Drop> Iterator for EntriesIntoIter<K, V> {
    type Item = (K, V);

    ghost next_gives = { TakesFirst (λ p. p) };

    ghost remaining = { λ s. at_most (length s) };

    fn next(&mut self) -> Option<(K, V)> {
        loop {
            if let Some(entry) = self.run.next() {
                return Some(entry);
            }
            let run = self.runs.next()?;
            self.run = run.into_vec().into_iter();
        }
    }
}
