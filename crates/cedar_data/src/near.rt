// SPDX-License-Identifier: Apache-2.0
//! Searches that begin where the last one ended.
ghost use Rattle.std.specs.Prelude.{◌≡◌, ◌<◌, ◌≤◌, ◌^◌, [], slice_get, get_or, length, option_map, IfOk, IfErr, IfSome};
ghost use Rattle.std.specs.Option.{option_copied};
ghost use Rattle.cedar_data.specs.Maps.{get, IsSortedMap};
ghost use Rattle.cedar_data.specs.Places.{StandsAt, BelongsAt, HasValue, compared};
ghost use Rattle.cedar_data.specs.Runs.{all_runs, begins_by, first_after, AreRuns, IsRunOf};
ghost use Rattle.std.specs.declared.cmp.Ordering.TheVariants.{Greater, Less};

use crate::entries::run_of;
use crate::run::Run;
use std::cmp::Ordering;

/// Where the last search in a map ended, and where the next one begins. What is found doesn't depend on it.
#[derive(Clone, Copy, Debug, PartialEq, Eq)]
pub struct Near {
    pub(crate) run: usize,
    pub(crate) at: usize,
}

impl Near {
    /// The place of the first entry.
    pub fn first() -> Near {
        Near { run: 0, at: 0 }
    }
}

impl<K: Ord, V> Run<K, V> {
    /// How the key of the entry at the index compares with this one: behind all entries as greater.
    fn compared(&self, at: usize, key: &K) -> Ordering
        ensures { result ≡ compared K.cmp key.now (slice_get self.now at) }
    {
        match self.as_slice().get(at) {
            Some(entry) => entry.0.cmp(key),
            None => Ordering::Greater,
        }
    }

    /// Where the key stands, or else where it would be put. The entry at the index has a greater key, and the one
    /// before it is looked at first.
    fn place_before(&self, near: usize, key: &K) -> Result<usize, usize>
        requires ordered { IsSortedMap K.cmp self.now }
        requires within { near ≤ length self.now }
        requires greater { compared K.cmp key.now (slice_get self.now near) ≡ Greater }
        ensures found { IfOk result (λ at. StandsAt K.cmp self.now key.now at) }
        ensures missing { IfErr result (λ at. BelongsAt K.cmp self.now key.now at) }
    {
        if near == 0 {
            return Err(0);
        }
        match self.compared(near - 1, key) {
            Ordering::Less => Err(near),
            Ordering::Equal => Ok(near - 1),
            Ordering::Greater => self.place(key),
        }
    }

    /// Where the key stands, or else where it would be put. The entry at the index has a less key, and the one behind it
    /// is looked at first.
    fn place_behind(&self, near: usize, key: &K) -> Result<usize, usize>
        requires ordered { IsSortedMap K.cmp self.now }
        requires counted { length self.now < 2 ^ 64 }
        requires within { near < length self.now }
        requires less { compared K.cmp key.now (slice_get self.now near) ≡ Less }
        ensures found { IfOk result (λ at. StandsAt K.cmp self.now key.now at) }
        ensures missing { IfErr result (λ at. BelongsAt K.cmp self.now key.now at) }
    {
        let behind = near + 1;
        match self.compared(behind, key) {
            Ordering::Less => self.place(key),
            Ordering::Equal => Ok(behind),
            Ordering::Greater => Err(behind),
        }
    }

    /// Where the key stands, or else where it would be put. The entries around the index are looked at first.
    fn place_near(&self, near: usize, key: &K) -> Result<usize, usize>
        ensures found { IfOk result (λ at. StandsAt K.cmp self.now key.now at) }
        ensures missing { IfErr result (λ at. BelongsAt K.cmp self.now key.now at) }
        ensures counted { length self.now < 2 ^ 64 }
    {
        let near = near.min(self.len());
        match self.compared(near, key) {
            Ordering::Less => self.place_behind(near, key),
            Ordering::Equal => Ok(near),
            Ordering::Greater => self.place_before(near, key),
        }
    }

    /// The value at the key that is equal to `key`. The search begins near the index, which is then that behind it.
    pub(crate) fn get_near(&self, near: &mut usize, key: &K) -> Option<&V>
        ensures { option_copied result ≡ get K.cmp self.now key.now }
    {
        match self.place_near(*near, key) {
            Ok(at) => {
                *near = at + 1;
                Some(&self.as_slice()[at].1)
            }
            Err(at) => {
                *near = at;
                None
            }
        }
    }

    /// Where the first entry stands whose key is greater than `key`: behind all, where there is none. The entries around
    /// the index are looked at first.
    fn place_after(&self, near: usize, key: &K) -> usize
        ensures { first_after K.cmp key.now self.now ≡ slice_get self.now result }
    {
        match self.place_near(near, key) {
            Ok(at) => at + 1,
            Err(at) => at,
        }
    }

    /// The first entry whose key is greater than `key`. The search begins near the index, which is then its own.
    pub(crate) fn after_near(&self, near: &mut usize, key: &K) -> Option<(&K, &V)>
        ensures { option_map (λ e. (e.0.now, e.1.now)) result ≡ first_after K.cmp key.now self.now }
    {
        *near = self.place_after(*near, key);
        self.entry_at(*near)
    }

    /// The value at the index, if the key there is equal to `key`. The index is that of the next entry then.
    fn next_near(&self, near: &mut usize, key: &K) -> Option<&V>
        ensures { IfSome result (λ value. HasValue K.cmp self.now key.now value.now) }
    {
        if self.compared(*near, key).is_ne() {
            return None;
        }
        let value = &self.as_slice()[*near].1;
        *near += 1;
        Some(value)
    }
}

/// Whether there is a run at the index, and its first key is at most this one.
fn begins<K: Ord, V>(runs: &[Run<K, V>], at: usize, key: &K) -> bool
    ensures { result ≡ begins_by K.cmp key.now (get_or runs.now at []) }
{
    let Some(run) = runs.get(at) else {
        return false;
    };
    match run.as_slice().first() {
        Some(entry) => entry.0.cmp(key).is_le(),
        None => false,
    }
}

/// The run that holds `key`, if any does, and into which it would be put. That at the index is looked at first.
fn run_near<K: Ord, V>(runs: &[Run<K, V>], near: usize, key: &K) -> usize
    requires { AreRuns K.cmp runs.now }
    ensures within { result < length runs.now }
    ensures of { IsRunOf K.cmp runs.now key.now result }
{
    if near < runs.len() && begins(runs, near, key) && !begins(runs, near + 1, key) {
        return near;
    }
    run_of(runs, key)
}

/// The value at the key that is equal to `key`. The search begins near the place, which is then that of the next entry.
pub(crate) fn get_among<'a, K: Ord, V>(
    runs: &'a [Run<K, V>],
    near: &mut Near,
    key: &K,
) -> Option<&'a V>
    requires { AreRuns K.cmp runs.now }
    ensures { option_copied result ≡ get K.cmp (all_runs runs.now) key.now }
{
    if let Some(run) = runs.get(near.run) {
        if let Some(value) = run.next_near(&mut near.at, key) {
            return Some(value);
        }
    }
    let run = run_near(runs, near.run, key);
    if run != near.run {
        *near = Near { run, at: 0 };
    }
    runs[run].get_near(&mut near.at, key)
}

/// The first entry whose key is greater than `key`. The search begins near the place, which is then that of the entry.
pub(crate) fn after_among<'a, K: Ord, V>(
    runs: &'a [Run<K, V>],
    near: &mut Near,
    key: &K,
) -> Option<(&'a K, &'a V)>
    requires { AreRuns K.cmp runs.now }
    ensures { option_map (λ e. (e.0.now, e.1.now)) result
        ≡ first_after K.cmp key.now (all_runs runs.now) }
{
    let run = run_near(runs, near.run, key);
    if run != near.run {
        *near = Near { run, at: 0 };
    }
    if let Some(entry) = runs[run].after_near(&mut near.at, key) {
        return Some(entry);
    }
    let next = runs.get(run + 1)?;
    *near = Near {
        run: run + 1,
        at: 0,
    };
    next.entry_at(0)
}
