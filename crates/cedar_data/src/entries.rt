// SPDX-License-Identifier: Apache-2.0
ghost use Rattle.std.specs.Prelude.{◌≡◌, ◌≢◌, [], ◌∷◌, ◌++◌, ◌<◌, true, length, option_map, IfOk, IfSome, IfNone, OnOk, OnErr};
ghost use Rattle.std.specs.Option.{option_copied};
ghost use Rattle.std.specs.BTreeMap.{insert_entry};
ghost use Rattle.std.specs.List.Sorted.{IsStrictlySortedBy};
ghost use Rattle.std.specs.Map.{keys_of};
ghost use Rattle.cedar_data.specs.EntriesHeld.{entries_held, IsOrderedHeld};
ghost use Rattle.cedar_data.specs.Maps.{get, IsSortedMap};
ghost use Rattle.cedar_data.specs.Runs.{all_runs, begins_by, first_after, AreRuns, IsRunOf};

use crate::entries_iter::{EntriesIntoIter, EntriesIter};
use crate::memory::{Mem, NoMemory};
use crate::near::{Near, after_among, get_among};
use crate::run::{MOST, Run};
use std::alloc::Global;
use std::marker::Model;
use std::mem;

/// Entries in the order of their keys, in runs, so that a key is found by two searches, and put by moving few others.
#[derive(Debug, Drop)]
pub(crate) struct Entries<K: Ord, V> {
    alloc: Global,
    count: usize,
    held: Held<K, V>,
}

/// One run, which may be empty, or several, none of which is.
#[derive(Debug, Drop)]
pub(crate) enum Held<K: Ord, V> {
    One(Run<K, V>),
    Several(Vec<Run<K, V>>),
}

impl<K: Ord, V> Model for Entries<K, V> {
    ghost use Rattle.std.specs.Prelude.{List, length};
    ghost use Rattle.std.specs.Coded.{coded_list, coded×};
    ghost use Rattle.cedar_data.specs.EntriesHeld.{entries_held, IsHeld};

    ghost Value = { List (K × V) };

    ghost coded = { coded_list (coded× K.code V.code) };

    ghost view = { λ m. entries_held m.held };

    ghost invariant = { λ m. IsHeld K.cmp m.count m.held };
}

/// The run that holds `key`, if any does, and into which it would be put.
pub(crate) fn run_of<K: Ord, V>(runs: &[Run<K, V>], key: &K) -> usize
    requires { AreRuns K.cmp runs.now }
    ensures within { result < length runs.now }
    ensures of { IsRunOf K.cmp runs.now key.now result }
{
    let behind = runs.partition_point(
        |run: &Run<K, V>| -> bool
            ensures { result ≡ begins_by K.cmp key.entry.now run.now }
        {
            match run.as_slice().first() {
                Some(entry) => entry.0.cmp(key).is_le(),
                None => false,
            }
        },
    );
    behind.saturating_sub(1)
}

/// Puts an entry into the run where it belongs, and splits that run where it is too long.
fn put_among<K: Ord + Drop, V: Drop>(runs: &mut Vec<Run<K, V>>, key: K, value: V) -> Mem<Option<V>>
    requires { AreRuns K.cmp runs.old.items }
    ensures ok { OnOk result (all_runs runs.new.items
        ≡ insert_entry K.cmp (all_runs runs.old.items) key value) }
    ensures old { IfOk result (λ old. old ≡ get K.cmp (all_runs runs.old.items) key) }
    ensures err { OnErr result (all_runs runs.new.items ≡ all_runs runs.old.items) }
    ensures runs { AreRuns K.cmp runs.new.items }
{
    runs.reserve(1)?;
    let at = run_of(runs.as_slice(), &key);
    let is_last = at + 1 == runs.len();
    let old = runs[at].insert(key, value)?;
    if let Some(more) = surplus(&mut runs[at], is_last) {
        runs.insert(at + 1, more)?;
    }
    Ok(old)
}

/// What is too much for one run: its second half, or of the last run its last entry alone, since entries that come in
/// order fill each run then. None where there is no memory for it.
fn surplus<K: Ord + Drop, V: Drop>(run: &mut Run<K, V>, is_last: bool) -> Option<Run<K, V>>
    ensures whole { IfNone result (run.new ≡ run.old) }
    ensures parts { IfSome result
        (λ more. (run.old ≡ run.new ++ more) × (run.new ≢ []) × (more ≢ [])) }
{
    let count = run.len();
    if count <= MOST {
        return None;
    }
    let kept = if is_last { count - 1 } else { count / 2 };
    run.split_off(kept).ok()
}

/// The run as two runs, where it is too long and there is memory for it. What is left is empty then.
fn parted<K: Ord + Drop, V: Drop>(alloc: Global, run: &mut Run<K, V>) -> Option<Vec<Run<K, V>>>
    ensures whole { IfNone result (run.new ≡ run.old) }
    ensures parts { IfSome result
        (λ runs. AreRuns K.cmp runs.items × (all_runs runs.items ≡ run.old)) }
{
    if run.len() <= MOST {
        return None;
    }
    let mut runs = Vec::with_capacity(alloc, 2).ok()?;
    let more = surplus(run, false)?;
    let first = mem::replace(run, Run::new(alloc));
    runs.push(first).ok()?;
    runs.push(more).ok()?;
    Some(runs)
}

/// Searches for where an entry belongs, and puts it there.
fn put_found<K: Ord + Drop, V: Drop>(
    alloc: Global,
    held: &mut Held<K, V>,
    key: K,
    value: V,
) -> Mem<Option<V>>
    requires { IsOrderedHeld K.cmp held.old }
    ensures ok { OnOk result (entries_held held.new
        ≡ insert_entry K.cmp (entries_held held.old) key value) }
    ensures old { IfOk result (λ old. old ≡ get K.cmp (entries_held held.old) key) }
    ensures err { OnErr result (entries_held held.new ≡ entries_held held.old) }
    ensures ordered { IsOrderedHeld K.cmp held.new }
{
    let (old, parts) = match held {
        Held::Several(runs) => return put_among(runs, key, value),
        Held::One(run) => {
            let old = run.insert(key, value)?;
            (old, parted(alloc, run))
        }
    };
    if let Some(runs) = parts {
        *held = Held::Several(runs);
    }
    Ok(old)
}

/// Puts an entry after all others: into the last run, or into one of its own where that is full.
fn push_among<K: Ord + Drop, V: Drop>(
    alloc: Global,
    runs: &mut Vec<Run<K, V>>,
    key: K,
    value: V,
) -> Mem<()>
    requires runs { AreRuns K.cmp runs.old.items }
    requires last { IsStrictlySortedBy K.cmp
        (keys_of (all_runs runs.old.items) ++ key ∷ []) }
    ensures ok { OnOk result (all_runs runs.new.items
        ≡ all_runs runs.old.items ++ (key, value) ∷ []) }
    ensures err { OnErr result (all_runs runs.new.items ≡ all_runs runs.old.items) }
    ensures runs { AreRuns K.cmp runs.new.items }
{
    let last = runs.len().saturating_sub(1);
    if runs[last].len() < MOST {
        return runs[last].push(key, value);
    }
    // entries that come in order fill each run
    let mut run = Run::with_room(alloc, MOST)?;
    run.push(key, value)?;
    runs.push(run)?;
    Ok(())
}

/// The run, and an entry after all others in a run of its own. What is left is empty then.
fn continued<K: Ord + Drop, V: Drop>(
    alloc: Global,
    run: &mut Run<K, V>,
    key: K,
    value: V,
) -> Mem<Vec<Run<K, V>>>
    requires some { run.old ≢ [] }
    requires last { IsStrictlySortedBy K.cmp (keys_of run.old ++ key ∷ []) }
    ensures ok { IfOk result
        (λ runs. AreRuns K.cmp runs.items × (all_runs runs.items ≡ run.old ++ (key, value) ∷ [])) }
    ensures err { OnErr result (run.new ≡ run.old) }
{
    let mut runs = Vec::with_capacity(alloc, 2)?;
    // entries that come in order fill each run
    let mut more = Run::with_room(alloc, MOST)?;
    more.push(key, value)?;
    let first = mem::replace(run, Run::new(alloc));
    runs.push(first)?;
    runs.push(more)?;
    Ok(runs)
}

/// Puts an entry after all others. Nothing is searched for.
fn append<K: Ord + Drop, V: Drop>(alloc: Global, held: &mut Held<K, V>, key: K, value: V) -> Mem<()>
    requires held { IsOrderedHeld K.cmp held.old }
    requires last { IsStrictlySortedBy K.cmp (keys_of (entries_held held.old) ++ key ∷ []) }
    ensures ok { OnOk result (entries_held held.new
        ≡ entries_held held.old ++ (key, value) ∷ []) }
    ensures err { OnErr result (entries_held held.new ≡ entries_held held.old) }
    ensures ordered { IsOrderedHeld K.cmp held.new }
{
    let runs = match held {
        Held::Several(runs) => return push_among(alloc, runs, key, value),
        Held::One(run) => {
            if run.len() < MOST {
                return run.push(key, value);
            }
            continued(alloc, run, key, value)?
        }
    };
    *held = Held::Several(runs);
    Ok(())
}

/// True only where the key is greater than all others, which the last of them tells.
fn ends_before<K: Ord, V>(held: &Held<K, V>, key: &K) -> bool
    requires { IsOrderedHeld K.cmp held.now }
    ensures { (result ≡ true)
        → IsStrictlySortedBy K.cmp (keys_of (entries_held held.now) ++ key.now ∷ []) }
{
    match held {
        Held::One(run) => run.ends_before(key),
        Held::Several(runs) => runs[runs.len().saturating_sub(1)].ends_before(key),
    }
}

/// Puts an entry where it belongs. Behind all others nothing is searched for.
fn put<K: Ord + Drop, V: Drop>(
    alloc: Global,
    held: &mut Held<K, V>,
    key: K,
    value: V,
) -> Mem<Option<V>>
    requires { IsOrderedHeld K.cmp held.old }
    ensures ok { OnOk result (entries_held held.new
        ≡ insert_entry K.cmp (entries_held held.old) key value) }
    ensures old { IfOk result (λ old. old ≡ get K.cmp (entries_held held.old) key) }
    ensures err { OnErr result (entries_held held.new ≡ entries_held held.old) }
    ensures ordered { IsOrderedHeld K.cmp held.new }
{
    if ends_before(held, &key) {
        append(alloc, held, key, value)?;
        return Ok(None);
    }
    put_found(alloc, held, key, value)
}

impl<K: Ord, V> Entries<K, V> {
    /// No entries. It takes no memory.
    #[tactic(auto, unfolding(crate::specs::EntriesHeld::IsHeld))]
    pub(crate) fn new(alloc: Global) -> Entries<K, V>
        ensures { result ≡ [] }
    {
        Entries {
            alloc,
            count: 0,
            held: Held::One(Run::new(alloc)),
        }
    }

    /// No entries, with room for `count` of them in one run, or for as many as it holds. It fails only for want of
    /// memory.
    #[tactic(auto, unfolding(crate::specs::EntriesHeld::IsHeld))]
    pub(crate) fn with_room(alloc: Global, count: usize) -> Mem<Entries<K, V>>
        ensures { IfOk result (λ m. m ≡ []) }
    {
        let run = Run::with_room(alloc, count)?;
        Ok(Entries {
            alloc,
            count: 0,
            held: Held::One(run),
        })
    }

    /// How many entries there are.
    #[tactic(auto, unfolding(crate::specs::EntriesHeld::IsHeld))]
    pub(crate) fn len(&self) -> usize
        ensures count { result ≡ length self.now }
        ensures ordered { IsSortedMap K.cmp self.now }
    {
        self.count
    }

    /// The value at the key that is equal to `key`.
    #[tactic(auto, unfolding(crate::specs::EntriesHeld::IsHeld))]
    pub(crate) fn get(&self, key: &K) -> Option<&V>
        ensures { option_copied result ≡ get K.cmp self.now key.now }
    {
        match &self.held {
            Held::One(run) => run.get(key),
            Held::Several(runs) => runs[run_of(runs.as_slice(), key)].get(key),
        }
    }

    /// The value at the key that is equal to `key`. The search begins near the place, which is then that of the next
    /// entry.
    #[tactic(auto, unfolding(crate::specs::EntriesHeld::IsHeld))]
    pub(crate) fn get_near(&self, near: &mut Near, key: &K) -> Option<&V>
        ensures { option_copied result ≡ get K.cmp self.now key.now }
    {
        match &self.held {
            Held::One(run) => run.get_near(&mut near.at, key),
            Held::Several(runs) => get_among(runs.as_slice(), near, key),
        }
    }

    /// The first entry whose key is greater than `key`. The search begins where the last one ended, which `near` tells.
    #[tactic(auto, unfolding(crate::specs::EntriesHeld::IsHeld))]
    pub(crate) fn after_near(&self, near: &mut Near, key: &K) -> Option<(&K, &V)>
        ensures { option_map (λ e. (e.0.now, e.1.now)) result ≡ first_after K.cmp key.now self.now }
    {
        match &self.held {
            Held::One(run) => run.after_near(&mut near.at, key),
            Held::Several(runs) => after_among(runs.as_slice(), near, key),
        }
    }

    /// The entries, in order.
    #[tactic(auto, unfolding(crate::specs::EntriesHeld::IsHeld))]
    pub(crate) fn iter(&self) -> EntriesIter<'_, K, V>
        ensures rest { result ≡ self.now }
        ensures ordered { IsSortedMap K.cmp self.now }
    {
        match &self.held {
            Held::One(run) => EntriesIter::of_run(run, self.count),
            Held::Several(runs) => EntriesIter::of_runs(runs.as_slice(), self.count),
        }
    }
}

impl<K: Ord + Drop, V: Drop> Entries<K, V> {
    /// The entries by value, in order.
    #[tactic(auto, unfolding(crate::specs::EntriesHeld::IsHeld))]
    pub(crate) fn into_entries(self) -> EntriesIntoIter<K, V>
        ensures rest { result ≡ self }
        ensures ordered { IsSortedMap K.cmp self }
    {
        let Entries {
            alloc,
            count: _,
            held,
        } = self;
        match held {
            Held::One(run) => EntriesIntoIter::of_run(alloc, run),
            Held::Several(runs) => EntriesIntoIter::of_runs(alloc, runs),
        }
    }

    /// Entries that are in order. It fails only for want of memory.
    #[tactic(auto, unfolding(crate::specs::EntriesHeld::IsHeld))]
    pub(crate) fn of_sorted(alloc: Global, entries: Vec<(K, V)>) -> Mem<Entries<K, V>>
        requires { IsSortedMap K.cmp entries.items }
        ensures { IfOk result (λ m. m ≡ entries.items) }
    {
        let count = entries.len();
        if count <= MOST {
            return Ok(Entries {
                alloc,
                count,
                held: Held::One(Run::of_sorted(entries)),
            });
        }
        let mut all = Entries::with_room(alloc, count)?;
        for (key, value) in entries {
            all.push(key, value)?;
        }
        Ok(all)
    }

    /// Puts `value` at `key`, and answers the value that was there. An equal key that is there stays. It fails only
    /// for want of memory, and then changes nothing.
    #[tactic(auto, unfolding(crate::specs::EntriesHeld::IsHeld))]
    pub(crate) fn insert(&mut self, key: K, value: V) -> Mem<Option<V>>
        ensures ok { OnOk result (self.new ≡ insert_entry K.cmp self.old key value) }
        ensures old { IfOk result (λ old. old ≡ get K.cmp self.old key) }
        ensures err { OnErr result (self.new ≡ self.old) }
        ensures ordered { IsSortedMap K.cmp self.new }
    {
        // more entries than can be counted stand in no memory
        if self.count == usize::MAX {
            return Err(NoMemory);
        }
        let old = put(self.alloc, &mut self.held, key, value)?;
        if old.is_none() {
            self.count += 1;
        }
        Ok(old)
    }

    /// Puts an entry after all others. It fails only for want of memory, and then changes nothing.
    #[tactic(auto, unfolding(crate::specs::EntriesHeld::IsHeld))]
    pub(crate) fn push(&mut self, key: K, value: V) -> Mem<()>
        requires { IsStrictlySortedBy K.cmp (keys_of self.old ++ key ∷ []) }
        ensures ok { OnOk result (self.new ≡ self.old ++ (key, value) ∷ []) }
        ensures err { OnErr result (self.new ≡ self.old) }
    {
        // more entries than can be counted stand in no memory
        if self.count == usize::MAX {
            return Err(NoMemory);
        }
        append(self.alloc, &mut self.held, key, value)?;
        self.count += 1;
        Ok(())
    }
}
