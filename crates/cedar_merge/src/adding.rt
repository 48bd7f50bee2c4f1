// SPDX-License-Identifier: Apache-2.0
ghost use Rattle.std.specs.Prelude.{◌≡◌, ℕ, List, Some, IfOk, OnOk, option_map};
ghost use Rattle.std.specs.Option.{option_or};
ghost use Rattle.cedar_merge.specs.Joining.{IsLeastOf, first_of};
ghost use Rattle.cedar_merge.specs.Lookups.{at_word};
ghost use Rattle.cedar_merge.specs.Pairs.{opposed};
ghost use Rattle.cedar_names.specs.Order.{word_cmp};

use crate::keys::{Stands, Word};
use cedar_data::{Dup, Map, Mem};
use std::alloc::Global;

/// Moves the entries of a map into another, where they replace others. Answers the least key at which both maps had
/// values that stand against each other.
#[tactic(auto, using(crate::proofs::Moves::moves))]
pub(crate) fn add_entries<K: Word + Dup + Drop, V: Stands + Drop>(
    alloc: Global,
    all: &mut Map<K, V>,
    more: Map<K, V>,
) -> Mem<Option<K>>
    ensures values { OnOk result ((name : List ℕ) → at_word K.word all.new name
        ≡ option_or (at_word K.word more name) (at_word K.word all.old name)) }
    ensures least { IfOk result (λ key. IsLeastOf word_cmp
        (λ name. opposed V.against (at_word K.word all.old name) (at_word K.word more name))
        (option_map K.word key)) }
{
    let mut least = None;
    for (key, value) in more.into_entries() {
        let is_opposed = is_opposed(all, &key, &value);
        least = first(alloc, least, is_opposed, &key)?;
        all.put(key, value)?;
    }
    Ok(least)
}

/// The key that is kept, or else this one, where it is opposed.
fn first<K: Dup + Drop>(
    alloc: Global,
    least: Option<K>,
    is_opposed: bool,
    key: &K,
) -> Mem<Option<K>>
    ensures { IfOk result (λ first. first ≡ first_of least is_opposed key.now) }
{
    if least.is_some() || !is_opposed {
        return Ok(least);
    }
    let key = key.dup(alloc)?;
    Ok(Some(key))
}

/// Whether a map has a value at the key that stands against this one.
fn is_opposed<K: Word, V: Stands>(all: &Map<K, V>, key: &K, value: &V) -> bool
    ensures { result
        ≡ opposed V.against (at_word K.word all.now (K.word key.now)) (Some value.now) }
{
    match all.get(key) {
        None => false,
        Some(there) => there.is_against(value),
    }
}
