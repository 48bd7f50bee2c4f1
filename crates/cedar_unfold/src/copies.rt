// SPDX-License-Identifier: Apache-2.0
ghost use Rattle.std.specs.Prelude.{◌≡◌, ◌++◌, [], ◌∷◌, OnOk};
ghost use Rattle.std.specs.List.Sorted.{IsStrictlySortedBy};
ghost use Rattle.std.specs.Map.{keys_of};

use cedar_data::{Dup, Map, Mem};
use std::alloc::Global;

/// Puts the value behind all others, at a copy of the key.
pub(crate) fn put_copy<K: Ord + Dup + Drop, V: Drop>(
    alloc: Global,
    made: &mut Map<K, V>,
    key: &K,
    value: V,
) -> Mem<()>
    requires { IsStrictlySortedBy K.cmp (keys_of made.old ++ key.now ∷ []) }
    ensures { OnOk result (made.new ≡ made.old ++ (key.now, value) ∷ []) }
{
    let copy = key.dup(alloc)?;
    made.push_last(copy, value)
}
