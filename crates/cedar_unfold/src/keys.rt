// SPDX-License-Identifier: Apache-2.0
ghost use Rattle.std.specs.Prelude.{◌≡◌, IfOk};
ghost use Rattle.std.specs.List.Sorted.{IsStrictlySortedBy};
ghost use Rattle.std.specs.Map.{keys_of};
ghost use Rattle.cedar_names.specs.Components.{components};
ghost use Rattle.cedar_names.specs.Names.{internal_cmp};
ghost use Rattle.cedar_unfold.specs.Tables.{names_of, place_of};

use cedar_data::{Dup, Map, Mem};
use cedar_names::InternalName;
use std::alloc::Global;

/// The names of the common types, in order.
pub(crate) fn copied_keys<T>(alloc: Global, defs: &Map<InternalName, T>) -> Mem<Vec<InternalName>>
    ensures keys { IfOk result (λ keys. keys.items ≡ keys_of defs.now) }
    ensures sorted { IsStrictlySortedBy internal_cmp (keys_of defs.now) }
{
    let mut keys = Vec::with_capacity(alloc, defs.len())?;
    for (key, _) in defs.iter() {
        keys.push(key.dup(alloc)?)?;
    }
    Ok(keys)
}

/// Where the name stands among names in order.
pub(crate) fn place_of(keys: &[InternalName], name: &InternalName) -> Option<usize>
    requires { IsStrictlySortedBy internal_cmp keys.now }
    ensures { result ≡ place_of (names_of keys.now) (components name.now) }
{
    match keys.binary_search(name) {
        Ok(at) => Some(at),
        Err(_) => None,
    }
}
