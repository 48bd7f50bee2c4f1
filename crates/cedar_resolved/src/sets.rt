// SPDX-License-Identifier: Apache-2.0
ghost use Rattle.std.specs.Prelude.{◌≡◌, IfOk};
ghost use Rattle.cedar_data.specs.Sets.{set_of};

use cedar_data::{Mem, Set};
use std::alloc::Global;

/// The set of the items; of equal ones the first stays.
pub(crate) fn set_of<K: Ord + Drop>(alloc: Global, items: Vec<K>) -> Mem<Set<K>>
    ensures { IfOk result (λ set. set ≡ set_of K.cmp items.items) }
{
    let mut set = Set::new(alloc);
    for item in items {
        set.insert(item)?;
    }
    Ok(set)
}

/// The sets of the items of three lists.
pub(crate) fn three_sets<A: Ord + Drop, B: Ord + Drop, C: Ord + Drop>(
    alloc: Global,
    a: Vec<A>,
    b: Vec<B>,
    c: Vec<C>,
) -> Mem<(Set<A>, Set<B>, Set<C>)>
    ensures first { IfOk result (λ sets. sets.0 ≡ set_of A.cmp a.items) }
    ensures second { IfOk result (λ sets. sets.1 ≡ set_of B.cmp b.items) }
    ensures third { IfOk result (λ sets. sets.2 ≡ set_of C.cmp c.items) }
{
    let first = set_of(alloc, a)?;
    let second = set_of(alloc, b)?;
    let third = set_of(alloc, c)?;
    Ok((first, second, third))
}
