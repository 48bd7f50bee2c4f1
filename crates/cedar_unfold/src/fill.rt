// SPDX-License-Identifier: Apache-2.0
ghost use Rattle.std.specs.Prelude.{◌≡◌, ◌+◌, ◌≤◌, IfOk, ℕ, Bool, List};
ghost use Rattle.std.specs.List.{sum_by};
ghost use Rattle.std.specs.List.Sorted.{IsStrictlySortedBy};
ghost use Rattle.std.specs.Map.{keys_of};
ghost use Rattle.cedar_names.specs.Names.{internal_cmp};
ghost use Rattle.cedar_sorting.specs.Orders.{IsOrder};
ghost use Rattle.cedar_unfolding.specs.Meanings.{full_meanings};
ghost use Rattle.cedar_unfold.specs.Full.{IsFull, AreFaultless, nodes_at};
ghost use Rattle.cedar_unfold.specs.Rows.{definition_rows};
ghost use Rattle.cedar_unfold.specs.Tables.{by_name, tabled};

use crate::nested::Nested;
use crate::node::TypeNode;
use crate::steps::Steps;
use crate::unfold_type::unfolded;
use cedar_data::{Dup, Map, Mem};
use cedar_names::{Extensions, InternalName};
use std::alloc::Global;
use std::sync::ledger::Ledger;

/// What each common type unfolds to, nothing where that nests too deep, found in an order in which each stands behind
/// those that it names. No definition has a fault.
pub(crate) fn fill<T: TypeNode, L: Ledger>(
    alloc: Global,
    defs: &Map<InternalName, T>,
    keys: &[InternalName],
    order: &[usize],
    extensions: &Extensions,
    steps: &mut Steps<L>,
) -> Mem<Map<InternalName, Option<Nested>>>
    requires keys { keys.now ≡ keys_of defs.now }
    requires sorted { IsStrictlySortedBy internal_cmp keys.now }
    requires order { IsOrder (definition_rows (by_name T.written defs.now)) order.now }
    ensures full { IfOk result (λ table. (is_extension : List ℕ → Bool)
        → AreFaultless (full_meanings (by_name T.written defs.now) is_extension)
        → IsFull (full_meanings (by_name T.written defs.now) is_extension) (tabled table)) }
    ensures counts { steps.new ≤ steps.old + sum_by
        (nodes_at (by_name T.written defs.now)) order.now }
{
    let mut table = Map::with_room(alloc, order.len())?;
    for at in order {
        let key = &keys[*at];
        let Some(ty) = defs.get(key) else {
            unreachable!()
        };
        let copy = key.dup(alloc)?;
        let mut no_fault = None;
        let found = unfolded(alloc, ty, extensions, &table, &mut no_fault, steps)?;
        table.put(copy, found)?;
    }
    Ok(table)
}
