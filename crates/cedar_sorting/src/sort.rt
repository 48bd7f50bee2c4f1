// SPDX-License-Identifier: Apache-2.0
ghost use Rattle.std.specs.Prelude.{IfOk};
ghost use Rattle.cedar_closure.specs.Marks.{LeadWithin};
ghost use Rattle.cedar_sorting.specs.Orders.{Sorts};

use crate::depth_first::sorted;
use crate::least_cycle::least_on_cycle;
use cedar_closure::{Items, Mem};
use std::alloc::Global;

/// What rows of positions are.
#[derive(Drop)]
pub enum Sorting {
    /// No position reaches itself, and this is an order in which each stands behind those to which it leads.
    Order(Vec<usize>),
    /// The least position that reaches itself.
    Cycle(usize),
}

/// Puts positions behind those to which they lead. The row at `i` has the positions to which `i` leads, some perhaps
/// more than once. Time and memory are made to be linear in the lengths of the rows, which is not measured.
pub fn sort_positions(alloc: Global, rows: &[Items<usize>]) -> Mem<Sorting>
    requires { LeadWithin rows.now }
    ensures { IfOk result (Sorts rows.now) }
{
    match sorted(alloc, rows)? {
        Some(order) => Ok(Sorting::Order(order)),
        None => Ok(Sorting::Cycle(least_on_cycle(alloc, rows)?)),
    }
}
