// SPDX-License-Identifier: Apache-2.0
ghost use Rattle.std.specs.Prelude.{◌≡◌, ℕ, ◌<◌, length, None, IfOk, IsTrue, Contains, IfSome, false};
ghost use Rattle.cedar_closure.specs.Chains.{Reaches};
ghost use Rattle.cedar_closure.specs.Marks.{Leads, LeadWithin};
ghost use Rattle.cedar_sorting.specs.Orders.{IsOrder};
ghost use Rattle.cedar_sorting.specs.Walked.{Sorted, SortedMore, mark_at};
ghost use Rattle.cedar_sorting.specs.declared.mark.Mark.TheVariants.{New, Open};

use crate::mark::Mark;
use cedar_closure::{Items, Mem};
use std::alloc::Global;

/// A position on the way, and how much of its row was passed.
#[derive(Drop)]
struct Step {
    at: usize,
    next: usize,
}

/// An order of the positions in which each stands behind those of its row; nothing where some position reaches itself.
pub(crate) fn sorted(alloc: Global, rows: &[Items<usize>]) -> Mem<Option<Vec<usize>>>
    requires { LeadWithin rows.now }
    ensures order { IfOk result (λ found. IfSome found (λ order. IsOrder rows.now order.items)) }
    ensures cycle { IfOk result (λ found. found ≡ None → (i : ℕ) × Reaches (Leads rows.now) i i) }
{
    let mut all_new = vec![in alloc; Mark::New; rows.len()]?;
    let marks = all_new.as_mut_slice();
    let mut order = Vec::new(alloc);
    for start in 0..rows.len() {
        if let Mark::New = marks[start] {
            if !walked(alloc, rows, start, marks, &mut order)? {
                return Ok(None);
            }
        }
    }
    Ok(Some(order))
}

/// Puts the position and all that it reaches behind the order, but for what is there. It stops where some position
/// reaches itself, and answers whether none does.
fn walked(
    alloc: Global,
    rows: &[Items<usize>],
    start: usize,
    marks: &mut [Mark],
    order: &mut Vec<usize>,
) -> Mem<bool>
    requires within { LeadWithin rows.now }
    requires start { start < length rows.now }
    requires sorted { Sorted rows.now marks.old order.old.items }
    requires closed { (i : ℕ) → mark_at marks.old i ≡ Open → ⊥ }
    requires new { mark_at marks.old start ≡ New }
    ensures sorted { IfOk result (λ all. IsTrue all
        → SortedMore rows.now order.old.items start marks.new order.new.items) }
    ensures cycle { IfOk result (λ all. all ≡ false → (i : ℕ) × Reaches (Leads rows.now) i i) }
{
    let mut path = Vec::new(alloc);
    let mut at = start;
    let mut next = 0;
    marks[at] = Mark::Open;
    'walk: loop {
        let row = rows[at].as_slice();
        if next < row.len() {
            let to = row[next];
            next += 1;
            match marks[to] {
                Mark::New => {
                    marks[to] = Mark::Open;
                    path.push(Step { at, next })?;
                    at = to;
                    next = 0;
                }
                Mark::Open => return Ok(false),
                Mark::Done => {}
            }
        } else {
            marks[at] = Mark::Done;
            order.push(at)?;
            let Some(step) = path.pop() else {
                return Ok(true);
            };
            at = step.at;
            next = step.next;
        }
    }
}
