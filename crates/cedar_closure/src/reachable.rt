// SPDX-License-Identifier: Apache-2.0
ghost use Rattle.std.specs.Prelude.{◌≡◌, ℕ, ◌+◌, ◌<◌, ◌≤◌, ◌↔◌, ◌⊎◌, length, All, Contains, IfOk, OnOk};
ghost use Rattle.cedar_closure.specs.Chains.{Reaches};
ghost use Rattle.cedar_closure.specs.Marks.{Leads, LeadWithin, Told, Visited};

use cedar_names::{Items, Mem};
use std::alloc::Global;

/// The positions to which a chain of rows leads from `start`, but for those of the row there, each once, in order. The
/// mark of this search is `start + 1`, which has to be above all marks: so none has to be cleared between searches whose
/// starts rise.
pub(crate) fn reached_beyond(
    alloc: Global,
    rows: &[Items<usize>],
    start: usize,
    marks: &mut [usize],
) -> Mem<Vec<usize>>
    requires within { LeadWithin rows.now }
    requires start { start < length rows.now }
    requires one_each { length marks.old ≡ length rows.now }
    requires earlier { All (λ mark. mark ≤ start) marks.old }
    ensures reached { IfOk result (λ further. (j : ℕ)
        → (Leads rows.now start j ⊎ Contains further.items j) ↔ Reaches (Leads rows.now) start j) }
    ensures within { IfOk result (λ further. All (λ j. j < length rows.now) further.items) }
    ensures latest { OnOk result (All (λ mark. mark ≤ start + 1) marks.new) }
{
    let stamp = start + 1;
    let mut found = Vec::new(alloc);
    visit(rows[start].as_slice(), stamp, marks, &mut found)?;
    let own = found.len();
    let mut next = 0;
    while next < found.len() {
        let at = found[next];
        visit(rows[at].as_slice(), stamp, marks, &mut found)?;
        next += 1;
    }
    let mut further = found.split_off(own)?;
    // In order, putting their keys into a set moves the fewest.
    further.sort_unstable();
    Ok(further)
}

/// Puts the positions of the row that have no mark of this search behind the found ones, and marks them.
fn visit(row: &[usize], stamp: usize, marks: &mut [usize], found: &mut Vec<usize>) -> Mem<()>
    requires within { All (λ j. j < length marks.old) row.now }
    requires told { Told stamp marks.old found.old.items }
    ensures { OnOk result
        (Visited stamp row.now marks.old found.old.items marks.new found.new.items) }
{
    for position in row {
        if marks[*position] != stamp {
            marks[*position] = stamp;
            found.push(*position)?;
        }
    }
    Ok(())
}
