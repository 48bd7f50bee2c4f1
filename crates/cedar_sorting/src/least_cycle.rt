// SPDX-License-Identifier: Apache-2.0
ghost use Rattle.std.specs.Prelude.{◌≡◌, ℕ, ◌<◌, ◌≤◌, length, IfOk, replicate, slice_index_or, true, false, min};
ghost use Rattle.cedar_closure.specs.Marks.{LeadWithin};
ghost use Rattle.cedar_sorting.specs.Searched.{IsLeastToReturn, Searched, IsPlaced, Tells, merged, returning, with_part};

use cedar_closure::{Items, Mem};
use std::alloc::Global;

/// A position on the way: how much of its row was passed, where it stands on the stack, the lowest place on the stack
/// to which a way leads from its part of the stack, the least of that part, and whether it reaches itself.
#[derive(Drop)]
pub(crate) struct Frame {
    at: usize,
    next: usize,
    base: usize,
    low: usize,
    least: usize,
    returns: bool,
}

/// What is known of a position.
pub(crate) enum State {
    New,
    Open(usize),
    Done,
}

/// The least position that reaches itself, or how many there are.
pub(crate) fn least_on_cycle(alloc: Global, rows: &[Items<usize>]) -> Mem<usize>
    requires { LeadWithin rows.now }
    ensures { IfOk result (λ least. IsLeastToReturn rows.now least) }
{
    let mut all_unseen = vec![in alloc; false; rows.len()]?;
    let seen = all_unseen.as_mut_slice();
    let mut no_places = vec![in alloc; 0usize; rows.len()]?;
    let places = no_places.as_mut_slice();
    let mut least = rows.len();
    for start in 0..rows.len() {
        if !seen[start] {
            least = searched(alloc, rows, start, seen, places, least)?;
        }
    }
    Ok(least)
}

/// Passes all that the position reaches, but for what was seen, and answers the least of this and of `least` that
/// reaches itself.
fn searched(
    alloc: Global,
    rows: &[Items<usize>],
    start: usize,
    seen: &mut [bool],
    places: &mut [usize],
    least: usize,
) -> Mem<usize>
    requires within { LeadWithin rows.now }
    requires start { start < length rows.now }
    requires searched { Searched rows.now seen.old least }
    requires places { length places.old ≡ length rows.now }
    requires new { slice_index_or seen.old start false ≡ false }
    ensures searched { IfOk result (λ least. Searched rows.now seen.new least) }
    ensures has { IfOk result (λ _. slice_index_or seen.new start false ≡ true) }
    ensures kept { IfOk result (λ _. (i : ℕ) → slice_index_or seen.old i false ≡ true
        → slice_index_or seen.new i false ≡ true) }
{
    let mut found = least;
    let mut stack = Vec::new(alloc);
    let mut path = Vec::new(alloc);
    seen[start] = true;
    places[start] = 0;
    stack.push(start)?;
    let mut top = entered(start, 0);
    'walk: loop {
        let row = rows[top.at].as_slice();
        if top.next < row.len() {
            let to = row[top.next];
            top.next += 1;
            match looked_up(seen, places, stack.as_slice(), to) {
                State::New => {
                    let base = stack.len();
                    seen[to] = true;
                    places[to] = base;
                    stack.push(to)?;
                    path.push(top)?;
                    top = entered(to, base);
                }
                State::Open(place) => top = returning(top, place),
                State::Done => {}
            }
        } else if top.low == top.base {
            stack.truncate(top.base);
            found = with_part(found, top.returns, top.least);
            let Some(before) = path.pop() else {
                return Ok(found);
            };
            top = before;
        } else {
            let Some(before) = path.pop() else {
                unreachable!()
            };
            top = merged(before, top);
        }
    }
}

/// The least with that of a part, where the part reaches itself.
fn with_part(found: usize, returns: bool, least: usize) -> usize
    ensures { result ≡ with_part found returns least }
{
    if returns { min(found, least) } else { found }
}

fn entered(at: usize, base: usize) -> Frame
    ensures { result
        ≡ record { at = at; next = 0; base = base; low = base; least = at; returns = false } }
{
    Frame {
        at,
        next: 0,
        base,
        low: base,
        least: at,
        returns: false,
    }
}

/// The frame after a step back to a place on the stack.
fn returning(top: Frame, place: usize) -> Frame
    ensures { result ≡ returning top place }
{
    Frame {
        low: min(top.low, place),
        returns: true,
        ..top
    }
}

/// The frame with the part of the one after it, which leads back to it.
fn merged(before: Frame, top: Frame) -> Frame
    ensures { result ≡ merged before top }
{
    Frame {
        low: min(before.low, top.low),
        least: min(before.least, top.least),
        returns: true,
        ..before
    }
}

fn min(a: usize, b: usize) -> usize
    ensures { result ≡ min a b }
{
    if a < b { a } else { b }
}

/// What is known of the position.
fn looked_up(seen: &[bool], places: &[usize], stack: &[usize], to: usize) -> State
    requires seen { to < length seen.now }
    requires places { to < length places.now }
    requires placed { IsPlaced places.now stack.now }
    ensures { Tells seen.now stack.now to result }
{
    if !seen[to] {
        return State::New;
    }
    let place = places[to];
    if place < stack.len() && stack[place] == to {
        State::Open(place)
    } else {
        State::Done
    }
}
