// SPDX-License-Identifier: Apache-2.0
ghost use Rattle.std.specs.Prelude.{ℕ, map};
ghost use Rattle.std.specs.Ordering.{nat_cmp};

use crate::holding::all_hold;
use cedar_data::{Failure, Map, Out};
use cedar_text::{Convert, NonEmpty, collect_map};
use std::alloc::Global;
use std::test::Fail;

/// What comes of members.
type Collected = Out<Map<u32, u32>, NonEmpty<u32>>;

/// A member: its entries, and all that is wrong with it.
#[derive(Drop)]
struct Member {
    entries: Vec<(u32, u32)>,
    faults: Vec<u32>,
}

impl Convert<u32, u32, u32> for Member {
    ghost Name = { ℕ };

    ghost Content = { ℕ };

    ghost name = { λ key. key };

    ghost content = { λ value. value };

    ghost order = { nat_cmp };

    ghost faults = { λ member. member.faults.items };

    ghost entries = { λ member. map (λ e. (e.0, e.1)) member.entries.items };

    fn convert(self, _alloc: Global) -> Out<Vec<(u32, u32)>, NonEmpty<u32>> {
        let Member { entries, faults } = self;
        match NonEmpty::from_vec(faults) {
            None => Ok(entries),
            Some(faults) => Err(Failure::Refused(faults)),
        }
    }
}

/// The member that gives this entry.
fn giving(alloc: Global, key: u32, value: u32) -> Option<Member> {
    let entries = vec![in alloc; (key, value)].ok()?;
    let faults = Vec::new(alloc);
    Some(Member { entries, faults })
}

/// The member with which this is wrong.
fn wrong(alloc: Global, fault: u32) -> Option<Member> {
    let faults = vec![in alloc; fault].ok()?;
    let entries = Vec::new(alloc);
    Some(Member { entries, faults })
}

/// The members that give 20 at 2, 11 at 1, and 21 at 2.
fn members(alloc: Global) -> Option<Vec<Member>> {
    let first = giving(alloc, 2, 20)?;
    let second = giving(alloc, 1, 11)?;
    let third = giving(alloc, 2, 21)?;
    vec![in alloc; first, second, third].ok()
}

/// The members of which 3 and 4 are wrong.
fn wrong_members(alloc: Global) -> Option<Vec<Member>> {
    let first = wrong(alloc, 3)?;
    let second = giving(alloc, 1, 11)?;
    let third = wrong(alloc, 4)?;
    vec![in alloc; first, second, third].ok()
}

/// Whether the members give 11 at 1 and the last of both at 2.
fn are_collected(alloc: Global) -> bool {
    match members(alloc) {
        Some(members) => is_collected(&collect_map(alloc, members)),
        None => false,
    }
}

fn is_collected(made: &Collected) -> bool {
    match made {
        Ok(map) => {
            map.len() == 2 && (map.get(&1).copied(), map.get(&2).copied()) == (Some(11), Some(21))
        }
        Err(_) => false,
    }
}

/// Whether both faults are told, in order.
fn are_refused(alloc: Global) -> bool {
    match wrong_members(alloc) {
        Some(members) => is_refused(&collect_map(alloc, members)),
        None => false,
    }
}

fn is_refused(made: &Collected) -> bool {
    match made {
        Err(Failure::Refused(faults)) => is_three_and_four(faults),
        _ => false,
    }
}

fn is_three_and_four(faults: &NonEmpty<u32>) -> bool {
    let mut left = faults.iter();
    let found = (left.next().copied(), left.next().copied());
    found == (Some(3), Some(4)) && left.next().is_none()
}

#[test]
fn of_members(rt: HostRuntime) -> Result<(), Fail> {
    let alloc = rt.alloc();
    all_hold(&[
        ("the last entry counts", are_collected(alloc)),
        ("all faults are told", are_refused(alloc)),
    ])
}
