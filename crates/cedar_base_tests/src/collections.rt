// SPDX-License-Identifier: Apache-2.0
use crate::holding::{all_hold, is_copied};
use crate::making::text;
use cedar_data::{Boxed, Items, Map, Set, Shared};
use std::alloc::Global;
use std::test::Fail;

/// Whether a text is kept as it is.
fn is_kept(alloc: Global, kept: &str) -> bool {
    match text(alloc, kept) {
        Some(text) => text.as_str() == kept,
        None => false,
    }
}

/// The numbers 1 and 2.
fn items(alloc: Global) -> Option<Items<u32>> {
    let mut items = Items::new(alloc);
    items.push(1u32).ok()?;
    items.push(2u32).ok()?;
    Some(items)
}

/// Whether these are the numbers 1 and 2.
fn is_one_and_two(made: Option<Items<u32>>) -> bool {
    match made {
        Some(items) => {
            items.as_slice() == [1, 2].as_slice() && items.len() == 2 && items.into_vec().len() == 2
        }
        None => false,
    }
}

/// A box of 7.
fn boxed(alloc: Global) -> Option<Boxed<u32>> {
    Boxed::new(alloc, 7u32).ok()
}

/// A shared 8.
fn shared(alloc: Global) -> Option<Shared<u32>> {
    Shared::new(alloc, 8u32).ok()
}

/// The map from 1 to 11 and from 2 to 21, each put in place of another value.
fn map(alloc: Global) -> Option<Map<u32, u32>> {
    let mut map = Map::new(alloc);
    for (key, value) in [(2u32, 20u32), (1, 10), (2, 21), (1, 11)] {
        map.put(key, value).ok()?;
    }
    Some(map)
}

/// The map of the pairs of 2 and 20, of 1 and 11, and of 2 and 21.
fn map_of_pairs(alloc: Global) -> Option<Map<u32, u32>> {
    let pairs = vec![in alloc; (2u32, 20u32), (1, 11), (2, 21)].ok()?;
    Map::from_pairs(alloc, pairs).ok()
}

/// Whether this is the map from 1 to 11 and from 2 to 21.
fn is_map(made: Option<Map<u32, u32>>) -> bool {
    match made {
        Some(map) => is_found(&map),
        None => false,
    }
}

fn is_found(map: &Map<u32, u32>) -> bool {
    let found = (
        map.get(&1).copied(),
        map.get(&2).copied(),
        map.get(&4).copied(),
    );
    map.len() == 2 && found == (Some(11), Some(21), None)
}

/// What stood in a map at 2, then at 1, then at 2 again, before each was put there.
fn stood(alloc: Global) -> [Option<Option<u32>>; 3] {
    let mut map = Map::new(alloc);
    let first = map.insert(2u32, 20u32).ok();
    let second = map.insert(1, 10).ok();
    let third = map.insert(2, 21).ok();
    [first, second, third]
}

/// Whether 2, then 1, then 2 again are new in a set.
fn are_new(set: &mut Set<u32>) -> [Option<bool>; 3] {
    let first = set.insert(2).ok();
    let second = set.insert(1).ok();
    let third = set.insert(2).ok();
    [first, second, third]
}

/// The set of 1 and 2, if these are two.
fn set(alloc: Global) -> Option<Set<u32>> {
    let mut set = Set::new(alloc);
    let is_right = are_new(&mut set) == [Some(true), Some(true), Some(false)];
    if is_right && set.len() == 2 {
        Some(set)
    } else {
        None
    }
}

#[test]
fn texts_lists_and_boxes(rt: HostRuntime) -> Result<(), Fail> {
    let alloc = rt.alloc();
    all_hold(&[
        ("a text is kept", is_kept(alloc, "aé€😀")),
        ("a text is copied", is_copied(alloc, text(alloc, "aé€😀"))),
        ("items are kept", is_one_and_two(items(alloc))),
        ("items are copied", is_copied(alloc, items(alloc))),
        ("a box is copied", is_copied(alloc, boxed(alloc))),
        ("a shared value is copied", is_copied(alloc, shared(alloc))),
        ("an option is copied", is_copied(alloc, Some(Some(3u32)))),
    ])
}

#[test]
fn maps_and_sets(rt: HostRuntime) -> Result<(), Fail> {
    let alloc = rt.alloc();
    let wanted = [Some(None), Some(None), Some(Some(20))];
    all_hold(&[
        ("values are put in place", is_map(map(alloc))),
        ("a map is copied", is_copied(alloc, map(alloc))),
        ("a map is of its pairs", is_map(map_of_pairs(alloc))),
        ("a map tells what stood", stood(alloc) == wanted),
        ("a set is copied", is_copied(alloc, set(alloc))),
    ])
}
