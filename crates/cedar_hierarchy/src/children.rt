// SPDX-License-Identifier: Apache-2.0
ghost use Rattle.std.specs.Prelude.{◌≡◌, ◌&&◌, ◌||◌, [], Some, cond, IfOk, OnOk};
ghost use Rattle.std.specs.BTreeMap.{is_at};
ghost use Rattle.cedar_data.specs.Maps.{get};
ghost use Rattle.cedar_data.specs.Sets.{contains};
ghost use Rattle.cedar_hierarchy.specs.Children.{children_at, is_child};

use cedar_data::{Dup, Map, Mem, Near, Set};
use std::alloc::Global;

/// The children of each key that is a parent.
pub(crate) type Children<K> = Map<K, Set<K>>;

/// Takes the children of a key out, so that it has none.
fn take_children<K: Ord + Dup + Drop>(
    alloc: Global,
    parent: &K,
    children: &mut Children<K>,
) -> Mem<Set<K>>
    ensures taken { IfOk result (λ found. found ≡ children_at K.cmp children.old parent.now) }
    ensures others { OnOk result ((other : K) → get K.cmp children.new other
        ≡ cond (is_at (K.cmp parent.now) other) (Some []) (get K.cmp children.old other)) }
{
    let parent = parent.dup(alloc)?;
    match children.insert(parent, Set::new(alloc))? {
        Some(found) => Ok(found),
        None => Ok(Set::new(alloc)),
    }
}

/// Puts a child under a parent.
fn add_child<K: Ord + Dup + Drop>(
    alloc: Global,
    parent: K,
    child: K,
    children: &mut Children<K>,
) -> Mem<()>
    ensures { OnOk result ((p c : K) → is_child K.cmp children.new p c
        ≡ ((is_at (K.cmp p) parent && is_at
        (K.cmp child) c) || is_child K.cmp children.old p c)) }
{
    let mut siblings = take_children(alloc, &parent, children)?;
    siblings.insert(child)?;
    children.put(parent, siblings)?;
    Ok(())
}

/// Puts a child under each of its parents.
pub(crate) fn link<K: Ord + Dup + Drop>(
    alloc: Global,
    parents: &Set<K>,
    child: &K,
    children: &mut Children<K>,
) -> Mem<()>
    ensures { OnOk result ((p c : K) → is_child K.cmp children.new p c
        ≡ ((contains K.cmp parents.now p && is_at
        (K.cmp child.now) c) || is_child K.cmp children.old p c)) }
{
    for parent in parents.iter() {
        let parent = parent.dup(alloc)?;
        let child = child.dup(alloc)?;
        add_child(alloc, parent, child, children)?;
    }
    Ok(())
}

/// The children of a key. The search begins where the last one ended.
pub(crate) fn children_of<K: Ord + Dup + Drop>(
    alloc: Global,
    parent: &K,
    children: &Children<K>,
    near: &mut Near,
) -> Mem<Set<K>>
    ensures { IfOk result (λ found. found ≡ children_at K.cmp children.now parent.now) }
{
    match children.get_near(near, parent) {
        Some(found) => found.dup(alloc),
        None => Ok(Set::new(alloc)),
    }
}
