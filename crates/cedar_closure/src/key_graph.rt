// SPDX-License-Identifier: Apache-2.0
ghost use Rattle.std.specs.Prelude.{◌≡◌, ◌∷◌, ◌++◌, [], true, Some, All, IfOk, OnOk};
ghost use Rattle.std.specs.List.{filter_map};
ghost use Rattle.std.specs.List.Sorted.{IsStrictlySortedBy};
ghost use Rattle.std.specs.Map.{keys_of};
ghost use Rattle.cedar_names.specs.of_data.Maps.{IsSortedMap};
ghost use Rattle.cedar_names.specs.of_data.Sets.{Adds};
ghost use Rattle.cedar_closure.specs.Places.{PutsInOrder, AddsBeside, NamesBeside, AreKeysOf, place, row_at, rows_at};

use crate::tc_node::{TcKey, TcNode};
use cedar_names::{Items, Map, Mem, Near, Set};
use std::alloc::Global;
use std::collections::BTreeSet;

/// The keys of the nodes and of their edges, each once, in their order. Those of the nodes are in order already, so
/// only keys where no node stands are searched for.
pub(crate) fn keys_of_nodes<K: TcKey, V: TcNode<K>>(alloc: Global, nodes: &Map<K, V>) -> Mem<Vec<K>>
    ensures { IfOk result (λ keys. AreKeysOf K.cmp V.edges nodes.now keys.items) }
{
    let others = other_targets(alloc, nodes)?;
    let mut keys = copies_of_keys(alloc, nodes)?;
    if others.is_empty() {
        return Ok(keys);
    }
    push_copies(alloc, &others, &mut keys)?;
    in_order(alloc, keys)
}

/// The keys to which edges lead, and at which no node stands.
fn other_targets<K: TcKey, V: TcNode<K>>(alloc: Global, nodes: &Map<K, V>) -> Mem<Set<K>>
    ensures beside { IfOk result (λ others. NamesBeside K.cmp V.edges nodes.now others) }
    ensures edges_ordered { OnOk result
        (All (λ entry. IsStrictlySortedBy K.cmp (V.edges entry.1)) nodes.now) }
{
    let mut others = Set::new(alloc);
    let mut near = Near::first();
    for (_, node) in nodes.iter() {
        add_other_targets(alloc, nodes, node, &mut near, &mut others)?;
    }
    Ok(others)
}

/// Puts copies of the keys to which the edges of the node lead into the set, but for those of nodes.
fn add_other_targets<K: TcKey, V: TcNode<K>>(
    alloc: Global,
    nodes: &Map<K, V>,
    node: &V,
    near: &mut Near,
    others: &mut Set<K>,
) -> Mem<()>
    ensures adds { OnOk result
        (AddsBeside K.cmp (keys_of nodes.now) others.old others.new (V.edges node.now)) }
    ensures ordered { IsStrictlySortedBy K.cmp (V.edges node.now) }
{
    for key in node.out_edges() {
        add_other_target(alloc, nodes, key, near, others)?;
    }
    Ok(())
}

/// Puts a copy of the key into the set, if no node stands at it and no equal key is there.
#[tactic(auto, using(crate::proofs::Naming::beside_rules))]
fn add_other_target<K: TcKey, V: TcNode<K>>(
    alloc: Global,
    nodes: &Map<K, V>,
    key: &K,
    near: &mut Near,
    others: &mut Set<K>,
) -> Mem<()>
    ensures { OnOk result (AddsBeside K.cmp (keys_of nodes.now) others.old others.new (key.now
        ∷ [])) }
{
    if !nodes.contains_near(near, key) {
        add_key(alloc, others, key)?;
    }
    Ok(())
}

/// Puts a copy of the key into the set, if no equal key is there.
fn add_key<K: TcKey>(alloc: Global, set: &mut Set<K>, key: &K) -> Mem<()>
    ensures { OnOk result (Adds K.cmp set.old set.new key.now) }
{
    if !set.contains(key) {
        let copy = key.dup(alloc)?;
        set.insert(copy)?;
    }
    Ok(())
}

/// Copies of the keys of the nodes, in their order.
fn copies_of_keys<K: TcKey, V: TcNode<K>>(alloc: Global, nodes: &Map<K, V>) -> Mem<Vec<K>>
    ensures keys { IfOk result (λ keys. keys.items ≡ keys_of nodes.now) }
    ensures ordered { IsSortedMap K.cmp nodes.now }
{
    let mut keys = Vec::with_capacity(alloc, nodes.len())?;
    for (key, _) in nodes.iter() {
        let copy = key.dup(alloc)?;
        keys.push(copy)?;
    }
    Ok(keys)
}

/// Puts copies of the keys of the set behind the keys.
fn push_copies<K: TcKey>(alloc: Global, set: &Set<K>, keys: &mut Vec<K>) -> Mem<()>
    ensures { OnOk result (keys.new.items ≡ keys.old.items ++ set.now) }
{
    for key in set.iter() {
        let copy = key.dup(alloc)?;
        keys.push(copy)?;
    }
    Ok(())
}

/// The keys, each once, in their order.
fn in_order<K: Ord + Drop>(alloc: Global, keys: Vec<K>) -> Mem<Vec<K>>
    ensures { IfOk result (λ sorted. PutsInOrder K.cmp keys.items sorted.items) }
{
    let mut sorted = Vec::with_capacity(alloc, keys.len())?;
    let set: BTreeSet<K> = BTreeSet::from_iter(alloc, keys)?;
    for key in set {
        sorted.push(key)?;
    }
    Ok(sorted)
}

/// The position of the key among keys in order.
fn place<K: Ord>(keys: &[K], key: &K) -> Option<usize>
    requires { IsStrictlySortedBy K.cmp keys.now }
    ensures { result ≡ place K.cmp keys.now key.now }
{
    match keys.binary_search(key) {
        Ok(at) => Some(at),
        Err(_) => None,
    }
}

/// Whether the key stands at the position.
fn stands_at<K: Ord>(keys: &[K], at: usize, key: &K) -> bool
    requires { IsStrictlySortedBy K.cmp keys.now }
    ensures { (result ≡ true) → place K.cmp keys.now key.now ≡ Some at }
{
    match keys.get(at) {
        Some(other) => other.cmp(key).is_eq(),
        None => false,
    }
}

/// The position of the key among keys in order. Where the last one was found, and behind it, is looked first.
pub(crate) fn place_near<K: Ord>(keys: &[K], last: &mut usize, key: &K) -> Option<usize>
    requires { IsStrictlySortedBy K.cmp keys.now }
    ensures { result ≡ place K.cmp keys.now key.now }
{
    if stands_at(keys, *last, key) {
        return Some(*last);
    }
    let next = last.saturating_add(1);
    let at = if stands_at(keys, next, key) {
        next
    } else {
        place(keys, key)?
    };
    *last = at;
    Some(at)
}

/// For each key in order, the positions to which the edges of its node lead.
pub(crate) fn rows_of_nodes<K: TcKey, V: TcNode<K>>(
    alloc: Global,
    nodes: &Map<K, V>,
    keys: &[K],
) -> Mem<Vec<Items<usize>>>
    requires { IsStrictlySortedBy K.cmp keys.now }
    ensures { IfOk result (λ rows. rows.items ≡ rows_at K.cmp V.edges nodes.now keys.now) }
{
    let mut rows = Vec::with_capacity(alloc, keys.len())?;
    let mut near = Near::first();
    let mut last = 0;
    for key in keys {
        let row = row_at_key(alloc, nodes, keys, key, &mut near, &mut last)?;
        rows.push(row)?;
    }
    Ok(rows)
}

/// The positions to which the edges of the node at the key lead: none where no node stands.
fn row_at_key<K: TcKey, V: TcNode<K>>(
    alloc: Global,
    nodes: &Map<K, V>,
    keys: &[K],
    key: &K,
    near: &mut Near,
    last: &mut usize,
) -> Mem<Items<usize>>
    requires { IsStrictlySortedBy K.cmp keys.now }
    ensures { IfOk result (λ row. row ≡ row_at K.cmp V.edges nodes.now keys.now key.now) }
{
    match nodes.get_near(near, key) {
        Some(node) => row_of_node(alloc, node, keys, last),
        None => Ok(Items::new(alloc)),
    }
}

/// The positions to which the edges of the node lead. Where the last edge led is looked first.
fn row_of_node<K: TcKey, V: TcNode<K>>(
    alloc: Global,
    node: &V,
    keys: &[K],
    last: &mut usize,
) -> Mem<Items<usize>>
    requires { IsStrictlySortedBy K.cmp keys.now }
    ensures { IfOk result (λ row. row ≡ filter_map (place K.cmp keys.now) (V.edges node.now)) }
{
    let mut row = Items::new(alloc);
    for edge in node.out_edges() {
        if let Some(at) = place_near(keys, last, edge) {
            row.push(at)?;
        }
    }
    Ok(row)
}
