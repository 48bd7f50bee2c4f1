// SPDX-License-Identifier: Apache-2.0
ghost use Rattle.std.specs.Prelude.{◌≡◌, ◌<◌, ◌≤◌, ◌+◌, ◌↔◌, ◌⊎◌, [], ◌∷◌, ◌++◌, false, length, replicate, IsTrue, IfOk, OnOk, All, Contains, IsSomeAnd};
ghost use Rattle.std.specs.List.Sorted.{IsStrictlySortedBy};
ghost use Rattle.std.specs.Map.{keys_of};
ghost use Rattle.cedar_names.specs.of_data.Maps.{IsSortedMap};
ghost use Rattle.cedar_names.specs.of_data.Sets.{contains};
ghost use Rattle.cedar_names.specs.of_text.Failures.{IfRefused};
ghost use Rattle.cedar_closure.specs.Closure.{IsClosure, IsAcyclic, IsLeastOnCycle};
ghost use Rattle.cedar_closure.specs.Marks.{LeadWithin};
ghost use Rattle.cedar_closure.specs.Places.{AreKeysOf, Chained, LeadsTo, place, rows_at};
ghost use Rattle.cedar_closure.specs.declared.tc_error.TcError.TheVariants.{HasCycle};

use crate::key_graph::{keys_of_nodes, place_near, rows_of_nodes};
use crate::reachable::reached_beyond;
use crate::tc_error::TcError;
use crate::tc_node::{TcKey, TcNode};
use cedar_names::{Failure, Items, Map, Mem, Out};
use std::alloc::Global;
use std::collections::BTreeMap;

/// The nodes, each with an edge to exactly those keys to which a chain of one or more edges led from its key. A node's
/// key is its place in the map, and an edge may lead to a key where no node stands, and so no further. With
/// `enforce_dag` it is refused where a key reaches itself, with the least that does. It takes memory for the edges, and
/// the time of one search from each node.
pub fn compute_tc<K: TcKey, V: TcNode<K>>(
    alloc: Global,
    nodes: BTreeMap<K, V>,
    enforce_dag: bool,
) -> Out<BTreeMap<K, V>, TcError<K>>
    ensures closed { IfOk result
        (λ closed. IsClosure K.cmp V.key V.edges V.rest nodes.entries closed.entries) }
    ensures acyclic { IfOk result (λ _. IsTrue enforce_dag
        → IsAcyclic K.cmp V.edges nodes.entries) }
    ensures refused { IfRefused result (λ error. IsTrue enforce_dag ×
        ((vertex : K) × (error ≡ HasCycle vertex)
        × IsLeastOnCycle K.cmp V.edges nodes.entries vertex)) }
{
    let nodes = map_of_btree(alloc, nodes)?;
    let closed = close_map(alloc, nodes, enforce_dag)?;
    let closed = btree_of_map(alloc, closed)?;
    Ok(closed)
}

/// The entries of a `BTreeMap` as a map.
fn map_of_btree<K: Ord + Drop, V: Drop>(alloc: Global, entries: BTreeMap<K, V>) -> Mem<Map<K, V>>
    ensures { IfOk result (λ map. map ≡ entries.entries) }
{
    let mut map = Map::new(alloc);
    for (key, value) in entries {
        map.push_last(key, value)?;
    }
    Ok(map)
}

/// The entries of a map as a `BTreeMap`.
fn btree_of_map<K: Ord + Drop, V: Drop>(alloc: Global, map: Map<K, V>) -> Mem<BTreeMap<K, V>>
    ensures { IfOk result (λ entries. entries.entries ≡ map) }
{
    let mut entries = BTreeMap::new(alloc);
    for (key, value) in map.into_entries() {
        append_entry(&mut entries, key, value)?;
    }
    Ok(entries)
}

/// Puts an entry after all others.
fn append_entry<K: Ord + Drop, V: Drop>(entries: &mut BTreeMap<K, V>, key: K, value: V) -> Mem<()>
    requires { IsStrictlySortedBy K.cmp (keys_of entries.old.entries ++ key ∷ []) }
    ensures { OnOk result (entries.new.entries ≡ entries.old.entries ++ (key, value) ∷ []) }
{
    entries.insert(key, value)?;
    Ok(())
}

/// As `compute_tc`, of a map.
pub fn close_map<K: TcKey, V: TcNode<K>>(
    alloc: Global,
    nodes: Map<K, V>,
    enforce_dag: bool,
) -> Out<Map<K, V>, TcError<K>>
    ensures closed { IfOk result (λ closed. IsClosure K.cmp V.key V.edges V.rest nodes closed) }
    ensures acyclic { IfOk result (λ _. IsTrue enforce_dag → IsAcyclic K.cmp V.edges nodes) }
    ensures refused { IfRefused result (λ error. IsTrue enforce_dag ×
        ((vertex : K) × (error ≡ HasCycle vertex) × IsLeastOnCycle K.cmp V.edges nodes vertex)) }
{
    // Without edges nothing is added, and no copy of a key is wanted.
    if have_no_edges(&nodes) {
        return Ok(nodes);
    }
    let keys = keys_of_nodes(alloc, &nodes)?;
    let rows = rows_of_nodes(alloc, &nodes, keys.as_slice())?;
    let mut marks = vec![in alloc; 0usize; keys.len()]?;
    let closed = close_nodes(
        alloc,
        nodes,
        keys.as_slice(),
        rows.as_slice(),
        marks.as_mut_slice(),
        enforce_dag,
    )?;
    Ok(closed)
}

/// Whether no edge leads from any of the nodes.
fn have_no_edges<K: TcKey, V: TcNode<K>>(nodes: &Map<K, V>) -> bool
    ensures { IsTrue result → All (λ entry. V.edges entry.1 ≡ []) nodes.now }
{
    for (_, node) in nodes.iter() {
        if has_edge(node) {
            return false;
        }
    }
    true
}

/// Closes the edges of each node, in the order of their keys.
fn close_nodes<K: TcKey, V: TcNode<K>>(
    alloc: Global,
    nodes: Map<K, V>,
    keys: &[K],
    rows: &[Items<usize>],
    marks: &mut [usize],
    enforce_dag: bool,
) -> Out<Map<K, V>, TcError<K>>
    requires keys { AreKeysOf K.cmp V.edges nodes keys.now }
    requires rows { rows.now ≡ rows_at K.cmp V.edges nodes keys.now }
    requires no_marks { marks.old ≡ replicate (length keys.now) 0 }
    ensures closed { IfOk result (λ closed. IsClosure K.cmp V.key V.edges V.rest nodes closed) }
    ensures acyclic { IfOk result (λ _. IsTrue enforce_dag → IsAcyclic K.cmp V.edges nodes) }
    ensures refused { IfRefused result (λ error. IsTrue enforce_dag ×
        ((vertex : K) × (error ≡ HasCycle vertex) × IsLeastOnCycle K.cmp V.edges nodes vertex)) }
{
    let mut closed = Map::with_room(alloc, nodes.len())?;
    let mut last = 0;
    for (key, mut node) in nodes.into_entries() {
        let returns = close_any_edges(alloc, keys, rows, marks, &mut last, &key, &mut node)?;
        if returns && enforce_dag {
            return Err(Failure::Refused(TcError::HasCycle { vertex: key }));
        }
        closed.push_last(key, node)?;
    }
    Ok(closed)
}

/// Whether an edge leads from the node.
fn has_edge<K: TcKey, V: TcNode<K>>(node: &V) -> bool
    ensures { (result ≡ false) → (V.edges node.now ≡ []) }
{
    node.out_edges().next().is_some()
}

/// Adds an edge to each key to which a chain of rows leads from `key`, and answers whether one leads back to it. From a
/// node without edges none does, so that such a node takes no search. The row of the key is of the edges of its node.
fn close_any_edges<K: TcKey, V: TcNode<K>>(
    alloc: Global,
    keys: &[K],
    rows: &[Items<usize>],
    marks: &mut [usize],
    last: &mut usize,
    key: &K,
    node: &mut V,
) -> Mem<bool>
    requires ordered { IsStrictlySortedBy K.cmp keys.now }
    requires within { LeadWithin rows.now }
    requires one_each { (length rows.now ≡ length keys.now) × (length marks.old ≡ length rows.now) }
    requires ascends { IsStrictlySortedBy K.cmp (V.edges node.old) }
    requires own_row { (to : K) → LeadsTo K.cmp keys.now rows.now key.now to
        → IsTrue (contains K.cmp (V.edges node.old) to) }
    requires begun { (V.edges node.old ≡ []) → (to : K) → Chained K.cmp keys.now rows.now key.now to
        → ⊥ }
    requires earlier { IsSomeAnd (place K.cmp keys.now key.now)
        (λ at. All (λ mark. mark ≤ at) marks.old) }
    ensures leads { OnOk result ((to : K) → IsTrue (contains K.cmp (V.edges node.new) to)
        ↔ (IsTrue (contains K.cmp (V.edges node.old) to)
        ⊎ Chained K.cmp keys.now rows.now key.now to)) }
    ensures ascends { OnOk result (IsStrictlySortedBy K.cmp (V.edges node.new)) }
    ensures same_key { OnOk result (V.key node.new ≡ V.key node.old) }
    ensures same_rest { OnOk result (V.rest node.new ≡ V.rest node.old) }
    ensures returns { IfOk result (λ returns. IsTrue returns
        ↔ Chained K.cmp keys.now rows.now key.now key.now) }
    ensures latest { OnOk result
        (IsSomeAnd (place K.cmp keys.now key.now) (λ at. All (λ mark. mark ≤ at + 1) marks.new)) }
{
    if has_edge(node) {
        return close_node(alloc, keys, rows, marks, last, key, node);
    }
    // the next key stands behind this one
    *last = last.saturating_add(1);
    Ok(false)
}

/// Adds an edge to each key to which a chain of rows leads from `key`, and answers whether one leads back to it. The
/// edges of the row at the key are there already.
fn close_node<K: TcKey, V: TcNode<K>>(
    alloc: Global,
    keys: &[K],
    rows: &[Items<usize>],
    marks: &mut [usize],
    last: &mut usize,
    key: &K,
    node: &mut V,
) -> Mem<bool>
    requires ordered { IsStrictlySortedBy K.cmp keys.now }
    requires within { LeadWithin rows.now }
    requires one_each { (length rows.now ≡ length keys.now) × (length marks.old ≡ length rows.now) }
    requires ascends { IsStrictlySortedBy K.cmp (V.edges node.old) }
    requires own_row { (to : K) → LeadsTo K.cmp keys.now rows.now key.now to
        → IsTrue (contains K.cmp (V.edges node.old) to) }
    requires earlier { IsSomeAnd (place K.cmp keys.now key.now)
        (λ at. All (λ mark. mark ≤ at) marks.old) }
    ensures leads { OnOk result ((to : K) → IsTrue (contains K.cmp (V.edges node.new) to)
        ↔ (IsTrue (contains K.cmp (V.edges node.old) to)
        ⊎ Chained K.cmp keys.now rows.now key.now to)) }
    ensures ascends { OnOk result (IsStrictlySortedBy K.cmp (V.edges node.new)) }
    ensures same_key { OnOk result (V.key node.new ≡ V.key node.old) }
    ensures same_rest { OnOk result (V.rest node.new ≡ V.rest node.old) }
    ensures returns { IfOk result (λ returns. IsTrue returns
        ↔ Chained K.cmp keys.now rows.now key.now key.now) }
    ensures latest { OnOk result
        (IsSomeAnd (place K.cmp keys.now key.now) (λ at. All (λ mark. mark ≤ at + 1) marks.new)) }
{
    let Some(at) = place_near(keys, last, key) else {
        unreachable!()
    };
    let further = reached_beyond(alloc, rows, at, marks)?;
    add_edges_to(alloc, keys, further.as_slice(), node)?;
    Ok(either_contains(rows[at].as_slice(), further.as_slice(), at))
}

/// Whether the position stands in one of the lists.
fn either_contains(one: &[usize], other: &[usize], at: usize) -> bool
    ensures { IsTrue result ↔ (Contains one.now at ⊎ Contains other.now at) }
{
    one.contains(&at) || other.contains(&at)
}

/// Adds an edge to each key whose position was found.
fn add_edges_to<K: TcKey, V: TcNode<K>>(
    alloc: Global,
    keys: &[K],
    found: &[usize],
    node: &mut V,
) -> Mem<()>
    requires ordered { IsStrictlySortedBy K.cmp keys.now }
    requires within { All (λ at. at < length keys.now) found.now }
    requires ascends { IsStrictlySortedBy K.cmp (V.edges node.old) }
    ensures leads { OnOk result ((to : K) → IsTrue (contains K.cmp (V.edges node.new) to)
        ↔ (IsTrue (contains K.cmp (V.edges node.old) to)
        ⊎ IsSomeAnd (place K.cmp keys.now to) (Contains found.now))) }
    ensures ascends { OnOk result (IsStrictlySortedBy K.cmp (V.edges node.new)) }
    ensures same_key { OnOk result (V.key node.new ≡ V.key node.old) }
    ensures same_rest { OnOk result (V.rest node.new ≡ V.rest node.old) }
{
    for at in found {
        let key = keys[*at].dup(alloc)?;
        node.add_edge_to(key)?;
    }
    Ok(())
}
