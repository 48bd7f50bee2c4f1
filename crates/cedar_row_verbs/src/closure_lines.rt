// SPDX-License-Identifier: Apache-2.0
use crate::keys::RowKey;
use crate::vertex::Vertex;
use cedar_data::{Failure, Mem, NoMemory};
use cedar_names::{EntityType, EntityUID};
use cedar_types::{TcNode, compute_tc};
use std::alloc::Global;
use std::collections::BTreeMap;

/// Nodes in a map by their keys.
type Graph<K> = BTreeMap<K, Vertex<K>>;

/// `closure KEYS [acyclic]`: the closure of the nodes that stand on the lines of the input, each with the keys that its
/// edges lead to behind ` -> `, where KEYS is `numbers`, `types` or `entities`. With `acyclic` no key may reach itself.
pub fn closure(alloc: Global, words: &[&str], input: &str) -> Mem<String> {
    let is_acyclic = words.get(1) == Some(&"acyclic");
    match words.first().copied() {
        Some("numbers") => closure_told::<u32>(alloc, is_acyclic, input),
        Some("types") => closure_told::<EntityType>(alloc, is_acyclic, input),
        Some("entities") => closure_told::<EntityUID>(alloc, is_acyclic, input),
        _ => Ok(format!(in alloc; "no such keys\n")?),
    }
}

fn closure_told<K: RowKey>(alloc: Global, is_acyclic: bool, input: &str) -> Mem<String> {
    let Some(nodes) = graph_of::<K>(alloc, input)? else {
        return Ok(format!(in alloc; "no key\n")?);
    };
    match compute_tc(alloc, nodes, is_acyclic) {
        Ok(closed) if closed.is_empty() => Ok(format!(in alloc; "no nodes\n")?),
        Ok(closed) => graph_told(alloc, &closed),
        Err(Failure::Refused(error)) => Ok(format!(in alloc; "{error}\n")?),
        Err(Failure::NoMemory) => Err(NoMemory),
    }
}

/// The nodes of the lines of an input, if each key can be read.
fn graph_of<K: RowKey>(alloc: Global, input: &str) -> Mem<Option<Graph<K>>> {
    let mut nodes = BTreeMap::new(alloc);
    let mut number = 0usize;
    for line in input.lines() {
        number = number.saturating_add(1);
        let Some(node) = node_of::<K>(alloc, number, line)? else {
            return Ok(None);
        };
        nodes.insert(node.get_key().dup(alloc)?, node)?;
    }
    Ok(Some(nodes))
}

/// The node of a line.
fn node_of<K: RowKey>(alloc: Global, number: usize, line: &str) -> Mem<Option<Vertex<K>>> {
    let (key, edges) = line.split_once(" -> ").unwrap_or((line, ""));
    let Some(key) = K::read(alloc, key)? else {
        return Ok(None);
    };
    let mut node = Vertex::new(alloc, key, number);
    for edge in edges.split_whitespace() {
        let Some(edge) = K::read(alloc, edge)? else {
            return Ok(None);
        };
        node.add_edge_to(edge)?;
    }
    Ok(Some(node))
}

fn graph_told<K: RowKey>(alloc: Global, nodes: &Graph<K>) -> Mem<String> {
    let mut lines = String::new(alloc);
    for (_, node) in nodes.iter() {
        let line = node_told(alloc, node)?;
        lines.push_str(line.as_str())?;
    }
    Ok(lines)
}

/// A node: the line that it stood on, its key, and the keys that its edges lead to.
fn node_told<K: RowKey>(alloc: Global, node: &Vertex<K>) -> Mem<String> {
    let key = node.get_key();
    let mut told = format!(in alloc; "line {}: {key} ->", node.line())?;
    for edge in node.out_edges() {
        let edge = format!(in alloc; " {edge}")?;
        told.push_str(edge.as_str())?;
    }
    told.push('\n')?;
    Ok(told)
}
