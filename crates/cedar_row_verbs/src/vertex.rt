// SPDX-License-Identifier: Apache-2.0
ghost use Rattle.std.specs.Prelude.{◌≡◌, [], IfOk, OnOk, OnErr};
ghost use Rattle.std.specs.BTreeSet.{insert_key};
ghost use Rattle.std.specs.List.Sorted.{IsStrictlySortedBy};
ghost use Rattle.cedar_data.specs.Sets.{contains, Adds};

use cedar_data::{Mem, Set, SetIter};
use cedar_types::{TcKey, TcNode};
use std::alloc::Global;

/// A node, with the number of the line that it stands on.
#[derive(Drop)]
pub struct Vertex<K: Ord> {
    key: K,
    edges: Set<K>,
    line: usize,
}

impl<K: Ord> Vertex<K> {
    /// A node with no edge.
    pub fn new(alloc: Global, key: K, line: usize) -> Vertex<K> {
        Vertex {
            key,
            edges: Set::new(alloc),
            line,
        }
    }

    /// The number of the line that it stands on.
    pub fn line(&self) -> usize {
        self.line
    }
}

impl<K: TcKey> TcNode<K> for Vertex<K> {
    ghost key = { λ node. node.key };

    ghost edges = { λ node. node.edges };

    ghost rest = { λ node. record node { edges = [] } };

    fn get_key(&self) -> &K {
        &self.key
    }

    fn add_edge_to(&mut self, k: K) -> Mem<()> {
        self.edges.insert(k)?;
        Ok(())
    }

    fn has_edge_to(&self, k: &K) -> bool {
        self.edges.contains(k)
    }

    fn out_edges(&self) -> SetIter<'_, K> {
        self.edges.iter()
    }

    ghost whole = { λ a b same_key same_edges same_rest i. record
        { key = same_key i; edges = same_edges i; line = (same_rest i).line } };
}
