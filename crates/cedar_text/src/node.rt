// SPDX-License-Identifier: Apache-2.0
ghost use Rattle.std.specs.Prelude.{◌≡◌};

use crate::location::Loc;
use cedar_data::{Dup, Mem};
use std::alloc::Global;

/// A value at a place of a source text. Comparisons and hashes leave the place out.
#[derive(Debug, Drop)]
#[derive_where(PartialEq, Eq, PartialOrd, Ord, Hash; T)]
pub struct Node<T> {
    /// The value.
    pub node: T,
    /// Its place.
    #[derive_where(skip(EqHashOrd))]
    pub loc: Loc,
}

impl<T> Node<T> {
    /// The value at the place.
    pub fn with_source_loc(node: T, loc: Loc) -> Node<T>
        ensures node { result.node ≡ node }
        ensures loc { result.loc ≡ loc }
    {
        Node { node, loc }
    }

    /// The value and its place.
    pub fn into_inner(self) -> (T, Loc)
        ensures node { result.0 ≡ self.node }
        ensures loc { result.1 ≡ self.loc }
    {
        let Node { node, loc } = self;
        (node, loc)
    }

    /// What `f` gives of the value, at the same place.
    pub fn map<U, F: FnOnce(T) -> U>(self, f: F) -> Node<U>
        requires { F.pre f self.node }
        ensures node { F.post f self.node result.node }
        ensures loc { result.loc ≡ self.loc }
    {
        let Node { node, loc } = self;
        Node { node: f(node), loc }
    }
}

impl<T: Dup> Dup for Node<T> {
    fn dup(&self, alloc: Global) -> Mem<Node<T>> {
        let loc = self.loc.dup(alloc)?;
        let node = self.node.dup(alloc)?;
        Ok(Node { node, loc })
    }
}
