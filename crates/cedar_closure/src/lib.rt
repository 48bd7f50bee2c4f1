// SPDX-License-Identifier: Apache-2.0
//! The transitive closure of the edges between nodes with keys.
#![tactic(auto)]

mod closure;
mod key_graph;
mod reachable;
mod tc_error;
mod tc_node;

pub use cedar_names::{
    Annotations, Dup, Eid, EntityType, EntityUID, InternalName, Items, Loc, Map, MapIter, Mem,
    Name, NonEmpty, Out, ReservedNameError, SetIter, Shared, Text, UnreservedId, dup_four,
    dup_three, dup_two,
};
pub use closure::{close_map, compute_tc};
pub use tc_error::TcError;
pub use tc_node::{TcKey, TcNode};
