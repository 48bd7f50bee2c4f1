// SPDX-License-Identifier: Apache-2.0
//! The resolved types of an accepted schema: what a type means once each name in it is an entity
//! type, an extension type or a primitive. And the transitive closure of nodes with keys, passed on from `cedar_closure`.
#![tactic(auto)]

mod ty;
mod value;

pub use cedar_closure::{
    Annotations, Dup, Eid, EntityType, EntityUID, InternalName, Items, Loc, Map, Mem, Name,
    NonEmpty, Out, ReservedNameError, SetIter, TcError, TcKey, TcNode, Text, UnreservedId,
    close_map, compute_tc, dup_four, dup_three, dup_two,
};
pub use ty::{AttrIter, AttributeType, Attributes, OpenTag, ResolvedType as Type, TypeView};
pub use value::{CedarValueJson, ValueList, ValueListIter, ValueMap, ValueMapIter};
