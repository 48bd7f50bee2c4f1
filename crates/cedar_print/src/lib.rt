// SPDX-License-Identifier: Apache-2.0
//! Printed text as a list of tokens with blanks between them: quoted texts, lists in brackets, annotations.
#![tactic(auto)]

mod annotations;
mod lists;
mod quoted;

pub use annotations::write_annotations;
pub use cedar_names::{
    Annotations, Boxed, Dup, EntityType, EntityUID, Failure, Id, InternalName, Items, Loc, Map,
    MapKeys, Mem, Name, NameFault, Namespace, NoMemory, NonEmpty, NonEmptyIter, Out, Set, SetIter,
    Span, Text, UnreservedId, dup_four, dup_three, dup_two,
};
pub use lists::{write_item, write_list, write_quoted_list};
pub use quoted::Quoted;
