// SPDX-License-Identifier: Apache-2.0
//! Names of the Cedar schema language: words and identifiers, qualified names, entity types, and
//! places in a source text.
#![tactic(auto)]

mod annotation;
mod any_id;
mod components;
mod entity_uid;
mod extensions;
mod id;
mod internal_name;
mod laws;
mod name;
mod namespace;
mod normal_name;

pub use annotation::{Annotation, AnnotationIter, Annotations};
pub use any_id::AnyId;
pub use cedar_text::{
    BadEscape, Boxed, Dup, Escaped, EscapedByte, Failure, Items, Loc, Map, MapIter, MapKeys, Mem,
    NameFault, Near, NoMemory, Node, NonEmpty, NonEmptyIter, Out, Set, SetIter, Shared, Span, Text,
    dup_four, dup_three, dup_two, escape, is_cedar, literal_makes_an_entity, unescape,
    unescape_undoes_escape, words_make_a_name,
};
pub use components::Components;
pub use entity_uid::{Eid, EntityUID};
pub use extensions::{ExtIter, Extensions, ExtensionsFault};
pub use id::{Id, UnreservedId};
pub use internal_name::{IdIter, InternalName, ReservedNameError};
pub use laws::{faultless_writes_an_entity, one_id_of_a_word};
pub use name::{EntityType, Name};
pub use namespace::Namespace;
