// SPDX-License-Identifier: Apache-2.0
//! Types as a schema writes them, generic in the names that stand in them: what a name may be, the
//! one walk over all names, and the full names that a written name may stand for.
#![tactic(auto)]

mod common_type_id;
mod conditional_name;
mod display;
mod laws;
mod qualified;
mod qualifying;
mod raw_name;
mod ref_name;
mod reference_type;
mod step;
mod ty;
mod type_calls;
mod type_copies;
mod walk;
mod walked;

pub use cedar_print::{
    Dup, EntityType, EntityUID, InternalName, Items, Loc, Map, MapKeys, Mem, NameFault, NonEmpty,
    Quoted, Set, SetIter, Span, Text, UnreservedId, dup_four, dup_three, dup_two,
    write_annotations, write_item, write_list, write_quoted_list,
};
pub use common_type_id::{CommonTypeId, ReservedCommonTypeBasenameError};
pub use conditional_name::ConditionalName;
pub use laws::types_are_walked_in_order;
pub use qualified::qualify_names;
pub use qualifying::{Never, Qualifying, type_or_action, walk_unrefused};
pub use raw_name::RawName;
pub use ref_name::RefName;
pub use reference_type::ReferenceType;
pub use step::Step;
pub use ty::{RecordType, SchemaType, SchemaType as Type, TypeOfAttribute, TypeVariant};
pub use walked::{Walk, walk_names};
