// SPDX-License-Identifier: Apache-2.0
//! What may be wrong with a schema in JSON, where it is, and what is said of it.
#![tactic(auto)]

mod json_error;
mod json_fault;

pub use cedar_written::{
    CommonTypeId, ConditionalName, Never, Qualifying, Quoted, RawName, RecordType, RefName,
    ReferenceType, ReservedCommonTypeBasenameError, SchemaType, Step, Type, TypeOfAttribute,
    TypeVariant, Walk, qualify_names, type_or_action, walk_names, walk_unrefused,
    write_annotations, write_item, write_list, write_quoted_list,
};
pub use json_error::{JsonDeserializationAdvice, JsonDeserializationError};
pub use json_fault::{JsonFault, JsonKind, JsonShape, NameKind};
