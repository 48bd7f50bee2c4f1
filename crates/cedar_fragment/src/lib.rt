// SPDX-License-Identifier: Apache-2.0
//! Schemas as fragments: the declarations of each namespace, generic in the names that stand in them,
//! with the full names that a written name may stand for; and the faults of a schema in JSON.
#![tactic(auto)]

mod action_calls;
mod action_display;
mod action_uid;
mod attributes_or_context;
mod definition_copies;
mod definitions;
mod display;
mod laws;
mod namespace_display;
mod qualified;
mod walked;

pub use action_uid::ActionEntityUID;
pub use attributes_or_context::AttributesOrContext;
pub use cedar_json_fault::{
    CommonTypeId, ConditionalName, JsonDeserializationAdvice, JsonDeserializationError, JsonFault,
    JsonKind, JsonShape, NameKind, Never, Qualifying, RawName, RecordType, RefName, ReferenceType,
    ReservedCommonTypeBasenameError, SchemaType, Step, Type, TypeOfAttribute, TypeVariant, Walk,
    type_or_action, walk_names, walk_unrefused,
};
pub use cedar_types::{
    Attributes, CedarValueJson, TcError, ValueList, ValueListIter, ValueMap, ValueMapIter,
};
pub use definitions::{
    ActionType, ApplySpec, CommonType, EntityType, EntityTypeKind, Fragment, NamespaceDefinition,
    StandardEntityType,
};
pub use laws::namespaces_are_walked_in_order;
