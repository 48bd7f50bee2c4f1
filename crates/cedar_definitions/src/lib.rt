// SPDX-License-Identifier: Apache-2.0
//! Definitions of namespaces under full names: their structures, copies and small calls.
#![tactic(auto)]

mod calls;
mod common_defs;
mod copies;
mod structures;
mod walks;

pub use calls::{ActionNameIter, CommonNameIter, EntityNameIter};
pub use cedar_fragment::{
    ActionEntityUID, ActionType, ApplySpec, AttributesOrContext, ConditionalName, EntityType,
    NamespaceDefinition, RecordType, ReferenceType, SchemaType, Step, TypeOfAttribute, TypeVariant,
    Walk, type_or_action,
};
pub use structures::{
    ActionFragment, ActionsDef, CommonTypeDefs, EntityTypeFragment, EntityTypesDef,
    ValidatorApplySpec, ValidatorNamespaceDef, ValidatorSchemaFragment,
};
pub use walks::{NamespaceIter, ParentIter};
