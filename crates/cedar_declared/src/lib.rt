// SPDX-License-Identifier: Apache-2.0
//! The declared names of a schema, and what each reference means among them.
#![tactic(auto)]

mod action_names;
mod all_defs;
mod fully_qualify;
mod gathered;
mod laws;
mod listed;
mod name_set;
mod recalled;
mod resolve;
mod resolving;
mod spaces;
mod type_names;

pub use all_defs::AllDefs;
pub use cedar_definitions::{
    ActionFragment, ActionsDef, CommonTypeDefs, EntityTypeFragment, EntityTypesDef,
    ValidatorApplySpec, ValidatorNamespaceDef, ValidatorSchemaFragment,
};
pub use cedar_schema_error::{
    ActionEntityUID, ActionNotDefinedError, AttributesOrContext, ConditionalName, RecordType,
    ReferenceType, SchemaError, SchemaType, Step, TypeNotDefinedError, TypeOfAttribute,
    TypeVariant, UndeclaredEntityTypesError, UsePlace,
};
pub use fully_qualify::FullyQualify;
pub use laws::what_is_found_is_the_target;
pub use resolve::ResolveName;
pub use resolving::{Resolving, unboxed};
