// SPDX-License-Identifier: Apache-2.0
//! Schemas, in one crate for their users: a schema is made from a text, from JSON, from a fragment or from definitions,
//! and asked about its entity types, its actions and its request environments. It has no code of its own. The laws of
//! schemas stand in crates of their own, such as `cedar_reread_laws`, of what is printed, and `cedar_resolving_laws`.
#![tactic(auto)]

pub use cedar_phases::FromSchemaFragments;
pub use cedar_resolved::{
    ActionIter, ActionKeyIter, AncestorIter, Entity, EntityIter, EntityKeyIter, EnvIter, GroupIter,
    PrincipalIter, RequestEnv, ResourceIter, StandardValidatorEntityType, ValidatorActionId,
    ValidatorEntityType, ValidatorEntityTypeKind, ValidatorSchema,
};
pub use cedar_schema::{FragmentText, FromCedarSchema, FromFragment};
pub use cedar_schema_errors::{
    CedarSchemaError, CedarSchemaParseError, CedarSchemaParseErrors, SchemaError, SchemaWarning,
    parse_cedar_schema_fragment,
};
pub use cedar_schema_json::SchemaJson;
