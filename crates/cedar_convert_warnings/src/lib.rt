// SPDX-License-Identifier: Apache-2.0
//! Warnings of declared names that hide others.
#![tactic(auto)]

mod merging;
mod shadowing;
mod warnings;

pub use cedar_convert_faults::{
    DuplicateAttribute, DuplicateContext, DuplicateDeclarations, DuplicateNamespace,
    DuplicatePrincipalOrResource, Gathered, NO_PR_HELP_MSG, NoPrincipalOrResource, ReservedName,
    ReservedSchemaKeyword, ToJsonSchemaError, ToJsonSchemaErrors, UnknownTypeName, gather,
    schema_faults,
};
pub use shadowing::schema_warnings;
pub use warnings::{SchemaWarning, ShadowsBuiltinWarning, ShadowsEntityWarning};
