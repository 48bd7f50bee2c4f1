// SPDX-License-Identifier: Apache-2.0
//! What is wrong with the tree of a schema that declares no fragment, with the text, the help and the
//! places of each fault.
#![tactic(auto)]

mod conversions;
mod copies;
mod errors;
mod faults;
mod texts;

pub use errors::ToJsonSchemaErrors;
pub use faults::{
    DuplicateAttribute, DuplicateContext, DuplicateDeclarations, DuplicateNamespace,
    DuplicatePrincipalOrResource, NoPrincipalOrResource, ReservedName, ReservedSchemaKeyword,
    ToJsonSchemaError, UnknownTypeName,
};
pub use texts::NO_PR_HELP_MSG;
