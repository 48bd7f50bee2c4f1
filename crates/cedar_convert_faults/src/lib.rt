// SPDX-License-Identifier: Apache-2.0
//! From the tree of a schema to its namespaces, and all that is wrong with them.
#![tactic(auto)]

mod attributes;
mod bindings;
mod clauses;
mod declarations;
mod entities;
mod gathering;
mod repeats;

pub use attributes::leftmost_repeat;
pub use bindings::{Kind, names_in};
pub use cedar_convert_errors::{
    DuplicateAttribute, DuplicateContext, DuplicateDeclarations, DuplicateNamespace,
    DuplicatePrincipalOrResource, NO_PR_HELP_MSG, NoPrincipalOrResource, ReservedName,
    ReservedSchemaKeyword, ToJsonSchemaError, ToJsonSchemaErrors, UnknownTypeName,
};
pub use cedar_tree::{Annotated, Declaration, Path};
pub use declarations::{faults_among, schema_faults};
pub use entities::type_fault;
pub use gathering::{Gathered, gather};
pub use repeats::{Repeat, first_repeat, repeat_is_first};
