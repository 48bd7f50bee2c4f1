// SPDX-License-Identifier: Apache-2.0
//! From the tree of a schema to the fragment that it declares, with warnings; or to all that is wrong
//! with it.
#![tactic(auto)]

mod converting;

pub use cedar_convert_namespaces::{
    Fragment, RawName, cedar_type_to_json_type, from_annotated_namespace, primitive_to_variant,
    raw_name_from_path,
};
pub use cedar_convert_warnings::{
    DuplicateAttribute, DuplicateContext, DuplicateDeclarations, DuplicateNamespace,
    DuplicatePrincipalOrResource, NO_PR_HELP_MSG, NoPrincipalOrResource, ReservedName,
    ReservedSchemaKeyword, SchemaWarning, ShadowsBuiltinWarning, ShadowsEntityWarning,
    ToJsonSchemaError, ToJsonSchemaErrors, UnknownTypeName,
};
pub use converting::cedar_schema_to_json_schema;
