// SPDX-License-Identifier: Apache-2.0
//! From a text of the human syntax to the fragment that it declares, with warnings; or to why it declares
//! none.
#![tactic(auto)]

mod parsing;

pub use cedar_convert::{
    SchemaWarning, ShadowsBuiltinWarning, ShadowsEntityWarning, ToJsonSchemaError,
    ToJsonSchemaErrors, from_annotated_namespace,
};
pub use parsing::{CedarSchemaParseErrors, parse_cedar_schema_fragment};
