// SPDX-License-Identifier: Apache-2.0
//! Why a text or a fragment becomes no schema: it can't be parsed, or what it declares is at fault.
#![tactic(auto)]

mod parse_error;
mod schema_error;

pub use cedar_convert_text::{CedarSchemaParseErrors, SchemaWarning, parse_cedar_schema_fragment};
pub use cedar_schema_error::SchemaError;
pub use parse_error::CedarSchemaParseError;
pub use schema_error::CedarSchemaError;
