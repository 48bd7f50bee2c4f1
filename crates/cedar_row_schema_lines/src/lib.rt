// SPDX-License-Identifier: Apache-2.0
//! How a text's schema is made, and how its errors are told as lines, for crates of verbs. It has no verb.
#![tactic(auto)]

mod schema_errors;

pub use cedar_row_queries::{Bracketed, add_attributes, add_view, types_told};
pub use cedar_schema::{CedarSchemaError, FragmentText, FromFragment};
pub use schema_errors::{error_told, schema_error, schema_of};
