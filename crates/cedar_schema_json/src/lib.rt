// SPDX-License-Identifier: Apache-2.0
//! From schemas in JSON, as values and as texts, to the schemas that they denote; or to why they denote none.
#![tactic(auto)]

mod laws;
mod schemas;

pub use cedar_json::FragmentJson;
pub use cedar_schema::{CedarSchemaError, FragmentText, FromCedarSchema};
pub use laws::{one_json_cause, one_json_schema, some_json_schema, well_formed_json_or_refused};
pub use schemas::SchemaJson;
