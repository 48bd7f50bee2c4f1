// SPDX-License-Identifier: Apache-2.0
//! Schemas in JSON: each structure is read from a JSON value exactly where the value has its shape, or refused with the
//! value's first fault and the keys that lead to it; a fragment also from a text. What is written of each.
#![tactic(auto)]

mod fragment_json;
mod from_json;

pub use cedar_json_write::{ToJson, fragment_text};
pub use fragment_json::FragmentJson;
pub use from_json::FromJson;
