// SPDX-License-Identifier: Apache-2.0
//! Writing of schemas in JSON: the value of a fragment and of each of its parts, in which members stand only where they
//! say something, and the text of a fragment.
#![tactic(auto)]

mod actions;
mod collections;
mod entities;
mod fields;
mod names;
mod namespaces;
mod text;
mod to_json;
mod types;
mod values;

pub use text::fragment_text;
pub use to_json::ToJson;
