// SPDX-License-Identifier: Apache-2.0
//! Laws: each value and each text is well formed as a schema in JSON, or there is a refusal of it.
#![tactic(auto)]

mod laws;

pub use laws::{refusals_told_are_causes, well_formed_json_or_caused};
