// SPDX-License-Identifier: Apache-2.0
//! Laws: what is written of a fragment, in JSON and in the human syntax, goes by what is seen of it.
#![tactic(auto)]

mod laws;

pub use laws::{json_of_seen, text_of_seen};
