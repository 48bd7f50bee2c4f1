// SPDX-License-Identifier: Apache-2.0
//! What each command answers to a text: what it makes of the text, or why it refuses it.
#![tactic(auto)]

mod answering;
mod output;
mod report;
mod resolve_json;
mod review;
mod to_cedar;
mod to_json;

pub use answering::answer_text;
pub use cedar_listing::{write_counts, write_listing};
