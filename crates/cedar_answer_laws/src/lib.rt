// SPDX-License-Identifier: Apache-2.0
//! Laws: what a command makes of a text is one text, and so is what it tells of a text that it refuses.
#![tactic(auto)]

mod laws;

pub use laws::{one_due, one_told};
