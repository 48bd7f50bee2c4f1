// SPDX-License-Identifier: Apache-2.0
//! Laws of texts that are schemas: how many brackets are open at a time follows from how deep types nest, so nothing need
//! be asked of brackets. Each is the contract of a function that does nothing.
#![tactic(auto)]

mod laws;

pub use laws::{few_brackets_open, tokens_make_a_text};
