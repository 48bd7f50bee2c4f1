// SPDX-License-Identifier: Apache-2.0
//! The grammar of the human schema syntax, as definitions, and its laws.
#![tactic(auto)]

mod grammar;

pub use grammar::{
    grammar_viable, identifiers_read, levels_nest, one_reading, places_left_out, reading_finds,
};
