// SPDX-License-Identifier: Apache-2.0
//! Verbs of rows on the conversion of schemas: the fragment that a text declares, or all that is
//! wrong with it, as lines of text with places in bytes; the warnings of its names; each namespace
//! and each type by itself; and the first of some names that is repeated. Nothing is promised of
//! the answers but that they come; the rows say what they have to be.
#![tactic(auto)]

mod pieces;
mod repeats;
mod telling;

use cedar_data::Mem;
pub use pieces::by_pieces;
pub use repeats::first_repeat;
use std::alloc::Global;
pub use telling::{fragment, warnings};

/// What the verb of this name answers to the words behind it and to an input; none where there is
/// no such verb.
pub fn answer(alloc: Global, verb: &str, words: &[&str], input: &str) -> Mem<Option<String>> {
    let lines = match verb {
        "by-pieces" => by_pieces(alloc, input)?,
        "first-repeat" => first_repeat(alloc, input)?,
        "fragment" => fragment(alloc, words, input)?,
        "warnings" => warnings(alloc, input)?,
        _ => return Ok(None),
    };
    Ok(Some(lines))
}
