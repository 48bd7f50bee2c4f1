// SPDX-License-Identifier: Apache-2.0
//! Verbs of rows on the schema or the definitions of a text, what of them is told in crates below; and on single calls
//! around schemas: errors that are joined, the schema of one namespace by itself, and one type that is unfolded by
//! itself. Nothing is promised of the answers but that they come; the rows say what they have to be.
#![tactic(auto)]

mod all_errors;
mod declared;
mod queried;
mod two_attributes;
mod unnamed;

pub use all_errors::joined_errors;
use cedar_data::Mem;
pub use declared::{definitions, full_names};
pub use queried::{checked, queries};
use std::alloc::Global;
pub use two_attributes::two_longs;
pub use unnamed::unnamed_queries;

/// What the verb of this name answers to the words behind it and to an input; none where there is
/// no such verb.
pub fn answer(alloc: Global, verb: &str, words: &[&str], input: &str) -> Mem<Option<String>> {
    let lines = match verb {
        "checked" => checked(alloc, words, input),
        "definitions" => definitions(alloc, words, input),
        "full-names" => full_names(alloc, words, input),
        "joined-errors" => joined_errors(alloc, input),
        "queries" => queries(alloc, words, input),
        "two-longs" => two_longs(alloc, input),
        "unnamed-queries" => unnamed_queries(alloc, words, input),
        _ => return Ok(None),
    };
    Ok(Some(lines?))
}
