// SPDX-License-Identifier: Apache-2.0
//! Verbs of rows on written names: what a name may stand for, and which ids common types may have. Nothing is promised
//! of the answers but that they come; the rows say what they have to be.
#![tactic(auto)]

mod id_lines;
mod possibility_lines;

use cedar_data::Mem;
pub use id_lines::common_type_id;
pub use possibility_lines::possibilities;
use std::alloc::Global;

/// What the verb of this name answers to the words behind it and to an input; none where there is no such verb.
pub fn answer(alloc: Global, verb: &str, words: &[&str], input: &str) -> Mem<Option<String>> {
    let lines = match verb {
        "common-type-id" => common_type_id(alloc, input)?,
        "possibilities" => possibilities(alloc, words, input)?,
        _ => return Ok(None),
    };
    Ok(Some(lines))
}
