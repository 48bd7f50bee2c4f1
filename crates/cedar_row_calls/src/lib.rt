// SPDX-License-Identifier: Apache-2.0
//! Verbs of rows on single calls of the human syntax: what lists of annotations, paths, errors, copies and generated
//! schemas answer.
#![tactic(auto)]

mod annotating;
mod copying;
mod error_lines;
mod generating;
mod paths;

pub use annotating::annotations;
use cedar_data::Mem;
pub use copying::{compare, copies, copy_line, printing};
pub use error_lines::errors;
pub use generating::generated;
pub use paths::path;
use std::alloc::Global;

/// What the verb of this name answers to the words behind it and to an input; none where there is no such verb.
pub fn answer(alloc: Global, verb: &str, words: &[&str], input: &str) -> Mem<Option<String>> {
    let lines = match verb {
        "annotations" => annotations(alloc, input),
        "compare" => compare(alloc, input),
        "copies" => copies(alloc, input),
        "generated" => generated(alloc, input),
        "parse-errors" => errors(alloc, input),
        "path" => path(alloc, words, input),
        _ => return Ok(None),
    };
    Ok(Some(lines?))
}
