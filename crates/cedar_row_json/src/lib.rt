// SPDX-License-Identifier: Apache-2.0
//! Verbs of rows on schemas in JSON: what is first wrong with one, and what is written of one that was read. Nothing is
//! promised of the answers but that they come; the rows say what they have to be.
#![tactic(auto)]

mod fault_lines;
mod nested_values;
mod shapes;
mod written_lines;

use cedar_data::Mem;
pub use fault_lines::json_fault;
pub use nested_values::nested;
use std::alloc::Global;
pub use written_lines::to_json;

/// What the verb of this name answers to the words behind it and to an input; none where there is no such verb.
pub fn answer(alloc: Global, verb: &str, words: &[&str], input: &str) -> Mem<Option<String>> {
    let lines = match verb {
        "json-fault" => json_fault(alloc, words, input)?,
        "nested" => nested(alloc, words)?,
        "to-json" => to_json(alloc, words, input)?,
        _ => return Ok(None),
    };
    Ok(Some(lines))
}
