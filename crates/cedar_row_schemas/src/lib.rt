// SPDX-License-Identifier: Apache-2.0
//! Verbs of rows on schemas: copies, the errors with which texts are refused, several texts at
//! once, schemas of values in JSON, and values of attributes of actions.
#![tactic(auto)]

mod copied_schemas;
mod hand_built;
mod json_values;
mod lists;
mod values;

use cedar_data::Mem;
use cedar_row_schema_lines::schema_error;
pub use copied_schemas::schema_copies;
pub use hand_built::beside;
pub use json_values::from_value;
pub use lists::several;
use std::alloc::Global;
pub use values::action_values;

/// What the verb of this name answers to an input; none where there is no such verb.
pub fn answer(alloc: Global, verb: &str, words: &[&str], input: &str) -> Mem<Option<String>> {
    let lines = match verb {
        "action-values" => action_values(alloc, input),
        "beside" => beside(alloc, words, input),
        "from-value" => from_value(alloc, words, input),
        "schema-copies" => schema_copies(alloc, input),
        "schema-error" => schema_error(alloc, input),
        "several" => several(alloc, input),
        _ => return Ok(None),
    };
    Ok(Some(lines?))
}
