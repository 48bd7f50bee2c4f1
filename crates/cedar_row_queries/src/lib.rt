// SPDX-License-Identifier: Apache-2.0
//! What the queries of a schema answer, and two small checkers on them, told as lines; how names and types are told, for
//! crates of verbs; and the verb of rows on schemas that are made of lines.
#![tactic(auto)]

mod bracketed;
mod checking;
mod made_schemas;
mod queried_actions;
mod queried_schemas;
mod queried_types;
mod types;

pub use bracketed::{Bracketed, types_told};
use cedar_data::Mem;
pub use checking::checked;
pub use made_schemas::made_queries;
pub use queried_schemas::queries;
use std::alloc::Global;
pub use types::{add_attributes, add_view};

/// What the verb of this name answers to an input; none where there is no such verb.
pub fn answer(alloc: Global, verb: &str, words: &[&str], input: &str) -> Mem<Option<String>> {
    match verb {
        "made-queries" => Ok(Some(made_queries(alloc, words, input)?)),
        _ => Ok(None),
    }
}
