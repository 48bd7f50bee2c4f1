// SPDX-License-Identifier: Apache-2.0
//! Verbs of rows on the calls of fragments: a fragment in the human syntax, how two fragments compare, ids that are
//! reserved, and parents of actions in a namespace. Nothing is promised of the answers but that they come; the rows
//! say what they have to be.
#![tactic(auto)]

mod comparing;
mod ids;
mod parents;
mod printing;

use cedar_data::Mem;
pub use comparing::compare_fragments;
pub use ids::unchecked_id;
pub use parents::parent;
pub use printing::print;
use std::alloc::Global;

/// What the verb of this name answers to the words behind it and to an input; none where there is no such verb.
pub fn answer(alloc: Global, verb: &str, words: &[&str], input: &str) -> Mem<Option<String>> {
    let lines = match verb {
        "compare-fragments" => compare_fragments(alloc, input)?,
        "parent" => parent(alloc, words, input)?,
        "print" => print(alloc, input)?,
        "unchecked-id" => unchecked_id(alloc, words, input)?,
        _ => return Ok(None),
    };
    Ok(Some(lines))
}
