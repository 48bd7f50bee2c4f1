// SPDX-License-Identifier: Apache-2.0
//! Verbs of rows on the human syntax: what the parser says of a text, and the trees that it makes of it, as lines of
//! text. Places are in bytes.
#![tactic(auto)]

mod declared_names;
mod each_word;
mod lexing;
mod lines;
mod pieces;
mod schema_pieces;
mod telling;
mod types;

use cedar_data::Mem;
pub use declared_names::names;
pub use each_word::each;
pub use lexing::syntax_tokens;
pub use lines::{Lines, line_of};
pub use pieces::add_annotations;
use std::alloc::Global;
pub use telling::{refusal_line, rule_told, tell, tree};

/// What the verb of this name answers to the words behind it and to an input; none where there is no such verb.
pub fn answer(alloc: Global, verb: &str, words: &[&str], input: &str) -> Mem<Option<String>> {
    let lines = match verb {
        "each" => each(alloc, words, input),
        "names" => names(alloc, input),
        "syntax-tokens" => syntax_tokens(alloc, input),
        "tell" => tell(alloc, input),
        "tree" => tree(alloc, input),
        _ => return Ok(None),
    };
    Ok(Some(lines?))
}
