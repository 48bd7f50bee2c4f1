// SPDX-License-Identifier: Apache-2.0
//! Verbs of rows on entities, requests and values in JSON against a schema, and on two schemas of
//! which one keeps the entities of the other. Nothing is promised of the answers but that they come; the rows
//! say what they have to be.
#![tactic(auto)]

mod conforming;
mod details;
mod fitting;
mod keeping;
mod values;

use cedar_data::Mem;
pub use conforming::{entities, entity_fault, request_fault};
pub use fitting::fits;
pub use keeping::{compat_fault, keeps_data};
use std::alloc::Global;
pub use values::reference;

/// What the verb of this name answers to the words behind it and to an input; none where there is
/// no such verb.
pub fn answer(alloc: Global, verb: &str, words: &[&str], input: &str) -> Mem<Option<String>> {
    let lines = match verb {
        "compat-fault" => compat_fault(alloc, input)?,
        "entities" => entities(alloc, input)?,
        "entity-fault" => entity_fault(alloc, input)?,
        "fits" => fits(alloc, words, input)?,
        "keeps-data" => keeps_data(alloc, input)?,
        "reference" => reference(alloc, input)?,
        "request-fault" => request_fault(alloc, input)?,
        _ => return Ok(None),
    };
    Ok(Some(lines))
}
