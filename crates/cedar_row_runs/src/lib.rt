// SPDX-License-Identifier: Apache-2.0
//! The verbs of rows that run the program, over streams in memory that behave as the row says:
//! `run` once, and `sweep` once for each call of a stream that fails in turn. Nothing is promised
//! of the answers but that they come; the rows say what they have to be.
#![tactic(auto)]

mod running;
mod sweeping;

use cedar_data::Mem;
use cedar_row_files::{Answer, Row};
use std::alloc::Global;

/// What a row answers whose verb runs the program; none where the verb is another.
pub fn answer(alloc: Global, row: &Row) -> Mem<Option<Answer>> {
    let answer = match row.verb.as_str() {
        "run" => running::answer(alloc, row)?,
        "sweep" => sweeping::answer(alloc, row)?,
        _ => return Ok(None),
    };
    Ok(Some(answer))
}
