// SPDX-License-Identifier: Apache-2.0
use crate::shapes::{Reading, reading_of};
use cedar_data::Mem;
use cedar_json_fault::{JsonDeserializationError, JsonFault};
use std::alloc::Global;

/// `json-fault [SHAPE]`: the first fault of the input as that shape, the numbers that it keeps, the
/// keys and places that lead to it, a line each, what to do about it, and each place in the text where it has one.
pub fn json_fault(alloc: Global, words: &[&str], input: &str) -> Mem<String> {
    let reading = reading_of(alloc, words, input)?;
    reading_told(alloc, &reading)
}

/// The fault of what was read, if it has one.
pub(crate) fn reading_told(alloc: Global, reading: &Reading) -> Mem<String> {
    match reading {
        Reading::Written(_) => Ok(String::from_str(alloc, "none\n")?),
        Reading::Faulty(error) => told(alloc, error),
        Reading::Unread => Ok(String::from_str(alloc, "not read\n")?),
    }
}

fn told(alloc: Global, error: &JsonDeserializationError) -> Mem<String> {
    let mut lines = format!(in alloc; "{error}\n")?;
    if let JsonFault::RepeatedKey { colons, members } = error.fault() {
        let line = format!(in alloc; "{colons} colons, {members} members\n")?;
        lines.push_str(line.as_str())?;
    }
    for key in error.path() {
        let line = format!(in alloc; "at {key}\n")?;
        lines.push_str(line.as_str())?;
    }
    if let Some(help) = error.help(alloc)? {
        let line = format!(in alloc; "help: {help}\n")?;
        lines.push_str(line.as_str())?;
    }
    for place in error.spans(alloc)?.as_slice() {
        let line = format!(in alloc; "place {}..{}\n", place.start, place.end)?;
        lines.push_str(line.as_str())?;
    }
    Ok(lines)
}
