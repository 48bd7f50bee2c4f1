// SPDX-License-Identifier: Apache-2.0
use cedar_data::Mem;
use cedar_row_files::{Answer, Row};
use std::alloc::Global;
use std::str;

/// What a row answers; none where its verb is unknown.
pub fn answer(alloc: Global, row: &Row) -> Mem<Option<Answer>> {
    match cedar_row_runs::answer(alloc, row)? {
        None => answer_in_text(alloc, row),
        answer => Ok(answer),
    }
}

/// The answer of a verb on texts, which is written as the first sink.
fn answer_in_text(alloc: Global, row: &Row) -> Mem<Option<Answer>> {
    match str::from_utf8(row.input.bytes()) {
        Ok(input) => lines_answered(alloc, row, input),
        Err(_) => Ok(Some(Answer::new(alloc, "NotUtf8", b"", b"")?)),
    }
}

fn lines_answered(alloc: Global, row: &Row, input: &str) -> Mem<Option<Answer>> {
    let words: Vec<&str> = row.words.as_str().split_whitespace().collect(alloc)?;
    match lines_of(alloc, row.verb.as_str(), words.as_slice(), input)? {
        Some(lines) => Ok(Some(Answer::new(alloc, "Done", lines.as_bytes(), b"")?)),
        None => Ok(None),
    }
}

/// Lines, where a crate of verbs knows the verb.
type Lines = Mem<Option<String>>;

/// What a verb on texts says, a line each. Each crate of verbs is asked, and one at most knows the
/// verb.
fn lines_of(alloc: Global, verb: &str, words: &[&str], input: &str) -> Lines {
    let lines = cedar_row_trees::answer(alloc, verb, words, input);
    let lines = either(lines, cedar_row_calls::answer(alloc, verb, words, input));
    let lines = either(lines, cedar_row_conform::answer(alloc, verb, words, input));
    let lines = either(lines, cedar_row_convert::answer(alloc, verb, words, input));
    let lines = either(
        lines,
        cedar_row_fragment_calls::answer(alloc, verb, words, input),
    );
    let lines = either(lines, cedar_row_json::answer(alloc, verb, words, input));
    let lines = either(lines, cedar_row_print::answer(alloc, verb, words, input));
    let lines = either(lines, cedar_row_schemas::answer(alloc, verb, words, input));
    let lines = either(lines, cedar_row_queries::answer(alloc, verb, words, input));
    let lines = either(
        lines,
        cedar_row_schema_calls::answer(alloc, verb, words, input),
    );
    either(lines, cedar_row_verbs::answer(alloc, verb, words, input))
}

/// The first answer where there is one, or else the second.
fn either(first: Lines, second: Lines) -> Lines {
    match first {
        Ok(None) => second,
        lines => lines,
    }
}
