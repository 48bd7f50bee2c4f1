// SPDX-License-Identifier: Apache-2.0
use cedar_data::Mem;
use cedar_row_files::{Answer, Row, Streams};
use cedar_schema_tool::{MemSink, MemSource, Status, run};
use std::alloc::Global;

/// What the program answers, over streams in memory that behave as the row says.
pub fn answer(alloc: Global, row: &Row) -> Mem<Answer> {
    run_line(alloc, row.words.as_str(), row.input.bytes(), &row.streams)
}

/// What the program answers to the words of a line and to an input.
pub fn run_line(alloc: Global, line: &str, input: &[u8], streams: &Streams) -> Mem<Answer> {
    let words = words_of(alloc, line)?;
    let source = source_of(alloc, input, streams)?;
    let out = sink_of(alloc, streams, streams.fail_out.as_slice())?;
    let err = sink_of(alloc, streams, streams.fail_err.as_slice())?;
    run_over(alloc, words.as_slice(), source, out, err)
}

/// The words of a line.
fn words_of(alloc: Global, line: &str) -> Mem<Vec<String>> {
    let mut words = Vec::new(alloc);
    for word in line.split_whitespace() {
        words.push(String::from_str(alloc, word)?)?;
    }
    Ok(words)
}

/// A source of these bytes.
fn source_of(alloc: Global, input: &[u8], streams: &Streams) -> Mem<MemSource> {
    let failing = streams.fail_read.clone()?;
    let input = Vec::from_slice(alloc, input)?;
    Ok(MemSource::new(input, streams.most, failing))
}

/// A sink of which these calls fail.
fn sink_of(alloc: Global, streams: &Streams, failing: &[u64]) -> Mem<MemSink> {
    let failing = Vec::from_slice(alloc, failing)?;
    Ok(MemSink::new(alloc, streams.most, streams.room, failing)?)
}

/// What the program answers over these streams.
fn run_over(
    alloc: Global,
    words: &[String],
    mut source: MemSource,
    mut out: MemSink,
    mut err: MemSink,
) -> Mem<Answer> {
    let status = run(alloc, words, &mut source, &mut out, &mut err);
    answer_of(alloc, status, out.bytes(), err.bytes())
}

fn answer_of(alloc: Global, status: Status, out: &[u8], err: &[u8]) -> Mem<Answer> {
    let end = format!(in alloc; "{status:?}")?;
    Answer::new(alloc, end.as_str(), out, err)
}
