// SPDX-License-Identifier: Apache-2.0
use crate::running::run_line;
use cedar_data::Mem;
use cedar_row_files::{Answer, Row, decimal};
use std::alloc::Global;

/// Which calls fail in turn: of this stream, so many, each in a run of its own with these words.
#[derive(Clone, Copy)]
struct Sweep<'a> {
    stream: &'a str,
    count: u64,
    line: &'a str,
}

/// The sweep that words ask for.
fn sweep_of(words: &str) -> Sweep<'_> {
    let (stream, rest) = words.split_once(' ').unwrap_or(("", ""));
    let (count, line) = rest.split_once(' ').unwrap_or((rest, ""));
    Sweep {
        stream,
        count: decimal(count).unwrap_or(0),
        line,
    }
}

/// What the program answers where one call of a stream fails, for each of its first calls: a line for all calls in a row
/// that end alike.
pub fn answer(alloc: Global, row: &Row) -> Mem<Answer> {
    let sweep = sweep_of(row.words.as_str());
    let whole = run_line(alloc, sweep.line, row.input.bytes(), &row.streams)?;
    let lines = swept(alloc, row, sweep, &whole)?;
    Answer::new(alloc, whole.end.as_str(), lines.as_bytes(), b"")
}

fn swept(alloc: Global, row: &Row, sweep: Sweep<'_>, whole: &Answer) -> Mem<String> {
    let mut ends = Ends::new(alloc);
    for call in 1..sweep.count.saturating_add(1) {
        let said = said_of(alloc, row, sweep, call, whole)?;
        ends.add(alloc, call, said)?;
    }
    ends.flush(alloc)?;
    Ok(ends.lines)
}

/// What is said of the run in which just this call fails.
fn said_of(alloc: Global, row: &Row, sweep: Sweep<'_>, call: u64, whole: &Answer) -> Mem<String> {
    let streams = row.streams.failing(alloc, sweep.stream, call)?;
    let cut = run_line(alloc, sweep.line, row.input.bytes(), &streams)?;
    said(alloc, &cut, whole, moved_before(call, streams.most))
}

/// How many bytes the calls before this one move, each as many as it may.
fn moved_before(call: u64, most: usize) -> u64 {
    let calls = call.saturating_sub(1);
    calls.saturating_mul(u64::try_from(most).unwrap_or(u64::MAX))
}

/// How calls ended so far.
#[derive(Drop)]
struct Ends {
    lines: String,
    first: u64,
    last: u64,
    said: String,
}

impl Ends {
    fn new(alloc: Global) -> Ends {
        Ends {
            lines: String::new(alloc),
            first: 1,
            last: 0,
            said: String::new(alloc),
        }
    }

    /// Adds a call that ended so.
    fn add(&mut self, alloc: Global, call: u64, said: String) -> Mem<()> {
        if said.as_str() != self.said.as_str() {
            self.flush(alloc)?;
            self.first = call;
            self.said = said;
        }
        self.last = call;
        Ok(())
    }

    /// Writes the line of the last calls, where there are any.
    fn flush(&mut self, alloc: Global) -> Mem<()> {
        if self.first <= self.last {
            let said = self.said.as_str();
            let line = format!(in alloc; "{}..{} {said}\n", self.first, self.last)?;
            self.lines.push_str(line.as_str())?;
        }
        Ok(())
    }
}

/// How an answer compares with the answer where no call fails, if the calls before move so many bytes.
fn said(alloc: Global, cut: &Answer, whole: &Answer, before: u64) -> Mem<String> {
    let end = cut.end.as_str();
    let out = written(cut.out.as_slice(), whole.out.as_slice(), before);
    let err = written(cut.err.as_slice(), whole.err.as_slice(), before);
    Ok(format!(in alloc; "{end}, out {out}, err {err}")?)
}

/// How bytes that were written compare with the whole: `cut` are its first bytes, as many as the calls before move.
fn written(cut: &[u8], whole: &[u8], before: u64) -> &'static str {
    if cut.is_empty() {
        "none"
    } else if cut == whole {
        "whole"
    } else if !whole.starts_with(cut) {
        "other"
    } else if u64::try_from(cut.len()).unwrap_or(u64::MAX) == before {
        "cut"
    } else {
        "begun"
    }
}
