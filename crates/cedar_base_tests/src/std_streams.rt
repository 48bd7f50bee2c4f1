// SPDX-License-Identifier: Apache-2.0
use crate::breaking::Breaking;
use crate::holding::all_hold;
use cedar_data::Dup;
use cedar_streams::{
    ReadStop, Sink, SinkFailed, Source, SourceFailed, StdSink, StdSource, read_all, write_all,
};
use std::alloc::Global;
use std::test::Fail;

/// A source over a stream that moves so many bytes.
fn source(calls: u64, fails: bool) -> StdSource<Breaking> {
    StdSource::new(Breaking { calls, fails })
}

/// A sink over a stream that moves so many bytes.
fn sink(calls: u64, fails: bool) -> StdSink<Breaking> {
    StdSink::new(Breaking { calls, fails })
}

/// What reading gives, up to a limit: how many bytes, or why it stopped; and what the next call of the source answers.
fn read(
    alloc: Global,
    mut source: StdSource<Breaking>,
    limit: usize,
) -> (Result<usize, ReadStop>, Result<usize, SourceFailed>) {
    let text = match read_all(alloc, &mut source, limit) {
        Ok(text) => Ok(text.len()),
        Err(stop) => Err(stop),
    };
    (text, source.read(&mut [0u8; 4]))
}

#[test]
fn reading(rt: HostRuntime) -> Result<(), Fail> {
    let alloc = rt.alloc();
    let (stop, again) = read(alloc, source(3, true), 9);
    let (long, _) = read(alloc, source(3, true), 2);
    let (text, _) = read(alloc, source(3, false), 3);
    all_hold(&[
        ("a read that fails", stop == Err(ReadStop::Fault)),
        ("it fails again", again == Err(SourceFailed)),
        ("too long before it fails", long == Err(ReadStop::TooLong)),
        ("a read to the end", text == Ok(3)),
    ])
}

/// What a sink answers to `ab`, to `c` and to nothing, each written whole.
fn wrote(mut sink: StdSink<Breaking>) -> [Result<(), SinkFailed>; 3] {
    let first = write_all(&mut sink, b"ab");
    let second = write_all(&mut sink, b"c");
    let third = write_all(&mut sink, b"");
    [first, second, third]
}

/// What a sink answers to a call with `a` and to one with nothing; and how its stream stands then.
fn took(mut sink: StdSink<Breaking>) -> ([Result<usize, SinkFailed>; 2], u64, bool) {
    let answers = [sink.write(b"a"), sink.write(b"")];
    let Breaking { calls, fails } = sink.into_inner();
    (answers, calls, fails)
}

/// What a copy of a source answers to two calls.
fn copied_source(alloc: Global) -> Option<[Result<usize, SourceFailed>; 2]> {
    let mut copy = source(1, true).dup(alloc).ok()?;
    let first = copy.read(&mut [0u8; 4]);
    Some([first, copy.read(&mut [0u8; 4])])
}

/// What a copy of a sink answers to two calls.
fn copied_sink(alloc: Global) -> Option<[Result<usize, SinkFailed>; 2]> {
    let mut copy = sink(1, true).dup(alloc).ok()?;
    let first = copy.write(b"ab");
    Some([first, copy.write(b"ab")])
}

/// A copy breaks where its source does.
#[test]
fn writing_and_copies(rt: HostRuntime) -> Result<(), Fail> {
    let alloc = rt.alloc();
    let failing = wrote(sink(2, true));
    let nothing = took(sink(0, false));
    let wanted = ([Err(SinkFailed), Ok(0)], 0, false);
    let read = copied_source(alloc);
    let wrote = copied_sink(alloc);
    all_hold(&[
        (
            "a write that fails",
            failing == [Ok(()), Err(SinkFailed), Ok(())],
        ),
        ("a write that takes nothing", nothing == wanted),
        (
            "a source is copied",
            read == Some([Ok(1), Err(SourceFailed)]),
        ),
        ("a sink is copied", wrote == Some([Ok(1), Err(SinkFailed)])),
    ])
}
