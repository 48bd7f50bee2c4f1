// SPDX-License-Identifier: Apache-2.0
use crate::holding::{all_hold, is_copied};
use cedar_data::Dup;
use cedar_streams::{
    MemSink, MemSource, ReadStop, Sink, SinkFailed, Source, SourceFailed, SureSource, read_all,
};
use std::alloc::Global;
use std::test::Fail;

/// The bytes `abc`.
fn bytes(alloc: Global) -> Option<Vec<u8>> {
    Vec::from_slice(alloc, b"abc").ok()
}

/// A source of these bytes, two at a call, whose second call fails.
fn source(alloc: Global) -> Option<MemSource> {
    let bytes = bytes(alloc)?;
    let failing = vec![in alloc; 2u64].ok()?;
    Some(MemSource::new(bytes, 2, failing))
}

/// What a source answers to its first call; a copy of it to two calls then, with the byte that it gives last; and the
/// source to its own second call.
fn read(alloc: Global, mut source: MemSource) -> Option<([Result<usize, SourceFailed>; 4], u8)> {
    let mut buf = [0u8; 4];
    let first = source.read(&mut buf);
    let mut copy = source.dup(alloc).ok()?;
    let second = copy.read(&mut buf);
    let third = copy.read(&mut buf);
    Some(([first, second, third, source.read(&mut [0u8; 4])], buf[0]))
}

fn is_source_copied(alloc: Global) -> bool {
    let answers = [Ok(2), Err(SourceFailed), Ok(1), Err(SourceFailed)];
    match source(alloc) {
        Some(source) => read(alloc, source) == Some((answers, b'c')),
        None => false,
    }
}

/// A sink of three bytes, up to nine at a call, whose second call fails.
fn sink(alloc: Global) -> Option<MemSink> {
    let failing = vec![in alloc; 2u64].ok()?;
    MemSink::new(alloc, 9, 3, failing).ok()
}

/// What a sink answers to `ab`, and a copy of it then to `cd` twice.
fn wrote(sink: &mut MemSink, copy: &mut MemSink) -> [Result<usize, SinkFailed>; 2] {
    let second = copy.write(b"cd");
    let third = copy.write(b"cd");
    if sink.bytes() == b"ab".as_slice() && copy.bytes() == b"abc".as_slice() {
        [second, third]
    } else {
        [Ok(0), Ok(0)]
    }
}

fn is_sink_copied(alloc: Global) -> bool {
    let Some(mut sink) = sink(alloc) else {
        return false;
    };
    let first = sink.write(b"ab");
    match sink.dup(alloc) {
        Ok(mut copy) => first == Ok(2) && wrote(&mut sink, &mut copy) == [Err(SinkFailed), Ok(1)],
        Err(_) => false,
    }
}

/// What a copy of a source that never fails gives.
fn sure(alloc: Global) -> Option<Vec<u8>> {
    let sure = SureSource::new(bytes(alloc)?);
    let mut copy = sure.dup(alloc).ok()?;
    read_all(alloc, &mut copy, 3).ok()
}

fn is_sure_copied(alloc: Global) -> bool {
    match sure(alloc) {
        Some(bytes) => bytes.as_slice() == b"abc".as_slice(),
        None => false,
    }
}

#[test]
fn copies(rt: HostRuntime) -> Result<(), Fail> {
    let alloc = rt.alloc();
    all_hold(&[
        ("a source is copied", is_source_copied(alloc)),
        ("a sink is copied", is_sink_copied(alloc)),
        ("a sure source is copied", is_sure_copied(alloc)),
        ("a failed source", is_copied(alloc, Some(SourceFailed))),
        ("a failed sink", is_copied(alloc, Some(SinkFailed))),
        ("too long", is_copied(alloc, Some(ReadStop::TooLong))),
    ])
}
