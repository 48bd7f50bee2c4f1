// SPDX-License-Identifier: Apache-2.0
ghost use Rattle.std.specs.Prelude.{◌≡◌, ◌⊎◌, ◌<◌, None, Some, length, IfOk, OnOk, OnErr};
ghost use Rattle.std.specs.Borrow.{Lends, sem};
ghost use Rattle.std.specs.Io.{WritesAtMost};
ghost use Rattle.std.specs.Io.KnownBytes.{WriteAppends};
ghost use Rattle.cedar_streams.specs.Bytes.{WriteTakes};
ghost use Rattle.cedar_streams.specs.Faults.{HasCause, one_more};
ghost use Rattle.cedar_streams.specs.StdStreams.{sink_inner, sink_faults, sink_with_inner};
ghost use Rattle.cedar_streams.specs.contracts.std_sink.StdSink.{the_row};

use crate::sink::{Sink, SinkFailed};
use crate::writer::Writer;
use cedar_data::{Dup, Mem};
use std::alloc::Global;

/// A sink over a writer of std. It tells no bytes, and counts each error as a fault, and each write
/// that takes nothing of a piece that isn't empty.
#[derive(Drop)]
pub struct StdSink<W> {
    inner: W,
    faults: u64,
}

impl<W: Writer> StdSink<W> {
    /// A sink into this writer, which hasn't failed yet.
    pub fn new(inner: W) -> StdSink<W>
        ensures inner { sink_inner result ≡ inner }
        ensures faults { sink_faults result ≡ 0 }
    {
        StdSink { inner, faults: 0 }
    }

    /// The writer, as to flush it.
    pub fn get_mut(&mut self) -> &mut W
        ensures* writes_back { sem 𝓛
            (Lends (the_row W.row) W.row self.entry result (sink_with_inner self.old)) }
        ensures value { result.now ≡ sink_inner self.old }
    {
        &mut self.inner
    }

    /// The writer.
    pub fn into_inner(self) -> W
        ensures { result ≡ sink_inner self }
    {
        let StdSink { inner, faults: _ } = self;
        inner
    }
}

impl<W: Writer> Sink for StdSink<W> {
    ghost written = { λ _. None };

    ghost faults = { sink_faults };

    fn write(&mut self, piece: &[u8]) -> Result<usize, SinkFailed>
        ensures bound { WritesAtMost result piece.now }
        ensures progress { IfOk result (λ n. 0 < length piece.now → 0 < n) }
        ensures bytes { WriteTakes None None result piece.now }
        ensures cause { HasCause (sink_faults self.old) (sink_faults self.new) result }

        // One write to the writer. It failed, or took nothing of some bytes, where this one failed.
        ensures written { WriteAppends (W.held (sink_inner self.old))
            (W.held (sink_inner self.new)) result piece.now }
        ensures taken { IfOk result
            (λ n. W.answers (sink_inner self.old) (sink_inner self.new) (Some n)) }
        ensures failed { OnErr result (W.answers (sink_inner self.old) (sink_inner self.new) None
            ⊎ ((0 < length piece.now)
            × W.answers (sink_inner self.old) (sink_inner self.new) (Some 0))) }
        ensures ok { OnOk result (sink_faults self.new ≡ sink_faults self.old) }
        ensures err { OnErr result (sink_faults self.new ≡ one_more (sink_faults self.old)) }
    {
        match self.inner.write_once(piece) {
            Ok(taken) if taken > 0 || piece.is_empty() => Ok(taken),
            _ => {
                self.faults = self.faults.saturating_add(1);
                Err(SinkFailed)
            }
        }
    }
}

impl<W: Dup> Dup for StdSink<W> {
    fn dup(&self, alloc: Global) -> Mem<StdSink<W>> {
        let inner = self.inner.dup(alloc)?;
        Ok(StdSink {
            inner,
            faults: self.faults,
        })
    }
}
