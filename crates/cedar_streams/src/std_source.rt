// SPDX-License-Identifier: Apache-2.0
ghost use Rattle.std.specs.Prelude.{◌≡◌, None, OnOk, OnErr};
ghost use Rattle.std.specs.Io.{ReadsAtMost};
ghost use Rattle.std.specs.Io.KnownBytes.{ReadConsumes};
ghost use Rattle.cedar_streams.specs.Answered.{Answered};
ghost use Rattle.cedar_streams.specs.Bytes.{ReadGives};
ghost use Rattle.cedar_streams.specs.Faults.{HasCause, one_more};
ghost use Rattle.cedar_streams.specs.StdStreams.{source_inner, source_faults};

use crate::reader::Reader;
use crate::source::{Source, SourceFailed};
use cedar_data::{Dup, Mem};
use std::alloc::Global;

/// A source over a reader of std. It tells no bytes, and counts each error as a fault.
#[derive(Drop)]
pub struct StdSource<R> {
    inner: R,
    faults: u64,
}

impl<R: Reader> StdSource<R> {
    /// A source of what this reader gives, which hasn't failed yet.
    pub fn new(inner: R) -> StdSource<R>
        ensures inner { source_inner result ≡ inner }
        ensures faults { source_faults result ≡ 0 }
    {
        StdSource { inner, faults: 0 }
    }
}

impl<R: Reader> Source for StdSource<R> {
    ghost left = { λ _. None };

    ghost faults = { source_faults };

    fn read(&mut self, buf: &mut [u8]) -> Result<usize, SourceFailed>
        ensures bound { ReadsAtMost result buf.new }
        ensures bytes { ReadGives None None result buf.new }
        ensures cause { HasCause (source_faults self.old) (source_faults self.new) result }

        // One read of the reader, which succeeded or failed as this one did.
        ensures read { ReadConsumes (R.left (source_inner self.old))
            (R.left (source_inner self.new)) result buf.new }
        ensures answered { Answered R.answers (source_inner self.old)
            (source_inner self.new) result }
        ensures ok { OnOk result (source_faults self.new ≡ source_faults self.old) }
        ensures err { OnErr result (source_faults self.new ≡ one_more (source_faults self.old)) }
    {
        match self.inner.read_once(buf) {
            Ok(taken) => Ok(taken),
            Err(_) => {
                self.faults = self.faults.saturating_add(1);
                Err(SourceFailed)
            }
        }
    }
}

impl<R: Dup> Dup for StdSource<R> {
    fn dup(&self, alloc: Global) -> Mem<StdSource<R>> {
        let inner = self.inner.dup(alloc)?;
        Ok(StdSource {
            inner,
            faults: self.faults,
        })
    }
}
