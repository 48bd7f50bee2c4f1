// SPDX-License-Identifier: Apache-2.0
ghost use Rattle.std.specs.Prelude.{ℕ, ◌<◌, List, length, Option, Some, IfOk, codes};
ghost use Rattle.std.specs.Io.{WritesAtMost};
ghost use Rattle.cedar_streams.specs.Bytes.{WriteTakes};
ghost use Rattle.cedar_streams.specs.Faults.{HasCause};

use cedar_data::{Dup, Mem};
use cedar_text::Span;
use std::alloc::Global;
use std::error::Error;
use std::fmt;

/// A write that failed.
#[derive(Clone, Copy, Debug, PartialEq, Eq)]
pub struct SinkFailed;

impl fmt::Display for SinkFailed {
    ghost output = { λ _. Some (codes "the sink failed") };

    fn fmt<W: fmt::Write>(&self, f: &mut fmt::Formatter<W>) -> fmt::Result {
        write!(f, "the sink failed")
    }
}

impl Error for SinkFailed {}

impl SinkFailed {
    ghost use Rattle.std.specs.Prelude.{◌≡◌, [], None, IfOk};

    /// What to do about it: there is nothing to say.
    pub fn help(&self, _alloc: Global) -> Mem<Option<String>>
        ensures { IfOk result (λ help. help ≡ None) }
    {
        Ok(None)
    }

    /// The places of the kept pieces that have one: none is kept.
    pub fn spans(&self, alloc: Global) -> Mem<Vec<Span>>
        ensures { IfOk result (λ spans. spans.items ≡ []) }
    {
        Ok(Vec::new(alloc))
    }
}

impl Dup for SinkFailed {
    fn dup(&self, _alloc: Global) -> Mem<SinkFailed> {
        Ok(*self)
    }
}

/// What bytes are written to.
pub trait Sink {
    /// The bytes that were written, where the sink tells them.
    ghost written: { Self → Option (List ℕ) };

    /// How often the sink failed. It never falls.
    ghost faults: { Self → ℕ };

    /// Writes bytes from the front of the piece, and answers how many: at least one of a piece that
    /// isn't empty. A failure writes nothing.
    fn write(&mut self, piece: &[u8]) -> Result<usize, SinkFailed>
        ensures bound { WritesAtMost result piece.now }
        ensures progress { IfOk result (λ n. 0 < length piece.now → 0 < n) }
        ensures bytes { WriteTakes (written self.old) (written self.new) result piece.now }
        ensures cause { HasCause (faults self.old) (faults self.new) result };
}
