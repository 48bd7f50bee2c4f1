// SPDX-License-Identifier: Apache-2.0
ghost use Rattle.std.specs.Prelude.{ℕ, List, Option, Some, codes};
ghost use Rattle.std.specs.Io.{ReadsAtMost};
ghost use Rattle.cedar_streams.specs.Bytes.{ReadGives};
ghost use Rattle.cedar_streams.specs.Faults.{HasCause};

use cedar_data::{Dup, Mem};
use cedar_text::Span;
use std::alloc::Global;
use std::error::Error;
use std::fmt;

/// A read that failed.
#[derive(Clone, Copy, Debug, PartialEq, Eq)]
pub struct SourceFailed;

impl fmt::Display for SourceFailed {
    ghost output = { λ _. Some (codes "the source failed") };

    fn fmt<W: fmt::Write>(&self, f: &mut fmt::Formatter<W>) -> fmt::Result {
        write!(f, "the source failed")
    }
}

impl Error for SourceFailed {}

impl SourceFailed {
    ghost use Rattle.std.specs.Prelude.{◌≡◌, [], None, IfOk};

    /// What to do about it: there is nothing to say.
    pub fn help(&self, _alloc: Global) -> Mem<Option<String>>
        ensures { IfOk result (λ help. help ≡ None) }
    {
        Ok(None)
    }

    /// The places of the kept pieces that have one: none is kept.
    pub fn spans(&self, alloc: Global) -> Mem<Vec<Span>>
        ensures { IfOk result (λ spans. spans.items ≡ []) }
    {
        Ok(Vec::new(alloc))
    }
}

impl Dup for SourceFailed {
    fn dup(&self, _alloc: Global) -> Mem<SourceFailed> {
        Ok(*self)
    }
}

/// What bytes are read from.
pub trait Source {
    /// The bytes that are left, where the source tells them.
    ghost left: { Self → Option (List ℕ) };

    /// How often the source failed. It never falls.
    ghost faults: { Self → ℕ };

    /// Reads into the front of the buffer, and answers how many bytes it read: 0 only at the end
    /// or into an empty buffer. A failure reads nothing.
    fn read(&mut self, buf: &mut [u8]) -> Result<usize, SourceFailed>
        ensures bound { ReadsAtMost result buf.new }
        ensures bytes { ReadGives (left self.old) (left self.new) result buf.new }
        ensures cause { HasCause (faults self.old) (faults self.new) result };
}
