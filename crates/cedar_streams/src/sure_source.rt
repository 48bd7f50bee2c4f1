// SPDX-License-Identifier: Apache-2.0
ghost use Rattle.std.specs.Prelude.{◌≡◌, ◌++◌, Some, length, take, drop, min, IfOk, IsOk};
ghost use Rattle.std.specs.Io.{ReadsAtMost};
ghost use Rattle.cedar_streams.specs.Bytes.{ReadGives};
ghost use Rattle.cedar_streams.specs.Faults.{HasCause};

use crate::copying::copy_front;
use crate::source::{Source, SourceFailed};
use cedar_data::{Dup, Mem};
use std::alloc::Global;
use std::marker::Model;

/// A source over bytes in memory that never fails. Contracts see it as the bytes that are left.
#[derive(Drop)]
pub struct SureSource {
    bytes: Vec<u8>,
    at: usize,
}

impl Model for SureSource {
    ghost use Rattle.std.specs.Prelude.{◌≤◌, List, ℕ, drop, vec_len};

    ghost Value = { List ℕ };

    ghost view = { λ s. drop s.at s.bytes.items };

    ghost invariant = { λ s. s.at ≤ vec_len s.bytes };
}

impl SureSource {
    /// A source of these bytes, from the first.
    pub fn new(bytes: Vec<u8>) -> SureSource
        ensures { result ≡ bytes.items }
    {
        SureSource { bytes, at: 0 }
    }
}

impl Source for SureSource {
    ghost left = { λ s. Some s };

    ghost faults = { λ _. 0 };

    fn read(&mut self, buf: &mut [u8]) -> Result<usize, SourceFailed>
        ensures bound { ReadsAtMost result buf.new }
        ensures bytes { ReadGives (Some self.old) (Some self.new) result buf.new }
        ensures cause { HasCause 0 0 result }

        // It never fails, and reads as much as there is and has room.
        ensures sure { IsOk result }
        ensures ok { IfOk result (λ n. (n ≡ min (length buf.old) (length self.old))
            × (self.new ≡ drop n self.old)
            × (buf.new ≡ take n self.old ++ drop n buf.old)) }
    {
        let taken = copy_front(&self.bytes[self.at..], buf, usize::MAX);
        self.at += taken;
        Ok(taken)
    }
}

impl Dup for SureSource {
    fn dup(&self, _alloc: Global) -> Mem<SureSource> {
        let bytes = self.bytes.clone()?;
        Ok(SureSource { bytes, at: self.at })
    }
}
