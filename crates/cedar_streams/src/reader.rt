// SPDX-License-Identifier: Apache-2.0
ghost use Rattle.std.specs.Prelude.{ℕ, List, Option};
ghost use Rattle.std.specs.Io.{ReadsAtMost};
ghost use Rattle.std.specs.Io.KnownBytes.{ReadConsumes};
ghost use Rattle.cedar_streams.specs.Answered.{Answered};

use std::io::{Read, Result};

/// A reader of std whose answers contracts can name: each `Read` is one. What a `Read` does with a
/// call is its own affair, so `answers` tells nothing of it, but in code that is proved for every
/// `Reader` a read's answer comes from a read alone.
pub trait Reader {
    /// The bytes that are left, where the reader tells them.
    ghost left: { Self → Option (List ℕ) };

    /// What a read may answer, from what the reader was to what it is then: a count, or none where it
    /// fails.
    ghost answers: { Self → Self → Option ℕ → Type 0 };

    /// One read.
    fn read_once(&mut self, buf: &mut [u8]) -> Result<usize>
        ensures bound { ReadsAtMost result buf.new }
        ensures bytes { ReadConsumes (left self.old) (left self.new) result buf.new }
        ensures answered { Answered answers self.old self.new result };
}

impl<R: Read> Reader for R {
    ghost left = { R.remaining };

    ghost answers = { λ _ _ _. Unit {0} };

    fn read_once(&mut self, buf: &mut [u8]) -> Result<usize> {
        self.read(buf)
    }
}
