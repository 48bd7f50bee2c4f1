// SPDX-License-Identifier: Apache-2.0
ghost use Rattle.std.specs.Prelude.{ℕ, List, Option};
ghost use Rattle.std.specs.Io.{WritesAtMost};
ghost use Rattle.std.specs.Io.KnownBytes.{WriteAppends};
ghost use Rattle.cedar_streams.specs.Answered.{Answered};

use std::io::{Result, Write};

/// A writer of std whose answers contracts can name: each `Write` is one. What a `Write` does with a
/// call is its own affair, so `answers` tells nothing of it, but in code that is proved for every
/// `Writer` a write's answer comes from a write alone.
pub trait Writer {
    /// The bytes that the writer holds, where it tells them.
    ghost held: { Self → Option (List ℕ) };

    /// What a write may answer, from what the writer was to what it is then: a count, or none where it
    /// fails.
    ghost answers: { Self → Self → Option ℕ → Type 0 };

    /// One write.
    fn write_once(&mut self, piece: &[u8]) -> Result<usize>
        ensures bound { WritesAtMost result piece.now }
        ensures bytes { WriteAppends (held self.old) (held self.new) result piece.now }
        ensures answered { Answered answers self.old self.new result };
}

impl<W: Write> Writer for W {
    ghost held = { W.contents };

    ghost answers = { λ _ _ _. Unit {0} };

    fn write_once(&mut self, piece: &[u8]) -> Result<usize> {
        self.write(piece)
    }
}
