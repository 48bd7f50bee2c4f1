// SPDX-License-Identifier: Apache-2.0
ghost use Rattle.std.specs.Prelude.{◌≡◌, MatchOption, slice_range};
ghost use Rattle.cedar_text.specs.Places.{IsTextRange, span_of};

use cedar_data::{Dup, Mem, Text};
use std::alloc::Global;

/// A range of a text, in bytes.
#[derive(Clone, Copy, Debug, PartialEq, Eq)]
pub struct Span {
    /// The byte at which it begins.
    pub start: usize,
    /// The byte before which it ends.
    pub end: usize,
}

/// A place: a range of a source text, in bytes, and the text.
#[derive(Debug, Drop, PartialEq, Eq)]
pub struct Loc {
    /// The byte at which it begins.
    pub start: usize,
    /// The byte before which it ends.
    pub end: usize,
    /// The source text.
    pub src: Text,
}

impl Loc {
    /// The place from `start` to `end` of the text `src`.
    pub fn new(start: usize, end: usize, src: Text) -> Loc
        ensures start { result.start ≡ start }
        ensures end { result.end ≡ end }
        ensures src { result.src ≡ src }
    {
        Loc { start, end, src }
    }

    /// The range.
    pub fn span(&self) -> Span
        ensures { result ≡ span_of self.now }
    {
        Span {
            start: self.start,
            end: self.end,
        }
    }

    /// The slice of the source, where the place is a range on character boundaries of it.
    pub fn snippet(&self) -> Option<&str>
        ensures { MatchOption result
            (¬ (IsTextRange self.now.src self.now.start self.now.end))
            (λ piece. IsTextRange self.now.src self.now.start self.now.end
            × (piece.now ≡ slice_range self.now.src self.now.start self.now.end)) }
    {
        let text = self.src.as_str();
        let in_order = self.start <= self.end;
        if in_order && text.is_char_boundary(self.start) && text.is_char_boundary(self.end) {
            Some(&text[self.start..self.end])
        } else {
            None
        }
    }
}

impl Dup for Span {
    fn dup(&self, _alloc: Global) -> Mem<Span> {
        Ok(*self)
    }
}

impl Dup for Loc {
    fn dup(&self, alloc: Global) -> Mem<Loc> {
        let src = self.src.dup(alloc)?;
        Ok(Loc {
            start: self.start,
            end: self.end,
            src,
        })
    }
}
