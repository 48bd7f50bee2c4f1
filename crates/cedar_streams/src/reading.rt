// SPDX-License-Identifier: Apache-2.0
ghost use Rattle.std.specs.Prelude.{◌≡◌, ◌≤◌, IfOk, IsErrOf, vec_len};
ghost use Rattle.cedar_streams.specs.Bytes.{GivesAll, GivesAtMost, GivesMoreThan};
ghost use Rattle.cedar_streams.specs.Faults.{Rose};
ghost use Rattle.cedar_streams.specs.declared.reading.ReadStop.TheVariants.{Fault, NoMemory};

use crate::source::{Source, SourceFailed};
use cedar_data::{Dup, Mem};
use cedar_text::Span;
use std::alloc::{AllocError, Global};
use std::error::Error;
use std::fmt;

/// How many bytes are read at once.
const PIECE: usize = 65_536;

/// Why not all of a source was read.
#[derive(Clone, Copy, Debug, PartialEq, Eq)]
pub enum ReadStop {
    /// The source failed.
    Fault,
    /// The source gave more bytes than the limit.
    TooLong,
    /// Want of memory.
    NoMemory,
}

impl fmt::Display for ReadStop {
    ghost use Rattle.std.specs.Prelude.{Some};
    ghost use Rattle.cedar_streams.specs.ReadStop.{stop_text};

    ghost output = { λ stop. Some (stop_text stop) };

    fn fmt<W: fmt::Write>(&self, f: &mut fmt::Formatter<W>) -> fmt::Result {
        match self {
            ReadStop::Fault => write!(f, "the source failed"),
            ReadStop::TooLong => write!(f, "the source is too long"),
            ReadStop::NoMemory => write!(f, "out of memory"),
        }
    }
}

impl Error for ReadStop {}

impl ReadStop {
    ghost use Rattle.std.specs.Prelude.{◌≡◌, [], None, IfOk};

    /// What to do about it: there is nothing to say.
    pub fn help(&self, _alloc: Global) -> Mem<Option<String>>
        ensures { IfOk result (λ help. help ≡ None) }
    {
        Ok(None)
    }

    /// The places of the kept pieces that have one: none is kept.
    pub fn spans(&self, alloc: Global) -> Mem<Vec<Span>>
        ensures { IfOk result (λ spans. spans.items ≡ []) }
    {
        Ok(Vec::new(alloc))
    }
}

impl Dup for ReadStop {
    fn dup(&self, _alloc: Global) -> Mem<ReadStop> {
        Ok(*self)
    }
}

impl From<SourceFailed> for ReadStop {
    ghost from_gives = { λ _ e. e ≡ Fault };

    fn from(_e: SourceFailed) -> ReadStop {
        ReadStop::Fault
    }
}

impl From<AllocError> for ReadStop {
    ghost from_gives = { λ _ e. e ≡ NoMemory };

    fn from(_e: AllocError) -> ReadStop {
        ReadStop::NoMemory
    }
}

/// Reads a source to its end, in the memory of the text and one piece. The limit is in bytes: a text
/// of that length is read, and `TooLong` comes where the source gave more before it failed. The first
/// read that fails is the last one.
#[tactic(auto, using(crate::proofs::Known::gives_within, crate::proofs::Known::gives_beyond))]
pub fn read_all<S: Source>(alloc: Global, source: &mut S, limit: usize) -> Result<Vec<u8>, ReadStop>
    // All that the source had left, and no more than the limit.
    ensures whole { IfOk result (λ text.
        GivesAll limit (S.left source.old) (S.left source.new) text.items
        × (S.faults source.new ≡ S.faults source.old)) }

    // Why it stopped, what the source gave before, and whether it failed.
    ensures too_long { IsErrOf result ReadStop.TooLong →
        GivesMoreThan limit (S.left source.old) (S.left source.new)
        × (S.faults source.new ≡ S.faults source.old) }
    ensures fault { IsErrOf result ReadStop.Fault →
        GivesAtMost limit (S.left source.old) (S.left source.new)
        × Rose (S.faults source.old) (S.faults source.new) }
    ensures no_memory { IsErrOf result ReadStop.NoMemory →
        GivesAtMost limit (S.left source.old) (S.left source.new)
        × (S.faults source.new ≡ S.faults source.old) }

    // In any case.
    ensures later { S.faults source.old ≤ S.faults source.new }
{
    let mut piece = room_for_a_piece(alloc)?;
    let mut text = Vec::new(alloc);
    loop {
        let taken = source.read(piece.as_mut_slice())?;
        if taken == 0 {
            return Ok(text);
        }
        if taken > limit - text.len() {
            return Err(ReadStop::TooLong);
        }
        text.extend_from_slice(&piece[..taken])?;
    }
}

fn room_for_a_piece(alloc: Global) -> Result<Vec<u8>, AllocError>
    ensures { IfOk result (λ piece. vec_len piece ≡ PIECE) }
{
    vec![in alloc; 0u8; PIECE]
}
