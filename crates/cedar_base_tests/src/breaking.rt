// SPDX-License-Identifier: Apache-2.0
ghost use Rattle.std.specs.Prelude.{◌≤◌, IfOk};

use cedar_data::{Dup, Mem};
use std::alloc::Global;
use std::io::{Error, ErrorKind, Read, Result as IoResult, Write};

/// A stream of std that moves a byte at each of its first calls. Then it fails, or moves nothing.
#[derive(Drop)]
pub struct Breaking {
    pub calls: u64,
    pub fails: bool,
}

impl Breaking {
    /// The bytes that a call over a buffer of so many moves.
    fn step(&mut self, room: usize) -> IoResult<usize>
        ensures { IfOk result (λ n. n ≤ room) }
    {
        if self.calls > 0 && room > 0 {
            self.calls -= 1;
            return Ok(1);
        }
        if self.fails {
            return Err(Error::from(ErrorKind::Other));
        }
        Ok(0)
    }
}

impl Read for Breaking {
    fn read(&mut self, buf: &mut [u8]) -> IoResult<usize> {
        if buf.is_empty() {
            return Ok(0);
        }
        self.step(buf.len())
    }
}

impl Write for Breaking {
    fn write(&mut self, piece: &[u8]) -> IoResult<usize> {
        if piece.is_empty() {
            return Ok(0);
        }
        self.step(piece.len())
    }

    fn flush(&mut self) -> IoResult<()> {
        Ok(())
    }
}

impl Dup for Breaking {
    fn dup(&self, _alloc: Global) -> Mem<Breaking> {
        Ok(Breaking {
            calls: self.calls,
            fails: self.fails,
        })
    }
}
