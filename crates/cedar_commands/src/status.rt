// SPDX-License-Identifier: Apache-2.0

use cedar_data::{Dup, Mem};
use std::alloc::Global;

/// How a run ended. The numbers are the statuses of the process.
#[derive(Clone, Copy, Debug, PartialEq, Eq)]
pub enum Status {
    /// The text is accepted, and what is made of it is written to `out`.
    Done = 0,
    /// The text is refused, and the refusal is written to `err`.
    Refused = 1,
    /// The words are no line of the program.
    Usage = 2,
    /// The source failed.
    ReadFault = 3,
    /// The sink of the due text failed.
    WriteFault = 4,
    /// The bytes aren't UTF-8.
    NotUtf8 = 5,
    /// The source gave more bytes than a text may have.
    TooLong = 6,
    /// Want of memory.
    NoMemory = 7,
}

impl Status {
    ghost use Rattle.std.specs.Prelude.{◌≡◌};
    ghost use Rattle.cedar_commands.specs.Statuses.{status_code};

    /// The number that the process ends with.
    pub fn code(self) -> u8
        ensures { result ≡ status_code self }
    {
        self as u8
    }
}

impl Dup for Status {
    fn dup(&self, _alloc: Global) -> Mem<Status> {
        Ok(*self)
    }
}
