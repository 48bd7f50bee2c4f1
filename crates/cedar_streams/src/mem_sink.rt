// SPDX-License-Identifier: Apache-2.0
ghost use Rattle.std.specs.Prelude.{◌≡◌, ◌⊎◌, ◌<◌, ◌↔◌, ◌-◌, Some, [], length, take, Contains, IfOk, OnErr, IsErr};
ghost use Rattle.std.specs.Io.{WritesAtMost};
ghost use Rattle.cedar_streams.specs.Bytes.{WriteTakes};
ghost use Rattle.cedar_streams.specs.Faults.{HasCause, one_more};
ghost use Rattle.cedar_streams.specs.Memory.{moved, after_write, after_failed_write};

use crate::copying::copy_front;
use crate::sink::{Sink, SinkFailed};
use cedar_data::{Dup, Mem};
use std::alloc::Global;
use std::marker::Model;

/// A sink that keeps its bytes in memory, whose calls move few bytes and fail where that is wanted.
#[derive(Drop)]
pub struct MemSink {
    buf: Vec<u8>,
    filled: usize,
    most: usize,
    calls: u64,
    fail_at: Vec<u64>,
    faults: u64,
}

impl Model for MemSink {
    ghost use Rattle.std.specs.Prelude.{◌≤◌, take, vec_len};
    ghost use Rattle.cedar_streams.specs.Memory.{Store};

    ghost Value = { Store };

    ghost view = { λ s. record {
      written = take s.filled s.buf.items;
      room = vec_len s.buf;
      most = s.most;
      calls = s.calls;
      fail_at = s.fail_at.items;
      faults = s.faults;
    } };

    ghost invariant = { λ s. s.filled ≤ vec_len s.buf };
}

impl MemSink {
    /// A sink with no bytes, and room for `room`. The memory is taken here: a write takes none. A call
    /// moves at most `most` bytes, where 0 counts as 1, and fails where its number is in `fail_at`, or
    /// where the room is full and the piece isn't empty. The first call is number 1.
    pub fn new(alloc: Global, most: usize, room: usize, fail_at: Vec<u64>) -> Mem<MemSink>
        ensures { IfOk result (λ sink. sink
            ≡ record {
              written = [];
              room = room;
              most = most;
              calls = 0;
              fail_at = fail_at.items;
              faults = 0;
            }) }
    {
        let buf = vec![in alloc; 0u8; room]?;
        Ok(MemSink {
            buf,
            filled: 0,
            most,
            calls: 0,
            fail_at,
            faults: 0,
        })
    }

    /// The bytes that were written.
    pub fn bytes(&self) -> &[u8]
        ensures { result.now ≡ self.now.written }
    {
        &self.buf[..self.filled]
    }
}

impl Sink for MemSink {
    ghost written = { λ s. Some s.written };

    ghost faults = { λ s. s.faults };

    fn write(&mut self, piece: &[u8]) -> Result<usize, SinkFailed>
        ensures bound { WritesAtMost result piece.now }
        ensures progress { IfOk result (λ n. 0 < length piece.now → 0 < n) }
        ensures bytes { WriteTakes (Some self.old.written)
            (Some self.new.written) result piece.now }
        ensures cause { HasCause self.old.faults self.new.faults result }

        // Which calls fail, and all that a call does.
        ensures fails { IsErr result
            ↔ (Contains self.old.fail_at (one_more self.old.calls)
            ⊎ ((length self.old.written ≡ self.old.room) × (0 < length piece.now))) }
        ensures ok { IfOk result
            (λ n. (n ≡ moved self.old.most (length piece.now)
            (self.old.room - length self.old.written))
            × (self.new ≡ after_write self.old (take n piece.now))) }
        ensures err { OnErr result (self.new ≡ after_failed_write self.old) }
    {
        self.calls = self.calls.saturating_add(1);
        let is_full = self.filled == self.buf.len();
        if self.fail_at.contains(&self.calls) || (is_full && !piece.is_empty()) {
            self.faults = self.faults.saturating_add(1);
            return Err(SinkFailed);
        }
        let taken = copy_front(piece, &mut self.buf[self.filled..], self.most.max(1));
        self.filled += taken;
        Ok(taken)
    }
}

impl Dup for MemSink {
    fn dup(&self, _alloc: Global) -> Mem<MemSink> {
        let buf = self.buf.clone()?;
        let fail_at = self.fail_at.clone()?;
        Ok(MemSink {
            buf,
            filled: self.filled,
            most: self.most,
            calls: self.calls,
            fail_at,
            faults: self.faults,
        })
    }
}
