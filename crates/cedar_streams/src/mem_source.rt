// SPDX-License-Identifier: Apache-2.0
ghost use Rattle.std.specs.Prelude.{◌≡◌, ◌<◌, ◌↔◌, ◌++◌, Some, length, take, drop, Contains, IfOk, OnErr, IsErr};
ghost use Rattle.std.specs.Io.{ReadsAtMost};
ghost use Rattle.cedar_streams.specs.Bytes.{ReadGives};
ghost use Rattle.cedar_streams.specs.Faults.{HasCause, one_more};
ghost use Rattle.cedar_streams.specs.Memory.{moved, after_read, after_failed_read};

use crate::copying::copy_front;
use crate::source::{Source, SourceFailed};
use cedar_data::{Dup, Mem};
use std::alloc::Global;
use std::marker::Model;

/// A source over bytes in memory, whose calls move few bytes and fail where that is wanted.
#[derive(Drop)]
pub struct MemSource {
    bytes: Vec<u8>,
    at: usize,
    most: usize,
    calls: u64,
    fail_at: Vec<u64>,
    faults: u64,
}

impl Model for MemSource {
    ghost use Rattle.std.specs.Prelude.{◌≤◌, drop, vec_len};
    ghost use Rattle.cedar_streams.specs.Memory.{Supply};

    ghost Value = { Supply };

    ghost view = { λ s. record {
      left = drop s.at s.bytes.items;
      most = s.most;
      calls = s.calls;
      fail_at = s.fail_at.items;
      faults = s.faults;
    } };

    ghost invariant = { λ s. s.at ≤ vec_len s.bytes };
}

impl MemSource {
    /// A source of these bytes. A call moves at most `most` bytes, where 0 counts as 1, and fails
    /// where its number is in `fail_at`. The first call is number 1.
    pub fn new(bytes: Vec<u8>, most: usize, fail_at: Vec<u64>) -> MemSource
        ensures { result
            ≡ record {
              left = bytes.items;
              most = most;
              calls = 0;
              fail_at = fail_at.items;
              faults = 0;
            } }
    {
        MemSource {
            bytes,
            at: 0,
            most,
            calls: 0,
            fail_at,
            faults: 0,
        }
    }
}

impl Source for MemSource {
    ghost left = { λ s. Some s.left };

    ghost faults = { λ s. s.faults };

    fn read(&mut self, buf: &mut [u8]) -> Result<usize, SourceFailed>
        ensures bound { ReadsAtMost result buf.new }
        ensures bytes { ReadGives (Some self.old.left) (Some self.new.left) result buf.new }
        ensures cause { HasCause self.old.faults self.new.faults result }

        // Which calls fail, and all that a call does.
        ensures fails { IsErr result ↔ Contains self.old.fail_at (one_more self.old.calls) }
        ensures ok { IfOk result
            (λ n. (n ≡ moved self.old.most (length buf.old) (length self.old.left))
            × (self.new ≡ after_read self.old n)
            × (buf.new ≡ take n self.old.left ++ drop n buf.old)) }
        ensures err { OnErr result ((self.new ≡ after_failed_read self.old) × (buf.new ≡ buf.old)) }
    {
        self.calls = self.calls.saturating_add(1);
        if self.fail_at.contains(&self.calls) {
            self.faults = self.faults.saturating_add(1);
            return Err(SourceFailed);
        }
        let taken = copy_front(&self.bytes[self.at..], buf, self.most.max(1));
        self.at += taken;
        Ok(taken)
    }
}

impl Dup for MemSource {
    fn dup(&self, _alloc: Global) -> Mem<MemSource> {
        let bytes = self.bytes.clone()?;
        let fail_at = self.fail_at.clone()?;
        Ok(MemSource {
            bytes,
            at: self.at,
            most: self.most,
            calls: self.calls,
            fail_at,
            faults: self.faults,
        })
    }
}
