// SPDX-License-Identifier: Apache-2.0
use crate::faults::RowFault;
use crate::numbers::decimal;
use cedar_data::Mem;
use std::alloc::Global;

/// How the streams of a row behave.
#[derive(Drop)]
pub struct Streams {
    /// How many bytes a call moves at most.
    pub most: usize,
    /// How many bytes each sink takes.
    pub room: usize,
    /// The numbers of the calls of the source that fail, from 1.
    pub fail_read: Vec<u64>,
    /// The numbers of the calls of the first sink that fail.
    pub fail_out: Vec<u64>,
    /// The numbers of the calls of the second sink that fail.
    pub fail_err: Vec<u64>,
}

impl Streams {
    /// Streams of which no call fails.
    pub fn new(alloc: Global) -> Streams {
        Streams {
            most: 4_096,
            room: 8_192,
            fail_read: Vec::new(alloc),
            fail_out: Vec::new(alloc),
            fail_err: Vec::new(alloc),
        }
    }

    /// The same, but that of a stream just this call fails. The word `read` or `out` names the stream, any other the
    /// second sink.
    pub fn failing(&self, alloc: Global, stream: &str, call: u64) -> Mem<Streams> {
        let mut streams = Streams::new(alloc);
        streams.most = self.most;
        streams.room = self.room;
        match stream {
            "read" => streams.fail_read.push(call)?,
            "out" => streams.fail_out.push(call)?,
            _ => streams.fail_err.push(call)?,
        }
        Ok(streams)
    }

    /// Changes one setting: a word, and its numbers. It is refused where the word is no setting, or
    /// a number is none.
    pub fn set(&mut self, alloc: Global, setting: &str) -> Result<(), RowFault> {
        let (word, numbers) = setting.split_once(' ').unwrap_or((setting, ""));
        match word {
            "most" => self.most = number(numbers)?,
            "room" => self.room = number(numbers)?,
            "fail-read" => self.fail_read = calls(alloc, numbers)?,
            "fail-out" => self.fail_out = calls(alloc, numbers)?,
            "fail-err" => self.fail_err = calls(alloc, numbers)?,
            _ => return Err(RowFault::UnknownSetting),
        }
        Ok(())
    }
}

fn number(text: &str) -> Result<usize, RowFault> {
    usize::try_from(decimal(text)?).map_err(|_| RowFault::BadNumber)
}

fn calls(alloc: Global, text: &str) -> Result<Vec<u64>, RowFault> {
    let mut calls = Vec::new(alloc);
    for word in text.split_whitespace() {
        calls.push(decimal(word)?)?;
    }
    Ok(calls)
}
