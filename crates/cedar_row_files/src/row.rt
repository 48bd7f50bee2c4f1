// SPDX-License-Identifier: Apache-2.0
use crate::block::Block;
use crate::faults::RowFault;
use crate::lines::Line;
use crate::streams::Streams;
use cedar_data::Mem;
use std::alloc::Global;

/// What is run, and what it has to answer.
#[derive(Drop)]
pub struct Row {
    /// The number of its first line.
    pub line: usize,
    /// What it does with its input.
    pub verb: String,
    /// The words behind the verb.
    pub words: String,
    /// What it is run on.
    pub input: Block,
    /// How the streams behave that it is run over.
    pub streams: Streams,
    out: Block,
    err: Block,
    end: Option<String>,
    is_answered: bool,
    is_sound: bool,
}

/// What a row answered, or has to answer.
#[derive(Drop, PartialEq, Eq)]
pub struct Answer {
    /// The name of the status.
    pub end: String,
    /// What is written to the first sink.
    pub out: Vec<u8>,
    /// What is written to the second sink.
    pub err: Vec<u8>,
}

impl Answer {
    /// The answer of these bytes.
    pub fn new(alloc: Global, end: &str, out: &[u8], err: &[u8]) -> Mem<Answer> {
        let end = String::from_str(alloc, end)?;
        let out = Vec::from_slice(alloc, out)?;
        let err = Vec::from_slice(alloc, err)?;
        Ok(Answer { end, out, err })
    }
}

impl Row {
    /// A row with no lines yet, whose first line has this number.
    pub fn new(alloc: Global, line: usize, verb: &str, words: &str) -> Mem<Row> {
        Ok(Row {
            line,
            verb: String::from_str(alloc, verb)?,
            words: String::from_str(alloc, words)?,
            input: Block::new(alloc),
            streams: Streams::new(alloc),
            out: Block::new(alloc),
            err: Block::new(alloc),
            end: None,
            is_answered: false,
            is_sound: true,
        })
    }

    /// A row that can't be run, since no verb stands above it.
    pub fn unsound(alloc: Global, line: usize) -> Mem<Row> {
        let mut row = Row::new(alloc, line, "", "")?;
        row.is_sound = false;
        Ok(row)
    }

    /// Whether all its lines can be read.
    pub fn is_sound(&self) -> bool {
        self.is_sound
    }

    /// Adds a line of the row. Where that can't be read, the row isn't sound, and the fault is told.
    pub fn add(&mut self, alloc: Global, line: Line<'_>) -> Option<RowFault> {
        match self.add_sound(alloc, line) {
            Ok(()) => None,
            Err(fault) => {
                self.is_sound = false;
                Some(fault)
            }
        }
    }

    fn add_sound(&mut self, alloc: Global, line: Line<'_>) -> Result<(), RowFault> {
        self.is_answered |= matches!(&line, Line::Out(_) | Line::Err(_) | Line::End(_));
        match line {
            Line::Input(_) if self.is_answered => Err(RowFault::LateInput),
            Line::Input(piece) => self.input.add(alloc, piece),
            Line::Out(piece) => self.out.add(alloc, piece),
            Line::Err(piece) => self.err.add(alloc, piece),
            Line::Setting(setting) => self.streams.set(alloc, setting),
            Line::End(word) => {
                self.end = Some(String::from_str(alloc, word)?);
                Ok(())
            }
            Line::Empty | Line::Note | Line::Head(_) => Ok(()),
        }
    }

    /// Ends the last lines of what is wanted.
    pub fn close(&mut self) -> Mem<()> {
        self.out.end_line()?;
        self.err.end_line()
    }

    /// What the row has to answer. With no line for its end, that is `Refused` where something is to be written to the
    /// second sink, and else `Done`.
    pub fn wanted(&self, alloc: Global) -> Mem<Answer> {
        let is_refused = !self.err.bytes().is_empty();
        let usual = if is_refused { "Refused" } else { "Done" };
        let end = match &self.end {
            Some(end) => end.as_str(),
            None => usual,
        };
        Answer::new(alloc, end, self.out.bytes(), self.err.bytes())
    }
}
