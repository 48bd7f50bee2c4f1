// SPDX-License-Identifier: Apache-2.0
use crate::faults::{BadLine, RowFault};
use crate::lines::{Line, line_of};
use crate::row::Row;
use cedar_data::{Mem, NoMemory};
use std::alloc::Global;

/// The verb and the words that stand above rows.
#[derive(Clone, Copy)]
struct Head<'a> {
    line: usize,
    verb: &'a str,
    words: &'a str,
    has_rows: bool,
}

/// Reads the lines of a file into rows.
#[derive(Drop)]
struct Reader<'a> {
    head: Option<Head<'a>>,
    open: Option<Row>,
    rows: Vec<Row>,
    bad_lines: Vec<BadLine>,
}

/// What a file has.
#[derive(Drop)]
pub struct Rows {
    /// The rows, without those that have a bad line.
    pub sound: Vec<Row>,
    /// The lines that can't be read, in order, but that a verb without a row stands where the next
    /// verb begins.
    pub bad_lines: Vec<BadLine>,
}

/// The rows and the bad lines of the text of a file.
pub fn rows_of(alloc: Global, text: &str) -> Mem<Rows> {
    let mut reader = Reader::new(alloc);
    let mut number = 0usize;
    for line in text.lines() {
        number = number.saturating_add(1);
        reader.read(alloc, number, line)?;
    }
    reader.end_head()?;
    Ok(reader.into_rows())
}

impl<'a> Reader<'a> {
    /// No line is read.
    fn new(alloc: Global) -> Reader<'a> {
        Reader {
            head: None,
            open: None,
            rows: Vec::new(alloc),
            bad_lines: Vec::new(alloc),
        }
    }

    /// What was read.
    fn into_rows(self) -> Rows {
        Rows {
            sound: self.rows,
            bad_lines: self.bad_lines,
        }
    }

    /// Reads a line, whose number is given.
    fn read(&mut self, alloc: Global, number: usize, text: &'a str) -> Mem<()> {
        match line_of(text) {
            Line::Note => Ok(()),
            Line::Empty => self.end_row(),
            Line::Head(text) => {
                self.end_head()?;
                self.head = Some(head_of(number, text));
                Ok(())
            }
            line => self.read_row(alloc, number, line),
        }
    }

    /// Ends the rows below a verb.
    fn end_head(&mut self) -> Mem<()> {
        self.end_row()?;
        match self.head {
            Some(head) if !head.has_rows => self.add_fault(head.line, RowFault::NoRow),
            _ => Ok(()),
        }
    }

    /// Reads a line of a row, which it may begin.
    fn read_row(&mut self, alloc: Global, number: usize, line: Line<'_>) -> Mem<()> {
        if self.open.is_none() {
            self.begin_row(alloc, number)?;
        }
        let fault = match &mut self.open {
            Some(row) => row.add(alloc, line),
            None => None,
        };
        match fault {
            Some(fault) => self.add_fault(number, fault),
            None => Ok(()),
        }
    }

    /// Begins a row with this line.
    fn begin_row(&mut self, alloc: Global, number: usize) -> Mem<()> {
        match &mut self.head {
            Some(head) => {
                head.has_rows = true;
                self.open = Some(Row::new(alloc, number, head.verb, head.words)?);
                Ok(())
            }
            None => self.begin_headless(alloc, number),
        }
    }

    /// Begins a row that no verb stands above.
    fn begin_headless(&mut self, alloc: Global, number: usize) -> Mem<()> {
        self.add_fault(number, RowFault::NoVerb)?;
        self.open = Some(Row::unsound(alloc, number)?);
        Ok(())
    }

    /// Ends the last row, and keeps it if it is sound.
    fn end_row(&mut self) -> Mem<()> {
        if let Some(row) = &mut self.open {
            row.close()?;
        }
        match self.open.take() {
            Some(row) => self.keep(row),
            None => Ok(()),
        }
    }

    fn keep(&mut self, row: Row) -> Mem<()> {
        if row.is_sound() {
            self.rows.push(row)?;
        }
        Ok(())
    }

    /// Keeps why a line is bad. Want of memory ends the reading.
    fn add_fault(&mut self, line: usize, fault: RowFault) -> Mem<()> {
        if fault == RowFault::NoMemory {
            return Err(NoMemory);
        }
        self.bad_lines.push(BadLine { line, fault })?;
        Ok(())
    }
}

fn head_of(line: usize, text: &str) -> Head<'_> {
    let (verb, words) = text.split_once(' ').unwrap_or((text, ""));
    Head {
        line,
        verb,
        words,
        has_rows: false,
    }
}
