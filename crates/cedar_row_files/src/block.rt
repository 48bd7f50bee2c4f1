// SPDX-License-Identifier: Apache-2.0
use crate::faults::RowFault;
use crate::numbers::{decimal, hexadecimal};
use cedar_data::Mem;
use std::alloc::Global;

/// Bytes that stand in a row as lines.
#[derive(Drop)]
pub struct Block {
    bytes: Vec<u8>,
    owes_line_end: bool,
}

impl Block {
    /// No bytes.
    pub fn new(alloc: Global) -> Block {
        Block {
            bytes: Vec::new(alloc),
            owes_line_end: false,
        }
    }

    /// The bytes of all lines.
    pub fn bytes(&self) -> &[u8] {
        self.bytes.as_slice()
    }

    /// Adds what stands behind a mark: a blank and a text, or a number, a blank and a text that stands so many times.
    pub fn add(&mut self, alloc: Global, piece: &str) -> Result<(), RowFault> {
        self.end_line()?;
        let (count, text) = piece.split_once(' ').unwrap_or((piece, ""));
        if count.is_empty() {
            self.owes_line_end = !text.ends_with('%');
            let text = text.strip_suffix('%').unwrap_or(text);
            return self.add_times(alloc, 1, text);
        }
        self.add_times(alloc, decimal(count)?, text)
    }

    /// Adds the end of the last line, where it has one that isn't there yet.
    pub fn end_line(&mut self) -> Mem<()> {
        if self.owes_line_end {
            self.bytes.push(b'\n')?;
            self.owes_line_end = false;
        }
        Ok(())
    }

    fn add_times(&mut self, alloc: Global, count: u64, text: &str) -> Result<(), RowFault> {
        for copy in 0..count {
            add_unescaped(alloc, &mut self.bytes, text, copy)?;
        }
        Ok(())
    }
}

/// Adds the bytes that a text stands for in the copy of this number.
fn add_unescaped(
    alloc: Global,
    bytes: &mut Vec<u8>,
    text: &str,
    copy: u64,
) -> Result<(), RowFault> {
    let mut is_first = true;
    for part in text.split('%') {
        if is_first {
            bytes.extend_from_slice(part.as_bytes())?;
        } else {
            add_escape(alloc, bytes, part, copy)?;
        }
        is_first = false;
    }
    Ok(())
}

/// Adds what stands behind a `%`, up to the next one.
fn add_escape(alloc: Global, bytes: &mut Vec<u8>, part: &str, copy: u64) -> Result<(), RowFault> {
    if let Some(rest) = part.strip_prefix('i') {
        return Ok(add_number(alloc, bytes, copy, rest)?);
    }
    if let Some(rest) = part.strip_prefix('j') {
        return Ok(add_number(alloc, bytes, copy.saturating_add(1), rest)?);
    }
    if let Some(inside) = part.strip_prefix('{') {
        return add_scalar(bytes, inside);
    }
    add_byte(bytes, part)
}

/// Adds a number, and what stands behind it.
fn add_number(alloc: Global, bytes: &mut Vec<u8>, number: u64, rest: &str) -> Mem<()> {
    let digits = format!(in alloc; "{number}{rest}")?;
    bytes.extend_from_slice(digits.as_bytes())?;
    Ok(())
}

/// Adds the byte of two hexadecimal digits, and what stands behind them.
fn add_byte(bytes: &mut Vec<u8>, part: &str) -> Result<(), RowFault> {
    let (code, rest) = part.split_at_checked(2).ok_or(RowFault::BadEscape)?;
    let byte = u8::try_from(hexadecimal(code)?).map_err(|_| RowFault::BadEscape)?;
    bytes.push(byte)?;
    bytes.extend_from_slice(rest.as_bytes())?;
    Ok(())
}

/// Adds what stands behind `%{`, up to the next `%`.
fn add_scalar(bytes: &mut Vec<u8>, inside: &str) -> Result<(), RowFault> {
    let (code, rest) = inside.split_once('}').ok_or(RowFault::BadEscape)?;
    let scalar = char::from_u32(hexadecimal(code)?).ok_or(RowFault::BadEscape)?;
    let mut buffer = [0u8; 4];
    bytes.extend_from_slice(scalar.encode_utf8(&mut buffer).as_bytes())?;
    bytes.extend_from_slice(rest.as_bytes())?;
    Ok(())
}
