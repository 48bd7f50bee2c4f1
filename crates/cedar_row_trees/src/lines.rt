// SPDX-License-Identifier: Apache-2.0
use cedar_data::Mem;
use cedar_names::{Loc, Span};
use std::alloc::Global;

/// Lines of text so far.
#[derive(Drop)]
pub struct Lines {
    pub alloc: Global,
    text: String,
}

impl Lines {
    /// No lines.
    pub fn new(alloc: Global) -> Lines {
        Lines {
            alloc,
            text: String::new(alloc),
        }
    }

    /// The text of the lines, each with its end.
    pub fn into_text(self) -> String {
        self.text
    }

    /// Adds a line.
    pub fn add(&mut self, line: &str) -> Mem<()> {
        self.add_deep(0, line)
    }

    /// Adds a line that was made for it.
    pub fn add_line(&mut self, line: String) -> Mem<()> {
        self.add(line.as_str())
    }

    /// Adds a line that is so deep, two blanks for each.
    pub fn add_deep(&mut self, depth: usize, line: &str) -> Mem<()> {
        for _ in 0..depth {
            self.text.push_str("  ")?;
        }
        self.text.push_str(line)?;
        self.text.push('\n')?;
        Ok(())
    }

    /// Adds a line of a place and of what stands there.
    pub fn add_at(&mut self, depth: usize, loc: &Loc, what: &str) -> Mem<()> {
        let line = format!(in self.alloc; "{}..{} {what}", loc.start, loc.end)?;
        self.add_deep(depth, line.as_str())
    }

    /// Adds a line of a word and of places behind it.
    pub fn add_places(&mut self, word: &str, places: &[Span]) -> Mem<()> {
        self.text.push_str(word)?;
        for place in places {
            self.add_place(place)?;
        }
        self.text.push('\n')?;
        Ok(())
    }

    /// Adds a line of places.
    pub fn add_all_places(&mut self, places: Vec<Span>) -> Mem<()> {
        self.add_places("places", places.as_slice())
    }

    /// Adds a help.
    pub fn add_help(&mut self, help: Option<String>) -> Mem<()> {
        match help {
            Some(help) => self.add_line(help),
            None => self.add("no help"),
        }
    }

    fn add_place(&mut self, place: &Span) -> Mem<()> {
        let piece = format!(in self.alloc; " {}..{}", place.start, place.end)?;
        self.text.push_str(piece.as_str())?;
        Ok(())
    }
}

/// A text as a line.
pub fn line_of(alloc: Global, text: &str) -> Mem<String> {
    Ok(format!(in alloc; "{text}\n")?)
}
