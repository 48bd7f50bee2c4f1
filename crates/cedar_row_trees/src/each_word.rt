// SPDX-License-Identifier: Apache-2.0
use crate::lines::Lines;
use crate::telling::told;
use cedar_data::Mem;
use std::alloc::Global;

/// What is said of a text with each of the words in place of `$`: a line for all words in a row of which the same is
/// said, with their number where there are several.
pub fn each(alloc: Global, words: &[&str], input: &str) -> Mem<String> {
    let mut alike = Alike::new(alloc);
    for word in words {
        let text = input.replace(alloc, "$", word)?;
        let said = told(alloc, text.as_str())?;
        alike.add(said)?;
    }
    alike.flush()?;
    Ok(alike.lines.into_text())
}

/// Lines, and what is said of the last words.
#[derive(Drop)]
struct Alike {
    lines: Lines,
    said: String,
    times: u64,
}

impl Alike {
    fn new(alloc: Global) -> Alike {
        Alike {
            lines: Lines::new(alloc),
            said: String::new(alloc),
            times: 0,
        }
    }

    /// Adds what is said of a word.
    fn add(&mut self, said: String) -> Mem<()> {
        if said.as_str() != self.said.as_str() {
            self.flush()?;
            self.said = said;
        }
        self.times = self.times.saturating_add(1);
        Ok(())
    }

    /// Writes the line of the last words, where there are any.
    fn flush(&mut self) -> Mem<()> {
        let said = self.said.as_str();
        match self.times {
            0 => {}
            1 => self.lines.add(said)?,
            times => {
                let line = format!(in self.lines.alloc; "{said}, {times} times")?;
                self.lines.add(line.as_str())?;
            }
        }
        self.times = 0;
        Ok(())
    }
}
