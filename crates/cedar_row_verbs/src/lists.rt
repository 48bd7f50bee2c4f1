// SPDX-License-Identifier: Apache-2.0
use cedar_data::Mem;
use std::alloc::Global;
use std::fmt;

/// A list as it is told: its members in brackets, with commas between them.
#[derive(Drop)]
pub struct ListTold {
    text: String,
    is_empty: bool,
}

impl ListTold {
    /// No member is told.
    pub fn new(alloc: Global) -> ListTold {
        ListTold {
            text: String::new(alloc),
            is_empty: true,
        }
    }

    /// Tells one more member.
    pub fn add<T: fmt::Display>(&mut self, alloc: Global, member: &T) -> Mem<()> {
        let between = if self.is_empty { "" } else { ", " };
        let told = format!(in alloc; "{between}{member}")?;
        self.text.push_str(told.as_str())?;
        self.is_empty = false;
        Ok(())
    }

    /// The whole list.
    pub fn whole(&self, alloc: Global) -> Mem<String> {
        Ok(format!(in alloc; "[{}]", self.text)?)
    }
}

/// The two lines of an input; the second is empty where there is one line.
pub fn two_lines(input: &str) -> (&str, &str) {
    input.split_once('\n').unwrap_or((input, ""))
}
