// SPDX-License-Identifier: Apache-2.0
use cedar_data::{Dup, Mem};
use cedar_fragment::RawName;
use cedar_text::Loc;
use std::alloc::Global;

/// A text that is written piece by piece, with the places of types and names or without.
#[derive(Drop)]
pub struct Writing {
    /// Where the text is.
    pub alloc: Global,
    /// Whether places are told.
    pub places: bool,
    text: String,
}

impl Writing {
    /// Nothing yet.
    pub fn new(alloc: Global, places: bool) -> Writing {
        Writing {
            alloc,
            places,
            text: String::new(alloc),
        }
    }

    /// What was written.
    pub fn into_text(self) -> String {
        self.text
    }

    /// Adds a piece.
    pub fn add(&mut self, piece: &str) -> Mem<()> {
        self.text.push_str(piece)?;
        Ok(())
    }

    /// Adds a comma and a blank before all but the first of what is listed.
    pub fn add_comma(&mut self, is_first: bool) -> Mem<()> {
        self.add(if is_first { "" } else { ", " })
    }

    /// Adds a place behind a blank, where places are told.
    pub fn add_place(&mut self, loc: Option<&Loc>) -> Mem<()> {
        if !self.places {
            return Ok(());
        }
        match loc {
            None => self.add(" nowhere"),
            Some(loc) => {
                let place = format!(in self.alloc; " {}..{}", loc.start, loc.end)?;
                self.add(place.as_str())
            }
        }
    }

    /// Adds a name as it is written.
    pub fn add_name(&mut self, name: &RawName) -> Mem<()> {
        let full = name.dup(self.alloc)?.qualify_with(self.alloc, None)?;
        let text = format!(in self.alloc; "{full}")?;
        self.add(text.as_str())?;
        self.add_place(name.loc())
    }

    /// Adds names between brackets.
    pub fn add_names(&mut self, names: &[RawName]) -> Mem<()> {
        self.add("[")?;
        let mut is_first = true;
        for name in names {
            self.add_comma(is_first)?;
            self.add_name(name)?;
            is_first = false;
        }
        self.add("]")
    }
}
