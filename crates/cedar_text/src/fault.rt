// SPDX-License-Identifier: Apache-2.0
ghost use Rattle.std.specs.Prelude.{Some};

use crate::location::Span;
use cedar_data::{Dup, Mem, Text};
use std::alloc::Global;
use std::error::Error;
use std::fmt;

/// What is wrong with a text that has to be a name, or an entity.
#[derive(Debug, Drop, PartialEq, Eq)]
pub enum NameFault {
    /// The text ends where an identifier has to begin; of an entity, also behind the name, or within the literal.
    Empty,
    /// The text goes on otherwise than it may at the byte offset `at`. The token is `::` where two colons stand there,
    /// and else the one character. A bad escape has its backslash, and so has one before a line feed.
    BadToken {
        /// The byte offset of the token.
        at: usize,
        /// The token.
        token: Text,
    },
    /// The form is right, and an identifier is a word that may not stand there.
    Reserved {
        /// The word.
        word: Text,
    },
}

impl fmt::Display for NameFault {
    ghost use Rattle.cedar_text.specs.FaultTexts.{name_fault_text};

    ghost output = { λ fault. Some (name_fault_text fault) };

    fn fmt<W: fmt::Write>(&self, f: &mut fmt::Formatter<W>) -> fmt::Result {
        match self {
            NameFault::Empty => write!(f, "unexpected end of input"),
            NameFault::BadToken { at: _, token } => write!(f, "unexpected token `{token}`"),
            NameFault::Reserved { word } => write!(f, "`{word}` is a reserved identifier"),
        }
    }
}

impl NameFault {
    ghost use Rattle.std.specs.Prelude.{◌≡◌, [], None, IfOk};

    /// What to do about it: there is nothing to say.
    pub fn help(&self, _alloc: Global) -> Mem<Option<String>>
        ensures { IfOk result (λ help. help ≡ None) }
    {
        Ok(None)
    }

    /// The places of the kept pieces that have one: none has.
    pub fn spans(&self, alloc: Global) -> Mem<Vec<Span>>
        ensures { IfOk result (λ spans. spans.items ≡ []) }
    {
        Ok(Vec::new(alloc))
    }
}

impl Error for NameFault {}

impl Dup for NameFault {
    fn dup(&self, alloc: Global) -> Mem<NameFault> {
        match self {
            NameFault::Empty => Ok(NameFault::Empty),
            NameFault::BadToken { at, token } => {
                let token = token.dup(alloc)?;
                Ok(NameFault::BadToken { at: *at, token })
            }
            NameFault::Reserved { word } => {
                let word = word.dup(alloc)?;
                Ok(NameFault::Reserved { word })
            }
        }
    }
}
