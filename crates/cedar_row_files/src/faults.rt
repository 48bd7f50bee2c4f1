// SPDX-License-Identifier: Apache-2.0
use cedar_data::NoMemory;
use std::alloc::{AllocError, AllocFailed};
use std::error::Error;
use std::fmt;

/// Why a line of a file of rows can't be read.
#[derive(Clone, Copy, Debug, PartialEq, Eq)]
pub enum RowFault {
    /// A line of a row stands above the first verb.
    NoVerb,
    /// The word that begins the line is no verb.
    UnknownVerb,
    /// No row stands below the verb.
    NoRow,
    /// Behind `%` stand neither two hexadecimal digits nor a scalar value in braces, `i` or `j`.
    BadEscape,
    /// A number is wanted.
    BadNumber,
    /// The word behind `:` is no setting.
    UnknownSetting,
    /// A piece of the input stands below the answer.
    LateInput,
    /// Want of memory.
    NoMemory,
}

/// A line that can't be read: its number, and why.
#[derive(Clone, Copy)]
pub struct BadLine {
    /// The number of the line, from 1.
    pub line: usize,
    /// What is wrong with it.
    pub fault: RowFault,
}

impl fmt::Display for RowFault {
    fn fmt<W: fmt::Write>(&self, f: &mut fmt::Formatter<W>) -> fmt::Result {
        match self {
            RowFault::NoVerb => write!(f, "a row without a verb"),
            RowFault::UnknownVerb => write!(f, "a row of an unknown verb"),
            RowFault::NoRow => write!(f, "a verb without a row"),
            RowFault::BadEscape => write!(f, "a bad escape"),
            RowFault::BadNumber => write!(f, "a number is wanted"),
            RowFault::UnknownSetting => write!(f, "an unknown setting"),
            RowFault::LateInput => write!(f, "input below an answer"),
            RowFault::NoMemory => write!(f, "out of memory"),
        }
    }
}

impl Error for RowFault {}

impl From<NoMemory> for RowFault {
    fn from(_e: NoMemory) -> RowFault {
        RowFault::NoMemory
    }
}

impl From<AllocError> for RowFault {
    fn from(_e: AllocError) -> RowFault {
        RowFault::NoMemory
    }
}

impl<T: Drop> From<AllocFailed<T>> for RowFault {
    fn from(_e: AllocFailed<T>) -> RowFault {
        RowFault::NoMemory
    }
}
