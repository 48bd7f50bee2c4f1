// SPDX-License-Identifier: Apache-2.0
//! Files of rows: their lines become rows, each with what is run and what it has to answer, and
//! each line that can't be read is told with its number. Nothing here knows any verb, nor the
//! program that the rows run. Nothing is promised of what is read but that it comes; the rows say
//! what that has to be.
#![tactic(auto)]

mod block;
mod differing;
mod faults;
mod lines;
mod numbers;
mod reading;
mod row;
mod streams;

pub use block::Block;
pub use differing::written;
pub use faults::{BadLine, RowFault};
pub use numbers::decimal;
pub use reading::{Rows, rows_of};
pub use row::{Answer, Row};
pub use streams::Streams;
