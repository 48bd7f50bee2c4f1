// SPDX-License-Identifier: Apache-2.0
//! The words of the command line, and the statuses with which the program ends.
#![tactic(auto)]

mod command;
mod command_line;
mod status;

pub use command::{Command, Review};
pub use command_line::asked;
pub use status::Status;
