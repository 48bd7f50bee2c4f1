// SPDX-License-Identifier: Apache-2.0
//! The parser of the human schema syntax: from tokens to trees.
#![tactic(auto)]

mod actions;
mod annotations;
mod declarations;
mod entities;
mod fault;
mod lists;
mod literals;
mod parser;
mod paths;
mod tokens;
mod types;

pub use fault::Fault;
pub use literals::literal_body;
pub use parser::parse;
