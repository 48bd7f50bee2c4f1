// SPDX-License-Identifier: Apache-2.0
//! How many colons a text in JSON has outside its string literals, and how many members a value has: where the first is
//! more, some object of the text has a key twice.
#![tactic(auto)]

mod counting;

pub use counting::{Within, count_colons, count_members};
