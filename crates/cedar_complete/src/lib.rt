// SPDX-License-Identifier: Apache-2.0
//! Definitions with the full name that each reference means in its place.
#![tactic(auto)]

mod completing;
mod definitions;
mod laws;
mod qualifying;
mod targets;

pub use completing::Completes;
pub use laws::{parts_that_miss_nothing_are_made, what_misses_nothing_is_made};
pub use qualifying::FullyQualifyDefinitions;
