// SPDX-License-Identifier: Apache-2.0
//! The ranges of the places of what errors keep.
#![tactic(auto)]

mod ranges;

pub use ranges::{both_ranges, push_range, range_of};
