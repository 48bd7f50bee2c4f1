// SPDX-License-Identifier: Apache-2.0
//! Positions, each with a row of positions to which it leads: an order in which each stands behind
//! those to which it leads, or the least position that reaches itself. Both are made to be found in
//! linear time, which is not measured.
#![tactic(auto)]

mod depth_first;
mod least_cycle;
mod mark;
mod sort;

pub use sort::{Sorting, sort_positions};
