// SPDX-License-Identifier: Apache-2.0
//! Laws of what written types unfold to, and one case of it, counted.
#![tactic(auto)]

mod counted;
mod laws;

pub use counted::unfold_two_longs;
pub use laws::{types_of_full_names_unfold, what_refers_to_no_cycle_unfolds};
