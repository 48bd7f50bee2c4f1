// SPDX-License-Identifier: Apache-2.0
//! Laws of fragments that are held and written in JSON: one that is sound is read back as what denotes the same, and
//! nothing is asked of the order of its maps or of how deep its types nest. Each is the contract of a function that goes
//! through the maps of a fragment.
#![tactic(auto)]

mod laws;
mod read_back;

pub use laws::what_is_held_may_be_written;
pub use read_back::held_is_written_and_read_back;
