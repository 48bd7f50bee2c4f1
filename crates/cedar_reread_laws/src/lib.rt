// SPDX-License-Identifier: Apache-2.0
//! Laws of what is printed in the human syntax and read again: it declares the fragment as it is read again, and denotes
//! what the fragment denotes. Each is the contract of a function that does nothing, but for one that goes through the maps
//! of a fragment.
#![tactic(auto)]

mod held;
mod laws;

pub use cedar_in_order::maps_in_order;
pub use held::printed_and_read_again;
pub use laws::{
    what_is_held_has_a_text, what_is_printable_is_not_refused, what_is_printed_declares_it_again,
    what_is_printed_denotes_the_same, what_is_read_again_denotes_the_same,
    what_is_read_again_is_warned_of_alike,
};
