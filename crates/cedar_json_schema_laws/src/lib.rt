// SPDX-License-Identifier: Apache-2.0
//! Laws of schemas that are written in JSON: what is written of a fragment denotes the schema that the fragment denotes.
//! Each is the contract of a function that does nothing, but for one that writes a fragment and reads it back.
#![tactic(auto)]

mod laws;
mod read_back;

pub use laws::{
    places_denote_nothing, what_a_text_declares_is_written_and_denotes_the_same,
    what_a_text_declares_may_be_written, what_is_written_denotes_the_same,
};
pub use read_back::written_and_read_back;
