// SPDX-License-Identifier: Apache-2.0
//! Laws of what is written in JSON: it has the shape of what it was written from, and is read back as that. Each is the
//! contract of a function that does nothing.
#![tactic(auto)]

mod laws;

pub use laws::{what_is_written_has_the_shape, what_is_written_is_read_back};
