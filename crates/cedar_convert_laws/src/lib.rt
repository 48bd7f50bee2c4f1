// SPDX-License-Identifier: Apache-2.0
//! Laws of what schemas declare: at most one fragment, whose places alone depend on those of the text, and of whose names
//! the warnings are given.
#![tactic(auto)]

mod laws;

pub use laws::{one_fragment, places_left_out, warnings_by_names};
