// SPDX-License-Identifier: Apache-2.0
//! Laws of schemas in JSON, over all values and all texts: what has no fault has a shape. Each is the contract of a
//! function that does nothing.
#![tactic(auto)]

mod laws;

pub use laws::{texts_without_fault, what_has_no_fault_has_a_shape};
