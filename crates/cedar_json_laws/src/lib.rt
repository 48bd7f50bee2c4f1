// SPDX-License-Identifier: Apache-2.0
//! Laws of schemas in JSON, over all values and all structures. Each is the contract of a function that does nothing.
#![tactic(auto)]

mod clean;
mod once;

pub use clean::what_has_a_shape_has_no_fault;
pub use once::what_has_a_shape_has_one;
