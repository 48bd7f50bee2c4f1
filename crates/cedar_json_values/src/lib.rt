// SPDX-License-Identifier: Apache-2.0
//! The values of attributes of actions, read from JSON.
#![tactic(auto)]

mod values;

pub use values::read_values;
