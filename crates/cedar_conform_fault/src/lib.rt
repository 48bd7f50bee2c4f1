// SPDX-License-Identifier: Apache-2.0
//! Where and why a value in JSON doesn't fit what a schema says of it.
#![tactic(auto)]

mod fault;
mod kind;
mod places;

pub use cedar_json_fault::JsonKind;
pub use fault::{Fault, behind_key, write_path};
pub use kind::FaultKind;
