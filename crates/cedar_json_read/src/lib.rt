// SPDX-License-Identifier: Apache-2.0
//! The declarations of a schema in JSON: each is read from a JSON value exactly where the value has its shape, or refused
//! with the value's first fault and the keys that lead to it.
#![tactic(auto)]

mod actions;
mod entities;
mod notes;
mod parts;
mod reading;

pub use reading::ReadDeclaration;
