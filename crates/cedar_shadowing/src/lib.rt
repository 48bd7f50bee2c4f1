// SPDX-License-Identifier: Apache-2.0
//! Declared names that shadow others: a type or an action of a namespace has the basename or the id of one without a
//! namespace.
#![tactic(auto)]

mod actions;
mod checks;
mod types;

pub use checks::ShadowingChecks;
