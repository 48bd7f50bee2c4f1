// SPDX-License-Identifier: Apache-2.0
//! Full names that definitions declare twice.
#![tactic(auto)]

mod declaration;
mod duplicates;

pub use duplicates::refuse_duplicates;
