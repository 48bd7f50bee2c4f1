// SPDX-License-Identifier: Apache-2.0
//! What is left of entity types and of actions without their types, and tables of definitions taken apart.
#![tactic(auto)]

mod outlines;

pub use cedar_declared::AllDefs;
pub use outlines::{ActionOutline, EntityOutline, Tables};
