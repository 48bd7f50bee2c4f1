// SPDX-License-Identifier: Apache-2.0
//! What is told of definitions as lines: the names that they declare, what the calls of declared
//! names say of them, to which entity types actions apply, and each structure with the full names
//! that its references mean. It has no verb. Nothing is promised of the lines but that they come;
//! the rows say what they have to be.
#![tactic(auto)]

mod full_declarations;
mod full_types;
mod qualified_definitions;
mod queried_definitions;

pub use full_declarations::full_names;
pub use queried_definitions::definitions;
