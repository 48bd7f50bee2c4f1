// SPDX-License-Identifier: Apache-2.0
//! The hierarchies of entity types and of actions: each with all that descends from it.
#![tactic(auto)]

mod actions;
mod children;
mod entity_types;
mod gathered;
mod searches;
mod targets;
mod uses;

pub use actions::resolved_actions;
pub use cedar_outlines::{ActionOutline, EntityOutline, Tables};
pub use entity_types::resolved_entity_types;
