// SPDX-License-Identifier: Apache-2.0
//! Resolved schemas: entity types and actions with all that descend from them.
#![tactic(auto)]

mod action;
mod action_ancestors;
mod ancestors;
mod applicable;
mod entity;
mod entity_type;
mod kind;
mod laws;
mod queries;
mod request_env;
mod schema;
mod sets;

pub use action::ValidatorActionId;
pub use ancestors::{AncestorIter, GroupIter};
pub use applicable::{PrincipalIter, ResourceIter};
pub use cedar_data::SetIter;
pub use entity::Entity;
pub use entity_type::ValidatorEntityType;
pub use kind::{StandardValidatorEntityType, ValidatorEntityTypeKind};
pub use laws::{ancestors_descend, environments_once};
pub use request_env::{EnvIter, RequestEnv};
pub use schema::{ActionIter, ActionKeyIter, EntityIter, EntityKeyIter, ValidatorSchema};
