// SPDX-License-Identifier: Apache-2.0
//! The definitions of namespaces, made from the declarations of a schema as they are written, and what may be wrong
//! with these.
#![tactic(auto)]

mod action_attributes;
mod actions;
mod common_types;
mod entity_types;
mod fragments;
mod names;
mod namespaces;
mod sets;

pub use cedar_definitions::{ValidatorNamespaceDef, ValidatorSchemaFragment};
pub use fragments::FromSchemaFragment;
pub use namespaces::FromNamespaceDefinition;
