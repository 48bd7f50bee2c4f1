// SPDX-License-Identifier: Apache-2.0
//! The phases of resolving, in their order: from definitions of namespaces to the schema that they denote.
#![tactic(auto)]

mod assembling;
mod checking;
mod declaring;
mod memberships;
mod resolving;
mod unfolding;

pub use cedar_resolved::ValidatorSchema;
pub use resolving::FromSchemaFragments;
