// SPDX-License-Identifier: Apache-2.0
//! Schemas written in the human syntax, unless a name would stand for two types.
#![tactic(auto)]

mod collisions;
mod errors;
mod to_cedar;

pub use errors::{NameCollisionsError, ToCedarSchemaSyntaxError};
pub use to_cedar::{ToCedarSchema, json_schema_to_cedar_schema_str};
