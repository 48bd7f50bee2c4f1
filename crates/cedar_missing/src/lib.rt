// SPDX-License-Identifier: Apache-2.0
//! The references of definitions that mean nothing declared, all of them.
#![tactic(auto)]

mod found;
mod looked_at;
mod members;
mod missing;
mod undefined;

pub use cedar_declared::{AllDefs, SchemaError, UndeclaredEntityTypesError, UsePlace};
pub use looked_at::HasReferences;
pub use missing::Missing;
