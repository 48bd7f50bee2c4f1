// SPDX-License-Identifier: Apache-2.0
//! Names that stand where only an entity type may stand, and are no declared entity types.
#![tactic(auto)]

mod error;
mod gather;
mod laws;
mod undeclared;

pub use error::undeclared_error;
pub use laws::undeclared_in_world;
pub use undeclared::undeclared_names;
