// SPDX-License-Identifier: Apache-2.0
//! Checks entities in JSON, and values of their attributes, against a resolved schema.
#![tactic(auto, using(crate::proofs::Told::told, crate::proofs::ByKind::kinds_of_values))]

mod data;
mod entities;
mod keys;
mod references;
mod refusing;
mod repeats;
mod values;

pub use cedar_conform_fault::{Fault, FaultKind, JsonKind};
pub use entities::conforms_entities;
pub use references::{known, missing, read_ref};
pub use refusing::{refuse, under, under_place, wrong_kind};
pub use values::conforms_value;
