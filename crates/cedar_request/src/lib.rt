// SPDX-License-Identifier: Apache-2.0
//! Checks requests in JSON against the request environments of a resolved schema.
#![tactic(auto, using(crate::proofs::Said::said, cedar_conform::proofs::Told::told, cedar_conform::proofs::ByKind::kinds_of_values))]

mod entering;
mod environments;
mod fault;
mod fault_places;
mod keys;
mod parts;
mod refusing;
mod requests;

pub use cedar_conform::{Fault, FaultKind, JsonKind, conforms_entities};
pub use fault::RequestFault;
pub use requests::check_requests;
