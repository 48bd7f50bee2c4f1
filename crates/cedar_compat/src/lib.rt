// SPDX-License-Identifier: Apache-2.0
//! Whether data of one resolved schema stays valid under another.
#![tactic(auto, using(crate::proofs::Told::told))]

mod broken;
mod fault;
mod kind;
mod kinds;
mod places;
mod records;
mod schemas;
mod types;

pub use fault::CompatFault;
pub use kind::CompatKind;
pub use schemas::compatible;
