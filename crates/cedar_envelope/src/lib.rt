// SPDX-License-Identifier: Apache-2.0
//! Envelopes: one object in JSON that holds texts and values by key, as the input of a command.
#![tactic(auto)]

mod envelope;
mod fault;
mod keys;
mod laws;
mod reading;

pub use envelope::Envelope;
pub use fault::EnvelopeFault;
pub use laws::{what_has_an_envelope_has_no_fault, what_has_an_envelope_has_one};
pub use reading::read_envelope;
