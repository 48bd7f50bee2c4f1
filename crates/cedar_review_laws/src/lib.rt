// SPDX-License-Identifier: Apache-2.0
//! Laws of what a schema is asked of values in JSON and of other schemas: each is what it has to be, or the check tells
//! what is wrong with it first, and never both.
#![tactic(auto)]

mod laws;

pub use laws::{compatible_or_break, entities_or_misfit, requests_or_flaw, value_or_misfit};
