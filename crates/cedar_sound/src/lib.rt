// SPDX-License-Identifier: Apache-2.0
//! Which worlds of definitions are sound, why another isn't, and what a sound one denotes.
#![tactic(auto)]

mod laws;

pub use cedar_duplicates::refuse_duplicates;
pub use cedar_shadowing::ShadowingChecks;
pub use laws::{one_cause, one_schema, some_schema, sound_or_refused};
