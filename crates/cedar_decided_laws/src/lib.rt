// SPDX-License-Identifier: Apache-2.0
//! Laws: each world of definitions is sound or has a cause why it isn't, and so each fragment.
#![tactic(auto)]

mod laws;

pub use laws::{fragment_sound_or_caused, sound_or_caused};
