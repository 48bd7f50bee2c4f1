// SPDX-License-Identifier: Apache-2.0
//! Laws of what resolving is never refused for: where each reference has the kind of its place, whatever the world, and
//! where a text declares it.
#![tactic(auto)]

mod laws;

pub use laws::{
    errors_of_callers, fragments_and_texts, kinds_rule_out, texts_alone, what_is_made_has_its_kinds,
};
