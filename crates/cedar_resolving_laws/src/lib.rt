// SPDX-License-Identifier: Apache-2.0
//! Laws of what definitions resolve to.
#![tactic(auto)]

mod laws;

pub use laws::{descents, one_possibility, orders_of_fragments, same_declarations};
