// SPDX-License-Identifier: Apache-2.0
//! Several fragments as one, unless two of them declare one name, or give one annotation two texts.
#![tactic(auto)]

mod adding;
mod errors;
mod joined;
mod keys;
mod laws;
mod merging;
mod ordering;
mod places;

pub use errors::{DeclKind, MergeError};
pub use laws::orders_of_lists;
pub use merging::merge;
pub use ordering::fragment_in_order;
