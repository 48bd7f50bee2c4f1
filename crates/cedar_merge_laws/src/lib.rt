// SPDX-License-Identifier: Apache-2.0
//! Laws of merged fragments: the fragment that several are merged into means what they mean together.
#![tactic(auto)]

mod laws;
mod ordering;

pub use cedar_merge::{DeclKind, MergeError};
pub use laws::{
    definitions_together, meaning_together, merge_as_one, orders_of_merged, seen_of_merged,
};
pub use ordering::fragment_in_order;
