// SPDX-License-Identifier: Apache-2.0
//! The data that all crates share: shared text, lists, ordered maps and sets, boxes, and the two
//! results of a call that takes memory. Contracts see each of them as plain data.
#![tactic(auto)]

mod boxed;
mod comparing;
mod dup;
mod entries;
mod entries_iter;
mod items;
mod laws;
mod map;
mod map_iter;
mod memory;
mod near;
mod run;
mod set;
mod shared;
mod text;

pub use boxed::Boxed;
pub use dup::{Dup, dup_four, dup_three, dup_two};
pub use items::Items;
pub use laws::one_list;
pub use map::Map;
pub use map_iter::{MapIntoIter, MapIter, MapKeys, MapValues};
pub use memory::{Failure, Mem, NoMemory, Out};
pub use near::Near;
pub use set::{Set, SetIter};
pub use shared::Shared;
pub use text::Text;
