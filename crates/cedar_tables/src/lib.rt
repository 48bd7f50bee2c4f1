// SPDX-License-Identifier: Apache-2.0
//! Definitions taken apart into tables: common types by name, uses of types by place, and what is
//! left of each entity type and each action without its types.
#![tactic(auto)]

mod apart;
mod declarations;
mod splits;

pub use apart::tables_of;
