// SPDX-License-Identifier: Apache-2.0
//! A law of fragments that are held: their maps ascend at every depth. It is the contract of a function that goes through
//! the maps.
#![tactic(auto)]

mod declarations;
mod fragments;
mod types;

pub use fragments::maps_in_order;
