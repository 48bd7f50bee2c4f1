// SPDX-License-Identifier: Apache-2.0
//! Fragments as lines of text, for the verbs of rows that tell them: a line for each declaration,
//! with the places of types, names and declarations or without. Nothing is promised of the lines
//! but that they come; the rows say what they have to be.
#![tactic(auto)]

mod declarations;
mod fragments;
mod types;
mod writing;

pub use declarations::add_definition;
pub use fragments::add_fragment;
pub use types::add_type;
pub use writing::Writing;
