// SPDX-License-Identifier: Apache-2.0
//! The types of the attributes of actions, which their values tell, and what may not stand in these values.
#![tactic(auto)]

mod typing;
mod value_fault;

pub use typing::{attribute_types, type_of_value};
pub use value_fault::ValueFault;
