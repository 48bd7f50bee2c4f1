// SPDX-License-Identifier: Apache-2.0
//! Laws of comparing names, types and declarations: equality, order and hash agree, and leave places out. Each is the
//! contract of a function that does nothing.
#![tactic(auto)]

mod laws;

pub use laws::{
    hash_agrees_with_equality, hash_leaves_places_out, names_leave_places_out,
    order_agrees_with_equality, order_leaves_places_out, structures_leave_places_out,
};
