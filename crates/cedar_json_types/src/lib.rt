// SPDX-License-Identifier: Apache-2.0
//! The types of a schema in JSON and their parts: each is read from a JSON value exactly where the value has its shape, or
//! refused with the value's first fault and the keys that lead to it.
#![tactic(auto)]

mod collections;
mod fields;
mod keyed;
mod names;
mod notes;
mod reading;
mod refusing;
mod types;
mod words;

pub use fields::{if_not_null, if_there, needed, unless_absent};
pub use keyed::{KeySet, check_keys, refuse_key};
pub use names::{read_id, read_reference, reference_of};
pub use reading::{JsonKey, MayBeAbsent, ReadPart};
pub use refusing::{kind_of, missing, refuse, under, under_place, unknown, wrong_type};
pub use types::{flag_at, read_outer_type};
pub use words::{TypeWord, word_of};
