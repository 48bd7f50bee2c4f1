// SPDX-License-Identifier: Apache-2.0
//! Laws: what is listed and counted of a schema is determined by the plain schema that it is, and so by the text that
//! denotes it; and what is said of an error by what the error tells, places aside.
#![tactic(auto)]

mod laws;

pub use laws::{one_answer, one_listing, one_refusal_text, plain_data_is_listed};
