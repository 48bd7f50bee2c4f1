// SPDX-License-Identifier: Apache-2.0
//! Laws: each text is a schema or has an error that says why it is none; each declares a fragment or has errors that say
//! why it declares none; and each denotes a schema or has a cause why it denotes none.
#![tactic(auto)]

mod laws;

pub use laws::{declared_or_told, denoted_or_caused, schema_or_explained};
