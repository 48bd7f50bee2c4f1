// SPDX-License-Identifier: Apache-2.0
//! The namespaces and fragments of a schema in JSON: each is read from a JSON value exactly where the value has its shape,
//! or refused with the value's first fault and the keys that lead to it.
#![tactic(auto)]

mod maps;
mod namespaces;

pub use cedar_json_read::ReadDeclaration;
pub use namespaces::{read_fragment, read_namespace};
