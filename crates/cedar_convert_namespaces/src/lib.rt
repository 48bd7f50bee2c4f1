// SPDX-License-Identifier: Apache-2.0
//! The fragment that the namespaces of a schema declare, and what one namespace declares.
#![tactic(auto)]

mod converting;
mod namespaces;

pub use cedar_convert_declarations::{
    Fragment, RawName, cedar_type_to_json_type, primitive_to_variant, raw_name_from_path,
};
pub use converting::{from_annotated_namespace, refuse};
pub use namespaces::fragment_declared;
