// SPDX-License-Identifier: Apache-2.0
//! What the tree of a schema declares, as code holds it: types.
#![tactic(auto)]

mod converting;
mod types;

pub use cedar_convert_faults::{
    Gathered, Kind, ToJsonSchemaError, ToJsonSchemaErrors, faults_among,
};
pub use converting::cedar_type_to_json_type;
pub use types::{primitive_to_variant, raw_name_from_path, shape_declared, type_declared};
