// SPDX-License-Identifier: Apache-2.0
//! What the declarations of a schema declare, as code holds it: entity types, actions, common types.
#![tactic(auto)]

mod applying;
mod kinds;
mod putting;

pub use cedar_convert_fragment::{
    Gathered, Kind, ToJsonSchemaError, ToJsonSchemaErrors, cedar_type_to_json_type, faults_among,
    primitive_to_variant, raw_name_from_path,
};
pub use cedar_fragment::{
    ActionType, CommonType, CommonTypeId, EntityType, Fragment, NamespaceDefinition, RawName,
};
pub use kinds::{add_actions, add_common, add_entities};
