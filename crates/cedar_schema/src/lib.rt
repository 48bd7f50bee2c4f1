// SPDX-License-Identifier: Apache-2.0
//! From texts in the human syntax, and from fragments, to the schemas that they denote; or to why
//! they denote none.
#![tactic(auto)]

mod fragments;
mod laws;
mod texts;

pub use cedar_fragment_world::{
    FromNamespaceDefinition, FromSchemaFragment, ValidatorNamespaceDef, ValidatorSchemaFragment,
};
pub use cedar_phases::FromSchemaFragments;
pub use cedar_schema_error::ActionBehavior;
pub use cedar_schema_errors::CedarSchemaError;
pub use fragments::FromFragment;
pub use laws::{
    declared_or_not, one_declared, one_fragment_cause, one_schema_of_text, one_text_cause,
    some_schema_of_text, sound_fragment_or_refused, well_formed_or_refused,
};
pub use texts::{FragmentText, FromCedarSchema};
