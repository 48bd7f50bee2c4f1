// SPDX-License-Identifier: Apache-2.0
//! The world that a fragment denotes, whatever holds the fragment, and what may be wrong with it;
//! and laws: the definitions that the fragment becomes are of that world, and the faults the same.
#![tactic(auto)]

mod laws;

pub use cedar_namespace_definitions::{
    FromNamespaceDefinition, FromSchemaFragment, ValidatorNamespaceDef, ValidatorSchemaFragment,
};
pub use laws::{faults_of_fragments, worlds_of_fragments};
