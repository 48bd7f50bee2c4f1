// SPDX-License-Identifier: Apache-2.0
//! The builtin types and their aliases, as definitions of namespaces.
#![tactic(auto)]

mod builtins;

pub use builtins::builtin_definitions;
pub use cedar_declared::{
    ActionFragment, AllDefs, EntityTypeFragment, EntityTypesDef, ValidatorApplySpec,
    ValidatorNamespaceDef,
};
pub use cedar_unfold::{ActionEntityUID, Attributes, AttributesOrContext, UsePlace, ValueMap};
