// SPDX-License-Identifier: Apache-2.0
//! Common types written out: what each common type and each use of a type unfolds to, once each, and
//! why a schema has no such types. It looks at each written type at most twice.
#![tactic(auto)]

mod all;
mod building;
mod copies;
mod entries;
mod faults;
mod fill;
mod keys;
mod laws;
mod nested;
mod node;
mod schema_type;
mod steps;
mod survey;
mod uncounted;
mod unfold_type;
mod uses;

pub use all::{Unfolded, unfold_all};
pub use cedar_schema_error::{
    ActionEntityUID, AttributesOrContext, ConditionalName, ReferenceType, SchemaType, TypeVariant,
    UsePlace,
};
pub use cedar_types::{Attributes, ValueMap};
pub use laws::one_unfolding;
pub use node::{Looked, TypeNode};
pub use steps::Steps;
pub use uncounted::unfold_uncounted;
