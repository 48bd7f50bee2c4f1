// SPDX-License-Identifier: Apache-2.0
//! Laws of targets: what is so of full names is so of the references that they are the targets of.
#![tactic(auto)]

mod laws;

pub use cedar_missing::HasReferences;
pub use cedar_world::builtin_definitions;
pub use laws::{agreeing_names, full_jobs, missing_is, walked_types};
