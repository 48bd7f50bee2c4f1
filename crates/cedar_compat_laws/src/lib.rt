// SPDX-License-Identifier: Apache-2.0
//! Laws of compatible schemas: what is valid under the old one is valid under the new one.
#![tactic(auto)]

mod differing;
mod laws;

pub use cedar_compat::{CompatFault, CompatKind};
pub use differing::names_differ;
pub use laws::{compatible_with_data, old_data_stays_valid};
