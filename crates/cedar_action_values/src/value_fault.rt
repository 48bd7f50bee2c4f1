// SPDX-License-Identifier: Apache-2.0
use cedar_data::{Dup, Mem};
use std::alloc::Global;

/// What may not stand in an attribute of an action.
#[derive(Clone, Copy, Debug, PartialEq, Eq)]
pub enum ValueFault {
    /// A set without elements, whose type nothing tells.
    EmptySet,
    /// No value.
    Null,
    /// An object with the key `__entity`.
    EntityEscape,
    /// An object with the key `__expr`.
    ExprEscape,
    /// An object with the key `__extn`.
    ExtnEscape,
}

impl Dup for ValueFault {
    fn dup(&self, _alloc: Global) -> Mem<ValueFault> {
        Ok(*self)
    }
}
