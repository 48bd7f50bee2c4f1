// SPDX-License-Identifier: Apache-2.0
use cedar_print::{Dup, Mem};
use std::alloc::Global;

/// Which kinds of types a name may stand for at its place.
#[derive(Clone, Copy, Debug, PartialEq, Eq, PartialOrd, Ord, Hash)]
pub enum ReferenceType {
    /// Common types alone.
    Common,
    /// Entity types alone.
    Entity,
    /// Both.
    CommonOrEntity,
}

impl Dup for ReferenceType {
    fn dup(&self, _alloc: Global) -> Mem<ReferenceType> {
        Ok(*self)
    }
}
