// SPDX-License-Identifier: Apache-2.0
ghost use Rattle.std.specs.Prelude.{◌≡◌};
ghost use Rattle.cedar_unfolding.specs.Resolved.{nest};
ghost use Rattle.cedar_unfold.specs.ResolvedViews.{resolved};

use cedar_data::{Dup, Mem};
use cedar_types::Type;
use std::alloc::Global;

/// A finished type, with how deep sets and records stand in one another in it, so that this need not be found again.
#[derive(Drop)]
pub(crate) struct Nested {
    pub(crate) ty: Type,
    pub(crate) depth: usize,
    pub(crate) ghost measured: { depth ≡ nest (resolved ty) },
}

impl Dup for Nested {
    fn dup(&self, alloc: Global) -> Mem<Nested> {
        let ty = self.ty.dup(alloc)?;
        Ok(Nested {
            ty,
            depth: self.depth,
        })
    }
}
