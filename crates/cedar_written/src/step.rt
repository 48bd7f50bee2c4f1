// SPDX-License-Identifier: Apache-2.0
ghost use Rattle.std.specs.declared.result.Result.{Result};
ghost use Rattle.cedar_written.specs.Reference.{Reference, named, parent};
ghost use Rattle.cedar_written.specs.Answers.{Answers};

use crate::ref_name::RefName;
use crate::reference_type::ReferenceType;
use cedar_print::{Out, Text};
use std::alloc::Global;

/// What becomes of each name, or why it is refused.
pub trait Step<N> {
    /// What stands in place of a name.
    type Made: RefName + Drop;

    /// Why a name is refused.
    type Refusal: Drop;

    /// What comes of a reference, want of memory aside.
    ghost step: { Self → Reference N → Result Self.Made Self.Refusal };

    /// What comes of a name at a place of this kind.
    fn go(&self, alloc: Global, kind: ReferenceType, name: N) -> Out<Self::Made, Self::Refusal>
        ensures { Answers result (step self.now (named kind name)) };

    /// What comes of the type of the parent `id` of an action, where it may be left out.
    fn go_parent(&self, alloc: Global, id: &Text, ty: Option<N>) -> Out<Self::Made, Self::Refusal>
        ensures { Answers result (step self.now (parent id.now ty)) };
}
