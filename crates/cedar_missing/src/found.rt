// SPDX-License-Identifier: Apache-2.0
ghost use Rattle.std.specs.Prelude.{◌≡◌, IfOk};
ghost use Rattle.cedar_declared.specs.Held.{names_of};
ghost use Rattle.cedar_missing.specs.Undeclared.{found_parent};

use cedar_data::{Dup, Failure, Mem, NoMemory};
use cedar_declared::{ActionEntityUID, AllDefs, ConditionalName, Resolving, Step};
use cedar_names::InternalName;
use std::alloc::Global;

/// The type with which the parent of an action is a declared action, if there is one.
pub(crate) fn find_parent(
    alloc: Global,
    all_defs: &AllDefs,
    parent: &ActionEntityUID<ConditionalName>,
) -> Mem<Option<InternalName>>
    ensures { IfOk result (λ o. o ≡ found_parent (names_of all_defs.now) parent.now) }
{
    let ty = parent.ty().dup(alloc)?;
    let step = Resolving { all_defs };
    match step.go_parent(alloc, &parent.id, Some(ty)) {
        Ok(name) => Ok(Some(name)),
        Err(Failure::Refused(_)) => Ok(None),
        Err(Failure::NoMemory) => Err(NoMemory),
    }
}
