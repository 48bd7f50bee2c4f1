// SPDX-License-Identifier: Apache-2.0
ghost use Rattle.std.specs.Prelude.{◌≡◌, IfOk, Ok};
ghost use Rattle.std.specs.Option.{option_copied};
ghost use Rattle.cedar_written.specs.declared.qualifying.Qualifying.{Qualifying};

use crate::qualifying::{Qualifying, walk_unrefused};
use crate::raw_name::RawName;
use crate::walked::Walk;
use cedar_print::{InternalName, Mem};
use std::alloc::Global;

/// The same with the full names that each of its names may stand for in the namespace `ns`. It fails only for want of
/// memory.
pub fn qualify_names<'a, W: Walk<RawName, Qualifying<'a>> + Drop>(
    alloc: Global,
    ns: Option<&'a InternalName>,
    whole: W,
) -> Mem<W::Full>
    ensures { IfOk result (λ made. (step : Qualifying)
        × (option_copied step.namespace ≡ option_copied ns.entry)
        × (W.through step whole ≡ Ok made)) }
{
    let step = Qualifying::new(alloc, ns)?;
    walk_unrefused(alloc, &step, whole)
}
