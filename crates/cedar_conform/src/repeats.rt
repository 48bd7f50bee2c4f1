// SPDX-License-Identifier: Apache-2.0
ghost use Rattle.std.specs.Prelude.{◌≡◌, [], map};
ghost use Rattle.cedar_schema_error.specs.FullNames.{uid_in};
ghost use Rattle.cedar_conform.specs.Checks.{Tells, passed};
ghost use Rattle.cedar_conform.specs.EntityChecks.{repeated_check, repeats_check};

use crate::refusing::{refuse, under_place};
use cedar_conform_fault::{Fault, FaultKind};
use cedar_data::{Dup, Out, Set};
use cedar_names::EntityUID;
use std::alloc::Global;

/// Refuses the entity as one that stands twice.
fn refuse_repeated(alloc: Global, uid: &EntityUID) -> Out<(), Fault>
    ensures { Tells passed result (repeated_check (uid_in uid.now)) }
{
    let uid = uid.dup(alloc)?;
    refuse(alloc, FaultKind::RepeatedEntity { uid })
}

/// Refuses entities of which one stands twice, at the first that stands before it.
#[tactic(auto, using(crate::proofs::Told::told, crate::proofs::RepeatLoops::seeks_repeats))]
pub(crate) fn check_repeats(alloc: Global, uids: &[EntityUID]) -> Out<(), Fault>
    ensures { Tells passed result (repeats_check 0 [] (map uid_in uids.now)) }
{
    let mut before = Set::new(alloc);
    let mut place = 0usize;
    for uid in uids {
        if before.contains(uid) {
            return under_place(alloc, place, refuse_repeated(alloc, uid));
        }
        let seen = uid.dup(alloc)?;
        before.insert(seen)?;
        place += 1;
    }
    Ok(())
}
