// SPDX-License-Identifier: Apache-2.0
ghost use Rattle.std.specs.Prelude.{◌≡◌};
ghost use Rattle.cedar_types.specs.Types.{entries};
ghost use Rattle.cedar_unfold.specs.Resolved.{no_attributes};
ghost use Rattle.cedar_unfold.specs.ResolvedViews.{resolved_map};
ghost use Rattle.cedar_compat.specs.BreakChecks.{needed_check, required_check};
ghost use Rattle.cedar_compat.specs.Changes.{break_of};
ghost use Rattle.cedar_compat.specs.Checks.{Tells};
ghost use Rattle.cedar_compat.specs.Widening as widening;

use crate::broken::{Broken, refuse};
use crate::kind::CompatKind;
use cedar_data::{Dup, Out, Text};
use cedar_types::Attributes;
use std::alloc::Global;

/// Whether there is an attribute of this name, and it is required.
#[tactic(auto, using(crate::proofs::Rows::named))]
fn needs(attributes: &Attributes, name: &Text) -> bool
    ensures { result ≡ widening.needs (resolved_map (entries attributes.now)) name.now }
{
    match attributes.find(name) {
        Some(found) => found.is_required,
        None => false,
    }
}

/// Refuses an attribute that is required.
fn check_optional(alloc: Global, name: &Text, is_required: bool) -> Out<(), Broken>
    ensures { Tells break_of result (needed_check no_attributes name.now is_required) }
{
    if !is_required {
        return Ok(());
    }
    let name = name.dup(alloc)?;
    refuse(alloc, CompatKind::NowRequired { name })
}

/// Refuses attributes of which one is required.
#[tactic(auto, using(crate::proofs::Needs::each_needed))]
pub(crate) fn check_none_required(alloc: Global, new: &Attributes) -> Out<(), Broken>
    ensures { Tells break_of result
        (required_check no_attributes (resolved_map (entries new.now))) }
{
    for (name, attribute) in new.iter() {
        check_optional(alloc, name, attribute.is_required)?;
    }
    Ok(())
}

/// Refuses an attribute that is required, unless it was among the old ones.
fn check_needed(alloc: Global, old: &Attributes, name: &Text, is_required: bool) -> Out<(), Broken>
    ensures { Tells break_of result
        (needed_check (resolved_map (entries old.now)) name.now is_required) }
{
    if needs(old, name) {
        return Ok(());
    }
    check_optional(alloc, name, is_required)
}

/// Refuses new attributes of which one is required that wasn't among the old ones.
#[tactic(auto, using(crate::proofs::Needs::each_needed))]
pub(crate) fn check_required(alloc: Global, old: &Attributes, new: &Attributes) -> Out<(), Broken>
    ensures { Tells break_of result
        (required_check (resolved_map (entries old.now)) (resolved_map (entries new.now))) }
{
    for (name, attribute) in new.iter() {
        check_needed(alloc, old, name, attribute.is_required)?;
    }
    Ok(())
}
