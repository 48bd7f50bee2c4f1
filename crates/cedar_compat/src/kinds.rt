// SPDX-License-Identifier: Apache-2.0
ghost use Rattle.std.specs.Prelude.{◌≡◌, IfOk};
ghost use Rattle.std.specs.Option.{option_copied, option_map};
ghost use Rattle.cedar_text.specs.Lists.{elements};
ghost use Rattle.cedar_checks.specs.SchemaViews.{entity_of};
ghost use Rattle.cedar_unfold.specs.ResolvedViews.{resolved};
ghost use Rattle.cedar_compat.specs.BreakChecks.{choice_check, each, kind_check, tags_check};
ghost use Rattle.cedar_compat.specs.Changes.{break_of};
ghost use Rattle.cedar_compat.specs.Checks.{Tells};
ghost use Rattle.cedar_compat.specs.Choices.{AreChoices, searched_check};

use crate::broken::{Broken, refuse, under};
use crate::kind::CompatKind;
use crate::records::check_none_required;
use crate::types::{check_record, check_type};
use cedar_data::{Dup, Mem, Out, Set, Text};
use cedar_resolved::{ValidatorEntityType, ValidatorEntityTypeKind};
use cedar_text::NonEmpty;
use cedar_types::Type;
use std::alloc::Global;

/// The choices in order, to search in.
#[tactic(auto, using(crate::proofs::Choices::choices))]
fn choices_in_order(alloc: Global, choices: &NonEmpty<Text>) -> Mem<Set<Text>>
    ensures { IfOk result (AreChoices (elements choices.now)) }
{
    let mut ids = Set::new(alloc);
    for id in choices.iter() {
        ids.insert(id.dup(alloc)?)?;
    }
    Ok(ids)
}

/// Refuses new choices that lack this one.
fn check_choice(alloc: Global, id: &Text, new: &Set<Text>) -> Out<(), Broken>
    ensures { Tells break_of result (searched_check new.now id.now) }
{
    if new.contains(id) {
        return Ok(());
    }
    let id = id.dup(alloc)?;
    refuse(alloc, CompatKind::ChoiceRemoved { id })
}

/// Refuses new choices that lack an old one.
#[tactic(auto, using(crate::proofs::Each::each_passes))]
fn check_each_choice(alloc: Global, old: &NonEmpty<Text>, new: &Set<Text>) -> Out<(), Broken>
    ensures { Tells break_of result (each (searched_check new.now) (elements old.now)) }
{
    for id in old.iter() {
        check_choice(alloc, id, new)?;
    }
    Ok(())
}

/// The same of new choices as they are listed.
fn check_choices(alloc: Global, old: &NonEmpty<Text>, new: &NonEmpty<Text>) -> Out<(), Broken>
    ensures { Tells break_of result
        (each (choice_check (elements new.now)) (elements old.now)) }
{
    let new = choices_in_order(alloc, new)?;
    check_each_choice(alloc, old, &new)
}

/// Refuses a new type of tags that the old one doesn't widen to, and that there is none any more.
fn check_tags(alloc: Global, old: Option<&Type>, new: Option<&Type>) -> Out<(), Broken>
    ensures { Tells break_of result (tags_check (option_map resolved (option_copied old.entry))
        (option_map resolved (option_copied new.entry))) }
{
    match (old, new) {
        (None, _) => Ok(()),
        (Some(_), None) => refuse(alloc, CompatKind::TagsRemoved),
        (Some(old), Some(new)) => under(alloc, "tags", check_type(alloc, old, new)),
    }
}

/// Refuses an entity type whose kind takes away choices, attributes or tags of the old one.
pub(crate) fn check_kind(
    alloc: Global,
    old: &ValidatorEntityType,
    new: &ValidatorEntityType,
) -> Out<(), Broken>
    ensures { Tells break_of result
        (kind_check (entity_of old.now).kind (entity_of new.now).kind) }
{
    match (&old.kind, &new.kind) {
        (ValidatorEntityTypeKind::Standard(before), ValidatorEntityTypeKind::Standard(after)) => {
            check_record(alloc, old.attributes(), new.attributes())?;
            check_tags(alloc, before.tag_type(), after.tag_type())
        }
        (ValidatorEntityTypeKind::Standard(_), ValidatorEntityTypeKind::Enum(_)) => {
            refuse(alloc, CompatKind::BecameEnumerated)
        }
        (ValidatorEntityTypeKind::Enum(_), ValidatorEntityTypeKind::Standard(_)) => {
            check_none_required(alloc, new.attributes())
        }
        (ValidatorEntityTypeKind::Enum(before), ValidatorEntityTypeKind::Enum(after)) => {
            check_choices(alloc, before, after)
        }
    }
}
