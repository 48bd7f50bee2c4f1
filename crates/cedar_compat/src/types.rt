// SPDX-License-Identifier: Apache-2.0
ghost use Rattle.cedar_names.specs.Names.{entity_words, name_words};
ghost use Rattle.cedar_types.specs.Types.{entries};
ghost use Rattle.cedar_unfold.specs.ResolvedViews.{resolved, resolved_map};
ghost use Rattle.cedar_compat.specs.BreakChecks.{attribute_check, attributes_check, boolean_check, entity_check, extension_check, in_record, in_set, long_check, record_check, string_check, type_check};
ghost use Rattle.cedar_compat.specs.Changes.{break_of};
ghost use Rattle.cedar_compat.specs.Checks.{Tells};
ghost use Rattle.cedar_compat.specs.Widening.{attribute_named};

use crate::broken::{Broken, refuse, under};
use crate::kind::CompatKind;
use crate::records::check_required;
use cedar_data::{Dup, Out, Text};
use cedar_names::{EntityType, Name};
use cedar_types::{AttributeType, Attributes, Type, TypeView};
use std::alloc::Global;

/// Refuses what isn't `Bool`.
fn check_boolean(alloc: Global, new: &Type) -> Out<(), Broken>
    ensures { Tells break_of result (boolean_check (resolved new.now)) }
{
    match new.view() {
        TypeView::Bool => Ok(()),
        _ => refuse(alloc, CompatKind::TypeChanged),
    }
}

/// Refuses what isn't `Long`.
fn check_long(alloc: Global, new: &Type) -> Out<(), Broken>
    ensures { Tells break_of result (long_check (resolved new.now)) }
{
    match new.view() {
        TypeView::Long => Ok(()),
        _ => refuse(alloc, CompatKind::TypeChanged),
    }
}

/// Refuses what isn't `String`.
fn check_string(alloc: Global, new: &Type) -> Out<(), Broken>
    ensures { Tells break_of result (string_check (resolved new.now)) }
{
    match new.view() {
        TypeView::String => Ok(()),
        _ => refuse(alloc, CompatKind::TypeChanged),
    }
}

/// Refuses what isn't the entities of this type.
fn check_entity(alloc: Global, ty: &EntityType, new: &Type) -> Out<(), Broken>
    ensures { Tells break_of result (entity_check (entity_words ty.now) (resolved new.now)) }
{
    match new.view() {
        TypeView::Entity(found) if found == ty => Ok(()),
        _ => refuse(alloc, CompatKind::TypeChanged),
    }
}

/// Refuses what isn't the extension type of this name.
fn check_extension(alloc: Global, name: &Name, new: &Type) -> Out<(), Broken>
    ensures { Tells break_of result (extension_check (name_words name.now) (resolved new.now)) }
{
    match new.view() {
        TypeView::Extension(found) if found == name => Ok(()),
        _ => refuse(alloc, CompatKind::TypeChanged),
    }
}

/// Refuses a new type that the old one doesn't widen to.
#[cycle(types)]
pub(crate) fn check_type(alloc: Global, old: &Type, new: &Type) -> Out<(), Broken>
    ensures { Tells break_of result (type_check (resolved old.now) (resolved new.now)) }
{
    match old.view() {
        TypeView::Bool => check_boolean(alloc, new),
        TypeView::Long => check_long(alloc, new),
        TypeView::String => check_string(alloc, new),
        TypeView::Set(element) => check_set(alloc, element, new),
        TypeView::Record(attributes, _) => check_record_type(alloc, attributes, new),
        TypeView::Entity(ty) => check_entity(alloc, ty, new),
        TypeView::Extension(name) => check_extension(alloc, name, new),
    }
}

/// Refuses what isn't a set of elements that the old ones widen to.
#[cycle(types)]
fn check_set(alloc: Global, element: &Type, new: &Type) -> Out<(), Broken>
    ensures { Tells break_of result
        (in_set (type_check (resolved element.now)) (resolved new.now)) }
{
    match new.view() {
        TypeView::Set(wider) => under(alloc, "[]", check_type(alloc, element, wider)),
        _ => refuse(alloc, CompatKind::TypeChanged),
    }
}

/// Refuses what isn't a record that the one of the old attributes widens to.
#[cycle(types)]
fn check_record_type(alloc: Global, old: &Attributes, new: &Type) -> Out<(), Broken>
    ensures { Tells break_of result
        (in_record (record_check (resolved_map (entries old.now))) (resolved new.now)) }
{
    match new.view() {
        TypeView::Record(wider, _) => check_record(alloc, old, wider),
        _ => refuse(alloc, CompatKind::TypeChanged),
    }
}

/// Refuses attributes of a record that the one of the old attributes doesn't widen to.
#[cycle(types)]
pub(crate) fn check_record(alloc: Global, old: &Attributes, new: &Attributes) -> Out<(), Broken>
    ensures { Tells break_of result
        (record_check (resolved_map (entries old.now)) (resolved_map (entries new.now))) }
{
    check_attributes(alloc, old, new)?;
    check_required(alloc, old, new)
}

/// Refuses new attributes that lack an old one, or in which its type doesn't widen.
#[cycle(types)]
#[tactic(auto, using(crate::proofs::Rows::each_attribute))]
fn check_attributes(alloc: Global, old: &Attributes, new: &Attributes) -> Out<(), Broken>
    ensures { Tells break_of result
        (attributes_check (resolved_map (entries old.now)) (resolved_map (entries new.now))) }
{
    for (name, attribute) in old.iter() {
        check_attribute(alloc, name, attribute, new)?;
    }
    Ok(())
}

/// Refuses new attributes that lack this one, or in which its type doesn't widen.
#[cycle(types)]
#[tactic(auto, using(crate::proofs::Told::told, crate::proofs::Rows::named))]
fn check_attribute(
    alloc: Global,
    name: &Text,
    attribute: &AttributeType,
    new: &Attributes,
) -> Out<(), Broken>
    ensures { Tells break_of result
        (attribute_check name.now (type_check (resolved attribute.now.attr_type))
        (attribute_named (resolved_map (entries new.now)) name.now)) }
{
    match new.find(name) {
        Some(found) => under(
            alloc,
            name.as_str(),
            check_type(alloc, &attribute.attr_type, &found.attr_type),
        ),
        None => {
            let name = name.dup(alloc)?;
            refuse(alloc, CompatKind::AttributeRemoved { name })
        }
    }
}
