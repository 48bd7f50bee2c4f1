// SPDX-License-Identifier: Apache-2.0
ghost use Rattle.std.specs.Prelude.{◌≡◌, codes};
ghost use Rattle.std.specs.Option.{option_copied, option_map};
ghost use Rattle.serde_json.specs.View.{view, items_view};
ghost use Rattle.cedar_names.specs.Names.{entity_words};
ghost use Rattle.cedar_checks.specs.SchemaViews.{entity_of, schema_in};
ghost use Rattle.cedar_resolved.specs.Schemas.{type_attributes};
ghost use Rattle.cedar_types.specs.Types.{entries};
ghost use Rattle.cedar_unfold.specs.ResolvedViews.{resolved, resolved_map};
ghost use Rattle.cedar_conform.specs.Checks.{Tells, allows, each_item, in_array, in_object, needs, passed};
ghost use Rattle.cedar_conform.specs.EntityChecks.{above_check, data_check, no_items_check, no_members_check, nothing_check, parent_check, tags_check};
ghost use Rattle.cedar_conform.specs.ValueChecks.{record_check};

use crate::references::{known, missing, read_ref};
use crate::refusing::{refuse, under, under_place, wrong_kind};
use crate::values::{check_members, check_record};
use cedar_conform_fault::{Fault, FaultKind};
use cedar_data::{Out, dup_two};
use cedar_json_fault::JsonKind;
use cedar_names::EntityType;
use cedar_resolved::{ValidatorEntityType, ValidatorEntityTypeKind, ValidatorSchema};
use cedar_types::Type;
use serde_json::Value;
use std::alloc::Global;

/// Refuses what is no object, and an object with a member.
#[tactic(auto, using(crate::proofs::ByKind::kinds_of_values, crate::proofs::Empty::empty))]
fn check_no_members(alloc: Global, value: &Value) -> Out<(), Fault>
    ensures { Tells passed result (in_object no_members_check (view value.now)) }
{
    match value.as_object() {
        Some(members) if members.is_empty() => Ok(()),
        Some(_) => refuse(alloc, FaultKind::EnumeratedHasData),
        None => wrong_kind(alloc, value, JsonKind::Object),
    }
}

/// Refuses what is no array, and an array with an item.
#[tactic(auto, using(crate::proofs::ByKind::kinds_of_values, crate::proofs::Empty::empty))]
fn check_no_items(alloc: Global, value: &Value) -> Out<(), Fault>
    ensures { Tells passed result (in_array no_items_check (view value.now)) }
{
    match value.as_array() {
        Some(items) if items.is_empty() => Ok(()),
        Some(_) => refuse(alloc, FaultKind::EnumeratedHasData),
        None => wrong_kind(alloc, value, JsonKind::Array),
    }
}

/// Refuses what is no object of tags of the type; where there may be none, an object with a member.
#[tactic(auto, using(crate::proofs::ByKind::kinds_of_values, crate::proofs::Empty::empty))]
fn check_tags(
    alloc: Global,
    schema: &ValidatorSchema,
    value: &Value,
    tags: Option<&Type>,
) -> Out<(), Fault>
    ensures { Tells passed result
        (tags_check (schema_in schema.now) (option_map resolved (option_copied tags.entry))
        (view value.now)) }
{
    let Some(members) = value.as_object() else {
        return wrong_kind(alloc, value, JsonKind::Object);
    };
    match tags {
        Some(ty) => check_members(alloc, schema, members, ty),
        None if members.is_empty() => Ok(()),
        None => refuse(alloc, FaultKind::TagsNotAllowed),
    }
}

/// Refuses a type that isn't above the other.
#[tactic(auto, using(crate::proofs::Found::found))]
fn check_above(
    alloc: Global,
    above: &ValidatorEntityType,
    parent: &EntityType,
    ty: &EntityType,
) -> Out<(), Fault>
    ensures { Tells passed result
        (above_check (entity_words parent.now) (entity_words ty.now) (entity_of above.now)) }
{
    if above.has_descendant_entity_type(ty) {
        return Ok(());
    }
    let (ty, of) = dup_two(alloc, parent, ty)?;
    refuse(alloc, FaultKind::NotAnAncestor { ty, of })
}

/// Refuses what is no parent of an entity of the type.
fn check_parent(
    alloc: Global,
    schema: &ValidatorSchema,
    value: &Value,
    ty: &EntityType,
) -> Out<(), Fault>
    ensures { Tells passed result
        (parent_check (schema_in schema.now) (entity_words ty.now) (view value.now)) }
{
    let parent = read_ref(alloc, value)?;
    let above = known(alloc, schema, &parent)?;
    check_above(alloc, above, parent.entity_type(), ty)
}

/// Refuses items of which one is no parent of an entity of the type.
#[tactic(auto, using(crate::proofs::Items::each_item_passes))]
fn check_each_parent(
    alloc: Global,
    schema: &ValidatorSchema,
    items: &Vec<Value>,
    ty: &EntityType,
) -> Out<(), Fault>
    ensures { Tells passed result
        (each_item (parent_check (schema_in schema.now) (entity_words ty.now)) 0
        (items_view items.now.items)) }
{
    let mut place = 0usize;
    for item in items {
        under_place(alloc, place, check_parent(alloc, schema, item, ty))?;
        place += 1;
    }
    Ok(())
}

/// Refuses what is no array of parents of an entity of the type.
fn check_parents(
    alloc: Global,
    schema: &ValidatorSchema,
    value: &Value,
    ty: &EntityType,
) -> Out<(), Fault>
    ensures { Tells passed result (in_array
        (each_item (parent_check (schema_in schema.now) (entity_words ty.now)) 0)
        (view value.now)) }
{
    match value.as_array() {
        Some(items) => check_each_parent(alloc, schema, items, ty),
        None => wrong_kind(alloc, value, JsonKind::Array),
    }
}

/// Refuses what doesn't fit the record of the attributes of the type.
fn check_attrs(
    alloc: Global,
    schema: &ValidatorSchema,
    value: &Value,
    found: &ValidatorEntityType,
) -> Out<(), Fault>
    ensures { Tells passed result
        (record_check (schema_in schema.now) (resolved_map (entries (type_attributes found.now)))
        (view value.now)) }
{
    check_record(alloc, schema, value, found.attributes())
}

/// Refuses attributes that are missing or don't fit the type.
fn check_attrs_at(
    alloc: Global,
    schema: &ValidatorSchema,
    value: &Value,
    found: &ValidatorEntityType,
) -> Out<(), Fault>
    ensures { Tells passed result (needs (codes "attrs")
        (record_check (schema_in schema.now) (resolved_map (entries (type_attributes found.now))))
        (view value.now)) }
{
    match value.get("attrs") {
        Some(attrs) => under(alloc, "attrs", check_attrs(alloc, schema, attrs, found)),
        None => missing(alloc, "attrs"),
    }
}

/// Refuses parents that are missing or are none of an entity of the type.
fn check_parents_at(
    alloc: Global,
    schema: &ValidatorSchema,
    value: &Value,
    ty: &EntityType,
) -> Out<(), Fault>
    ensures { Tells passed result (needs (codes "parents")
        (in_array (each_item (parent_check (schema_in schema.now) (entity_words ty.now)) 0))
        (view value.now)) }
{
    match value.get("parents") {
        Some(parents) => under(alloc, "parents", check_parents(alloc, schema, parents, ty)),
        None => missing(alloc, "parents"),
    }
}

/// Refuses tags that are there and are none of the type.
fn check_tags_at(
    alloc: Global,
    schema: &ValidatorSchema,
    value: &Value,
    tags: Option<&Type>,
) -> Out<(), Fault>
    ensures { Tells passed result
        (allows (codes "tags")
        (tags_check (schema_in schema.now) (option_map resolved (option_copied tags.entry)))
        (view value.now)) }
{
    match value.get("tags") {
        Some(member) => under(alloc, "tags", check_tags(alloc, schema, member, tags)),
        None => Ok(()),
    }
}

/// Refuses an entity that has anything, or lacks what says that it has nothing.
fn check_nothing(alloc: Global, value: &Value) -> Out<(), Fault>
    ensures { Tells passed result (nothing_check (view value.now)) }
{
    match value.get("attrs") {
        Some(attrs) => under(alloc, "attrs", check_no_members(alloc, attrs))?,
        None => return missing(alloc, "attrs"),
    }
    match value.get("parents") {
        Some(parents) => under(alloc, "parents", check_no_items(alloc, parents))?,
        None => return missing(alloc, "parents"),
    }
    match value.get("tags") {
        Some(tags) => under(alloc, "tags", check_no_members(alloc, tags)),
        None => Ok(()),
    }
}

/// Refuses an entity that doesn't have what one of its type has: `found` is its type in the schema, `ty` the name.
pub(crate) fn check_data(
    alloc: Global,
    schema: &ValidatorSchema,
    value: &Value,
    ty: &EntityType,
    found: &ValidatorEntityType,
) -> Out<(), Fault>
    ensures { Tells passed result (data_check (schema_in schema.now) (entity_words ty.now)
        (entity_of found.now).kind (view value.now)) }
{
    match &found.kind {
        ValidatorEntityTypeKind::Standard(standard) => {
            check_attrs_at(alloc, schema, value, found)?;
            check_parents_at(alloc, schema, value, ty)?;
            check_tags_at(alloc, schema, value, standard.tag_type())
        }
        ValidatorEntityTypeKind::Enum(_) => check_nothing(alloc, value),
    }
}
