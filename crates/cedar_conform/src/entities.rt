// SPDX-License-Identifier: Apache-2.0
ghost use Rattle.std.specs.Prelude.{◌≡◌, codes, map, IfOk};
ghost use Rattle.serde_json.specs.View.{view, items_view};
ghost use Rattle.cedar_text.specs.Failures.{IfRefused};
ghost use Rattle.cedar_schema_error.specs.FullNames.{uid_in};
ghost use Rattle.cedar_checks.specs.SchemaViews.{schema_in};
ghost use Rattle.cedar_conform.specs.Checks.{Tells, needs, passed};
ghost use Rattle.cedar_conform.specs.Entities.{AreEntities};
ghost use Rattle.cedar_conform.specs.EntityChecks.{each_entity, entities_check, entity_of, items_check, known_reference_check};

use crate::data::check_data;
use crate::keys::{Keyed, check_keys};
use crate::references::{known, missing, read_ref};
use crate::refusing::{under, under_place, wrong_kind};
use crate::repeats::check_repeats;
use cedar_conform_fault::Fault;
use cedar_data::{Items, Out};
use cedar_json_fault::JsonKind;
use cedar_names::EntityUID;
use cedar_resolved::ValidatorSchema;
use serde_json::Value;
use std::alloc::Global;

/// The entity that the value says that it is, if the schema knows it.
fn known_reference(alloc: Global, schema: &ValidatorSchema, value: &Value) -> Out<EntityUID, Fault>
    ensures { Tells uid_in result (known_reference_check (schema_in schema.now) (view value.now)) }
{
    let uid = read_ref(alloc, value)?;
    known(alloc, schema, &uid)?;
    Ok(uid)
}

/// The entity at the key `uid`.
fn uid_at(alloc: Global, schema: &ValidatorSchema, value: &Value) -> Out<EntityUID, Fault>
    ensures { Tells uid_in result
        (needs (codes "uid") (known_reference_check (schema_in schema.now)) (view value.now)) }
{
    match value.get("uid") {
        Some(member) => under(alloc, "uid", known_reference(alloc, schema, member)),
        None => missing(alloc, "uid"),
    }
}

/// The entity that the value is.
#[tactic(auto, using(crate::proofs::Told::told), unfolding(crate::specs::EntityChecks::entity_of))]
fn read_entity(alloc: Global, schema: &ValidatorSchema, value: &Value) -> Out<EntityUID, Fault>
    ensures { Tells uid_in result (entity_of (schema_in schema.now) (view value.now)) }
{
    check_keys(alloc, value, Keyed::Entity)?;
    let uid = uid_at(alloc, schema, value)?;
    let found = known(alloc, schema, &uid)?;
    check_data(alloc, schema, value, uid.entity_type(), found)?;
    Ok(uid)
}

/// The entities that the items are.
#[tactic(auto, using(crate::proofs::Told::told, crate::proofs::EntityLoops::each_entity_reads))]
fn read_entities(
    alloc: Global,
    schema: &ValidatorSchema,
    items: &Vec<Value>,
) -> Out<Items<EntityUID>, Fault>
    ensures { Tells (map uid_in) result
        (each_entity (schema_in schema.now) 0 (items_view items.now.items)) }
{
    let mut read = Items::new(alloc);
    let mut place = 0usize;
    for item in items {
        let uid = under_place(alloc, place, read_entity(alloc, schema, item))?;
        read.push(uid)?;
        place += 1;
    }
    Ok(read)
}

/// Refuses items of which one is no entity of the schema, or one stands twice.
fn check_items(alloc: Global, schema: &ValidatorSchema, items: &Vec<Value>) -> Out<(), Fault>
    ensures { Tells passed result
        (items_check (schema_in schema.now) (items_view items.now.items)) }
{
    let uids = read_entities(alloc, schema, items)?;
    check_repeats(alloc, uids.as_slice())
}

/// Refuses what is no list of entities of the schema, of which none stands twice.
#[tactic(auto, using(crate::proofs::Told::told, crate::proofs::ByKind::kinds_of_values), unfolding(crate::specs::EntityChecks::entities_check))]
fn check_entities(alloc: Global, schema: &ValidatorSchema, value: &Value) -> Out<(), Fault>
    ensures { Tells passed result (entities_check (schema_in schema.now) (view value.now)) }
{
    match value.as_array() {
        Some(items) => check_items(alloc, schema, items),
        None => wrong_kind(alloc, value, JsonKind::Array),
    }
}

/// Refuses a value in JSON that is no list of entities of the schema, of which none stands twice. An entity is an
/// object with the keys `uid`, a reference as `read_ref` takes it, `attrs`, `parents` and perhaps `tags`. Refused with
/// the first misfit: entity by entity, in each the unknown keys, then `uid`, `attrs`, `parents`, `tags`; and behind
/// all of them the first entity that stands twice.
#[tactic(auto, using(crate::proofs::PassingEntities::passing_entities))]
pub fn conforms_entities(alloc: Global, schema: &ValidatorSchema, v: &Value) -> Out<(), Fault>
    ensures told { Tells passed result (entities_check (schema_in schema.now) (view v.now)) }
    ensures fits { IfOk result (λ _. AreEntities (schema_in schema.now) (view v.now)) }
    ensures unfit { IfRefused result (λ _. AreEntities (schema_in schema.now) (view v.now) → ⊥) }
{
    check_entities(alloc, schema, v)
}
