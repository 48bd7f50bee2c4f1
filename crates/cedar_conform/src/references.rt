// SPDX-License-Identifier: Apache-2.0
ghost use Rattle.std.specs.Prelude.{◌≡◌, Some, codes, IfOk};
ghost use Rattle.std.specs.Option.{option_map};
ghost use Rattle.serde_json.specs.View.{view};
ghost use Rattle.cedar_text.specs.Failures.{IfRefused};
ghost use Rattle.cedar_text.specs.Faults.{no_unreserved_id};
ghost use Rattle.cedar_text.specs.Words.{has_word};
ghost use Rattle.cedar_text.specs.NormalNames.{name_fault};
ghost use Rattle.cedar_names.specs.EntityUids.{entity_type_of};
ghost use Rattle.cedar_names.specs.Names.{entity_words};
ghost use Rattle.cedar_resolved.specs.Schemas.{type_at};
ghost use Rattle.cedar_schema_error.specs.FullNames.{Uid, uid_in};
ghost use Rattle.cedar_checks.specs.SchemaViews.{entity_of, schema_in};
ghost use Rattle.cedar_conform.specs.Checks.{IsMissing, Tells, needs, passed};
ghost use Rattle.cedar_conform.specs.References.{IsNowhere, IsPlaceless, IsReference, may_have};
ghost use Rattle.cedar_conform.specs.ValueChecks.{choice_check, entity_check, known_check, name_check, named, only_entity, plain_check, reference_check, same_type, text_check};

use crate::keys::{Keyed, check_keys};
use crate::refusing::{refuse, under, wrong_kind};
use cedar_conform_fault::{Fault, FaultKind};
use cedar_data::{Dup, Failure, Out, Text, dup_two};
use cedar_json_fault::JsonKind;
use cedar_names::{Eid, EntityType, EntityUID};
use cedar_resolved::{ValidatorEntityType, ValidatorEntityTypeKind, ValidatorSchema};
use serde_json::Value;
use std::alloc::Global;

/// The entity type that the text names.
fn type_named(alloc: Global, text: &str) -> Out<EntityType, Fault>
    ensures told { Tells entity_words result
        (named text.now (name_fault no_unreserved_id text.now)) }
    ensures nowhere { IfOk result IsPlaceless }
{
    match EntityType::from_normalized_str(alloc, text) {
        Ok(ty) => Ok(ty),
        Err(Failure::NoMemory) => Err(Failure::NoMemory),
        Err(Failure::Refused(fault)) => {
            let text = Text::new(alloc, text)?;
            refuse(alloc, FaultKind::InvalidName { text, fault })
        }
    }
}

/// The entity type that the value names.
fn read_type(alloc: Global, value: &Value) -> Out<EntityType, Fault>
    ensures told { Tells entity_words result (name_check (view value.now)) }
    ensures nowhere { IfOk result IsPlaceless }
{
    match value.as_str() {
        Some(text) => type_named(alloc, text),
        None => wrong_kind(alloc, value, JsonKind::String),
    }
}

/// The text that the value is.
fn read_text(alloc: Global, value: &Value) -> Out<Text, Fault>
    ensures { Tells (λ text. text) result (text_check (view value.now)) }
{
    match value.as_str() {
        Some(text) => {
            let text = Text::new(alloc, text)?;
            Ok(text)
        }
        None => wrong_kind(alloc, value, JsonKind::String),
    }
}

/// Refuses a value without this key.
pub fn missing<T>(alloc: Global, field: &str) -> Out<T, Fault>
    ensures ok { IfOk result (λ _. ⊥) }
    ensures refused { IfRefused result (IsMissing field.now) }
{
    let field = Text::new(alloc, field)?;
    refuse(alloc, FaultKind::MissingField { field })
}

/// The entity type at the key `type`.
fn type_at(alloc: Global, value: &Value) -> Out<EntityType, Fault>
    ensures told { Tells entity_words result (needs (codes "type") name_check (view value.now)) }
    ensures nowhere { IfOk result IsPlaceless }
{
    match value.get("type") {
        Some(member) => under(alloc, "type", read_type(alloc, member)),
        None => missing(alloc, "type"),
    }
}

/// The text at the key `id`.
fn id_at(alloc: Global, value: &Value) -> Out<Text, Fault>
    ensures { Tells (λ text. text) result (needs (codes "id") text_check (view value.now)) }
{
    match value.get("id") {
        Some(member) => under(alloc, "id", read_text(alloc, member)),
        None => missing(alloc, "id"),
    }
}

/// The entity to which the value refers by a type and an id.
#[tactic(auto, using(crate::proofs::Told::told), unfolding(crate::specs::ValueChecks::plain_check))]
fn plain_reference(alloc: Global, value: &Value) -> Out<EntityUID, Fault>
    ensures told { Tells uid_in result (plain_check (view value.now)) }
    ensures nowhere { IfOk result IsNowhere }
{
    check_keys(alloc, value, Keyed::Reference)?;
    let ty = type_at(alloc, value)?;
    let id = id_at(alloc, value)?;
    Ok(EntityUID::from_components(ty, Eid::new(id), None))
}

/// What stands at the key `__entity`, where the value is an object with no other key.
#[tactic(auto, using(crate::proofs::Escapes::escapes))]
fn inner_of(value: &Value) -> Option<&Value>
    ensures { option_map (λ v. view v.now) result ≡ only_entity (view value.now) }
{
    match value.as_object() {
        Some(members) if members.len() == 1 => value.get("__entity"),
        _ => None,
    }
}

/// The entity to which the value refers, plainly or as an escape.
#[tactic(auto, using(crate::proofs::Told::told), unfolding(crate::specs::ValueChecks::reference_check))]
fn reference(alloc: Global, value: &Value) -> Out<EntityUID, Fault>
    ensures told { Tells uid_in result (reference_check (view value.now)) }
    ensures nowhere { IfOk result IsNowhere }
{
    match inner_of(value) {
        Some(inner) => under(alloc, "__entity", plain_reference(alloc, inner)),
        None => plain_reference(alloc, value),
    }
}

/// The entity to which a value in JSON refers: an object with the keys `type`, the normalized name of an entity type,
/// and `id`, a text; or an object whose only key is `__entity`, which holds such an object. The entity has no place.
/// Refused with the first misfit.
#[tactic(auto, using(crate::proofs::Passing::passing))]
pub fn read_ref(alloc: Global, v: &Value) -> Out<EntityUID, Fault>
    ensures told { Tells uid_in result (reference_check (view v.now)) }
    ensures refers { IfOk result (λ uid. IsReference (view v.now) (uid_in uid)) }
    ensures none { IfRefused result (λ _. (u : Uid) → IsReference (view v.now) u → ⊥) }
    ensures nowhere { IfOk result IsNowhere }
{
    reference(alloc, v)
}

/// Whether the id is one of these.
fn is_one_of(ids: &[Text], id: &str) -> bool
    ensures { result ≡ has_word ids.now id.now }
{
    ids.iter().any(|choice| id == choice.as_str())
}

/// Whether the type may have an entity of the id.
fn may_have_id(ty: &ValidatorEntityType, id: &str) -> bool
    ensures { result ≡ may_have (entity_of ty.now).kind id.now }
{
    match &ty.kind {
        ValidatorEntityTypeKind::Standard(_) => true,
        ValidatorEntityTypeKind::Enum(ids) => {
            id == ids.first().as_str() || is_one_of(ids.tail.as_slice(), id)
        }
    }
}

/// The type, where the entity may be one of it.
fn chosen<'a>(
    alloc: Global,
    ty: &'a ValidatorEntityType,
    uid: &EntityUID,
) -> Out<&'a ValidatorEntityType, Fault>
    ensures told { Tells (λ ty. entity_of ty.now) result
        (choice_check (uid_in uid.now) (entity_of ty.now)) }
    ensures same { IfOk result (λ found. found.now ≡ ty.now) }
{
    if may_have_id(ty, uid.eid().as_str()) {
        return Ok(ty);
    }
    let ty = uid.entity_type().dup(alloc)?;
    let id = Text::new(alloc, uid.eid().as_str())?;
    refuse(alloc, FaultKind::NotAChoice { ty, id })
}

/// The type of the entity in the schema. Refused where the schema has none of this name, or where the type lists its
/// entities and this is none of them.
#[tactic(auto, using(crate::proofs::Told::told, crate::proofs::Found::found))]
pub fn known<'a>(
    alloc: Global,
    schema: &'a ValidatorSchema,
    uid: &EntityUID,
) -> Out<&'a ValidatorEntityType, Fault>
    ensures told { Tells (λ ty. entity_of ty.now) result
        (known_check (schema_in schema.now) (uid_in uid.now)) }
    ensures lent { IfOk result (λ ty. type_at schema.now (entity_type_of uid.now) ≡ Some ty.now) }
{
    match schema.get_entity_type(uid.entity_type()) {
        Some(ty) => chosen(alloc, ty, uid),
        None => {
            let ty = uid.entity_type().dup(alloc)?;
            refuse(alloc, FaultKind::UnknownEntityType { ty })
        }
    }
}

/// Refuses an entity of another type than the one wanted.
fn check_type(alloc: Global, found: &EntityType, wanted: &EntityType) -> Out<(), Fault>
    ensures { Tells passed result (same_type (entity_words wanted.now) (entity_words found.now)) }
{
    if found == wanted {
        return Ok(());
    }
    let (found, wanted) = dup_two(alloc, found, wanted)?;
    refuse(alloc, FaultKind::WrongEntityType { found, wanted })
}

/// Refuses what is no reference to an entity of the type that the schema knows.
#[tactic(auto, using(crate::proofs::Told::told), unfolding(crate::specs::ValueChecks::entity_check))]
pub(crate) fn check_reference(
    alloc: Global,
    schema: &ValidatorSchema,
    value: &Value,
    ty: &EntityType,
) -> Out<(), Fault>
    ensures { Tells passed result
        (entity_check (schema_in schema.now) (entity_words ty.now) (view value.now)) }
{
    let uid = read_ref(alloc, value)?;
    check_type(alloc, uid.entity_type(), ty)?;
    known(alloc, schema, &uid)?;
    Ok(())
}
