// SPDX-License-Identifier: Apache-2.0
ghost use Rattle.std.specs.Prelude.{◌≡◌, ◌++◌, Some, None, IfOk};
ghost use Rattle.cedar_text.specs.Failures.{IfRefused};
ghost use Rattle.serde_json.specs.View.{view};
ghost use Rattle.cedar_json_read.specs.Declarations as declarations;
ghost use Rattle.cedar_json_read.specs.Declarations.{AreChoices, IsCommonType, IsEntityType, IsKind, IsStandard, choices_fault, common_type_fault, entity_fault, if_present, kind_fault, standard_fault, unexpected};
ghost use Rattle.std.specs.Prelude.{codes, []};
ghost use Rattle.cedar_json_types.specs.Faults.{first, needs};
ghost use Rattle.cedar_json_types.specs.Shapes.{At};

use crate::notes::with_notes;
use crate::parts::shape_at;
use crate::reading::ReadDeclaration;
use cedar_data::{Items, Mem, Out, Text};
use cedar_fragment::{
    CommonType, EntityType, EntityTypeKind, RawName, SchemaType, StandardEntityType,
};
use cedar_json_fault::{JsonDeserializationError, JsonFault};
use cedar_json_types::{
    KeySet, ReadPart, check_keys, if_there, missing, read_outer_type, refuse, under, unless_absent,
};
use cedar_names::Annotations;
use cedar_text::NonEmpty;
use serde_json::Value;
use std::alloc::Global;

impl ReadDeclaration for CommonType<RawName> {
    ghost shapes = { IsCommonType };

    ghost fault = { common_type_fault };

    fn from_json_value(
        alloc: Global,
        json: &Value,
    ) -> Out<CommonType<RawName>, JsonDeserializationError> {
        let ty = read_outer_type(alloc, json, KeySet::CommonType)?;
        let annotations: Annotations = unless_absent(alloc, json, "annotations")?;
        Ok(CommonType {
            ty,
            annotations,
            loc: None,
        })
    }
}

/// The entity type whose entities have attributes.
fn read_standard(
    alloc: Global,
    value: &Value,
) -> Out<StandardEntityType<RawName>, JsonDeserializationError>
    ensures shape { IfOk result (λ e. IsStandard (view value.now) e) }
    ensures clean { IfOk result (λ _. standard_fault (view value.now) ≡ None) }
    ensures refused { IfRefused result (λ e. standard_fault (view value.now) ≡ Some e) }
{
    let member_of_types: Items<RawName> = unless_absent(alloc, value, "memberOfTypes")?;
    let shape = shape_at(alloc, value, "shape")?;
    let tags: Option<SchemaType<RawName>> = if_there(alloc, value, "tags")?;
    Ok(StandardEntityType {
        member_of_types,
        shape,
        tags,
    })
}

/// The texts, of which there has to be one.
#[tactic(auto, using(crate::proofs::ChoiceLemmas::choices))]
fn choices_of(
    alloc: Global,
    value: &Value,
    items: Items<Text>,
) -> Out<NonEmpty<Text>, JsonDeserializationError>
    requires { declarations.AreTexts (view value.now) items }
    ensures shape { IfOk result (λ c. AreChoices (view value.now) c) }
    ensures clean { IfOk result (λ _. declarations.no_choice (view value.now) ≡ None) }
    ensures refused { IfRefused result (λ e. declarations.no_choice (view value.now) ≡ Some e) }
{
    match NonEmpty::from_vec(items.into_vec()) {
        Some(choices) => Ok(choices),
        None => refuse(alloc, JsonFault::EmptyEnum),
    }
}

/// The ids of the entities of an enumerated entity type.
fn read_choices(alloc: Global, value: &Value) -> Out<NonEmpty<Text>, JsonDeserializationError>
    ensures shape { IfOk result (λ c. AreChoices (view value.now) c) }
    ensures clean { IfOk result (λ _. choices_fault (view value.now) ≡ None) }
    ensures refused { IfRefused result (λ e. choices_fault (view value.now) ≡ Some e) }
{
    let items = <Items<Text> as ReadPart>::from_json_value(alloc, value)?;
    choices_of(alloc, value, items)
}

/// The ids at the key `enum`.
fn choices_at(alloc: Global, value: &Value) -> Out<NonEmpty<Text>, JsonDeserializationError>
    ensures shape { IfOk result (λ c. At (codes "enum") AreChoices (view value.now) c) }
    ensures clean { IfOk result (λ _. needs (codes "enum") choices_fault (view value.now) ≡ None) }
    ensures refused { IfRefused result (λ e. needs (codes "enum") choices_fault (view value.now)
        ≡ Some e) }
{
    let Some(choices) = value.get("enum") else {
        return missing(alloc, "enum");
    };
    under(alloc, "enum", read_choices(alloc, choices))
}

/// The keys, and this one behind them where it is there.
fn with_present(alloc: Global, value: &Value, key: &str, mut keys: Items<Text>) -> Mem<Items<Text>>
    ensures { IfOk result (λ ks. ks ≡ keys ++ if_present key.now (view value.now)) }
{
    if value.get(key).is_some() {
        let key = Text::new(alloc, key)?;
        keys.push(key)?;
    }
    Ok(keys)
}

/// The keys of a standard entity type that are there.
fn present(alloc: Global, value: &Value) -> Mem<Items<Text>>
    ensures { IfOk result (λ ks. ks ≡ declarations.present (view value.now)) }
{
    let keys = with_present(alloc, value, "memberOfTypes", Items::new(alloc))?;
    let keys = with_present(alloc, value, "shape", keys)?;
    with_present(alloc, value, "tags", keys)
}

/// Refuses an enumerated entity type that has a key that only a standard one may have.
fn refuse_present(alloc: Global, value: &Value) -> Out<(), JsonDeserializationError>
    ensures shape { IfOk result (λ _. declarations.present (view value.now) ≡ []) }
    ensures clean { IfOk result (λ _. unexpected (declarations.present (view value.now)) ≡ None) }
    ensures refused { IfRefused result (λ e. unexpected (declarations.present (view value.now))
        ≡ Some e) }
{
    let fields = present(alloc, value)?;
    refuse_fields(alloc, fields)
}

/// Refuses fields, if there are some.
#[tactic(auto, using(crate::proofs::ChoiceLemmas::fields))]
fn refuse_fields(alloc: Global, fields: Items<Text>) -> Out<(), JsonDeserializationError>
    ensures shape { IfOk result (λ _. fields ≡ []) }
    ensures clean { IfOk result (λ _. unexpected fields ≡ None) }
    ensures refused { IfRefused result (λ e. unexpected fields ≡ Some e) }
{
    if fields.is_empty() {
        return Ok(());
    }
    refuse(alloc, JsonFault::UnexpectedFields { fields })
}

/// The ids of an enumerated entity type, which has no key of a standard one.
fn read_enumerated(alloc: Global, value: &Value) -> Out<NonEmpty<Text>, JsonDeserializationError>
    ensures shape { IfOk result (λ c. At (codes "enum") AreChoices (view value.now) c
        × (declarations.present (view value.now) ≡ [])) }
    ensures clean { IfOk result
        (λ _. first (needs (codes "enum") choices_fault (view value.now))
        (unexpected (declarations.present (view value.now))) ≡ None) }
    ensures refused { IfRefused result
        (λ e. first (needs (codes "enum") choices_fault (view value.now))
        (unexpected (declarations.present (view value.now))) ≡ Some e) }
{
    let choices = choices_at(alloc, value)?;
    refuse_present(alloc, value)?;
    Ok(choices)
}

/// Of what kind the entity type is.
fn read_kind(alloc: Global, value: &Value) -> Out<EntityTypeKind<RawName>, JsonDeserializationError>
    ensures shape { IfOk result (λ k. IsKind (view value.now) k) }
    ensures clean { IfOk result (λ _. kind_fault (view value.now) ≡ None) }
    ensures refused { IfRefused result (λ e. kind_fault (view value.now) ≡ Some e) }
{
    if value.get("enum").is_some() {
        let choices = read_enumerated(alloc, value)?;
        Ok(EntityTypeKind::Enum { choices })
    } else {
        let standard = read_standard(alloc, value)?;
        Ok(EntityTypeKind::Standard(standard))
    }
}

impl ReadDeclaration for EntityType<RawName> {
    ghost shapes = { IsEntityType };

    ghost fault = { entity_fault };

    fn from_json_value(
        alloc: Global,
        json: &Value,
    ) -> Out<EntityType<RawName>, JsonDeserializationError> {
        check_keys(alloc, json, KeySet::EntityType)?;
        let kind = read_kind(alloc, json)?;
        let (kind, annotations) = with_notes(alloc, json, kind)?;
        Ok(EntityType {
            kind,
            annotations,
            loc: None,
        })
    }
}
