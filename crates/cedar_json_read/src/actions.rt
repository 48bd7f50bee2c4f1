// SPDX-License-Identifier: Apache-2.0
ghost use Rattle.std.specs.Prelude.{◌≡◌, codes, Some, None, IfOk};
ghost use Rattle.cedar_text.specs.Failures.{IfRefused};
ghost use Rattle.serde_json.specs.View.{view, items_view};
ghost use Rattle.cedar_json_types.specs.Faults.{allows, array_fault, items_fault};
ghost use Rattle.cedar_json_types.specs.Faults as faults;
ghost use Rattle.cedar_json_types.specs.Shapes.{ArrayOf, EachItem, MayHave, Nothing, OrNull};
ghost use Rattle.cedar_json_values.specs.ActionValues.{ValuePart, ValuesShape};
ghost use Rattle.cedar_json_read.specs.Declarations.{IsAction, IsApplySpec, IsParent, action_fault, apply_fault, parent_fault, values_fault};

use crate::notes::with_notes;
use crate::parts::{if_not_null, shape_at};
use crate::reading::ReadDeclaration;
use cedar_data::{Items, Out, Text};
use cedar_fragment::{ActionEntityUID, ActionType, ApplySpec, RawName, ValueMap};
use cedar_json_fault::{JsonDeserializationError, JsonKind};
use cedar_json_types as parts;
use cedar_json_types::{KeySet, check_keys, needed, under, under_place, wrong_type};
use cedar_json_values::read_values;
use serde_json::Value;
use std::alloc::Global;

impl ReadDeclaration for ActionEntityUID<RawName> {
    ghost shapes = { IsParent };

    ghost fault = { parent_fault };

    fn from_json_value(
        alloc: Global,
        json: &Value,
    ) -> Out<ActionEntityUID<RawName>, JsonDeserializationError> {
        check_keys(alloc, json, KeySet::Parent)?;
        let id: Text = needed(alloc, json, "id")?;
        let ty: Option<RawName> = parts::if_not_null(alloc, json, "type")?;
        Ok(ActionEntityUID::new(ty, id))
    }
}

impl ReadDeclaration for ApplySpec<RawName> {
    ghost shapes = { IsApplySpec };

    ghost fault = { apply_fault };

    fn from_json_value(
        alloc: Global,
        json: &Value,
    ) -> Out<ApplySpec<RawName>, JsonDeserializationError> {
        check_keys(alloc, json, KeySet::ApplySpec)?;
        let resource_types: Items<RawName> = needed(alloc, json, "resourceTypes")?;
        let principal_types: Items<RawName> = needed(alloc, json, "principalTypes")?;
        let context = shape_at(alloc, json, "context")?;
        Ok(ApplySpec {
            resource_types,
            principal_types,
            context,
        })
    }
}

/// The parents that the items are.
#[tactic(auto, using(cedar_json_types::proofs::ItemLoops::reads_items))]
fn read_parents(
    alloc: Global,
    items: &Vec<Value>,
) -> Out<Items<ActionEntityUID<RawName>>, JsonDeserializationError>
    ensures shape { IfOk result (λ vs. EachItem IsParent (items_view items.now.items) vs) }
    ensures clean { IfOk result (λ _. items_fault parent_fault 0 (items_view items.now.items)
        ≡ None) }
    ensures refused { IfRefused result (λ e. items_fault parent_fault 0 (items_view items.now.items)
        ≡ Some e) }
{
    let mut read = Items::new(alloc);
    let mut place = 0usize;
    for item in items {
        let parent = under_place(alloc, place, ActionEntityUID::from_json_value(alloc, item))?;
        read.push(parent)?;
        place += 1;
    }
    Ok(read)
}

/// The parents that the value is an array of, and nothing for `null`.
fn parents_unless_null(
    alloc: Global,
    value: &Value,
) -> Out<Option<Items<ActionEntityUID<RawName>>>, JsonDeserializationError>
    ensures shape { IfOk result (λ v. OrNull (ArrayOf IsParent) (view value.now) v) }
    ensures clean { IfOk result (λ _. faults.unless_null (array_fault parent_fault) (view value.now)
        ≡ None) }
    ensures refused { IfRefused result
        (λ e. faults.unless_null (array_fault parent_fault) (view value.now) ≡ Some e) }
{
    match value {
        Value::Null => Ok(None),
        Value::Array(items) => {
            let parents = read_parents(alloc, items)?;
            Ok(Some(parents))
        }
        _ => wrong_type(alloc, value, JsonKind::Array),
    }
}

/// The parents at the key `memberOf`, where it is there and not `null`.
fn parents_at(
    alloc: Global,
    value: &Value,
) -> Out<Option<Items<ActionEntityUID<RawName>>>, JsonDeserializationError>
    ensures shape { IfOk result
        (λ v. MayHave (codes "memberOf") Nothing (OrNull (ArrayOf IsParent)) (view value.now) v) }
    ensures clean { IfOk result
        (λ _. allows (codes "memberOf") (faults.unless_null (array_fault parent_fault))
        (view value.now) ≡ None) }
    ensures refused { IfRefused result
        (λ e. allows (codes "memberOf") (faults.unless_null (array_fault parent_fault))
        (view value.now) ≡ Some e) }
{
    match value.get("memberOf") {
        None => Ok(None),
        Some(member) => under(alloc, "memberOf", parents_unless_null(alloc, member)),
    }
}

/// The attributes of an action that the value has the shape of, and nothing for `null`.
fn values_unless_null(
    alloc: Global,
    value: &Value,
) -> Out<Option<ValueMap>, JsonDeserializationError>
    ensures shape { IfOk result (λ v. OrNull (ValuesShape (ValuePart 129)) (view value.now) v) }
    ensures clean { IfOk result (λ _. faults.unless_null values_fault (view value.now) ≡ None) }
    ensures refused { IfRefused result (λ e. faults.unless_null values_fault (view value.now)
        ≡ Some e) }
{
    match value {
        Value::Null => Ok(None),
        _ => {
            let read = read_values(alloc, value)?;
            Ok(Some(read))
        }
    }
}

/// The attributes of an action at the key `attributes`, where it is there and not `null`.
fn values_at(alloc: Global, value: &Value) -> Out<Option<ValueMap>, JsonDeserializationError>
    ensures shape { IfOk result
        (λ v. MayHave (codes "attributes") Nothing (OrNull (ValuesShape (ValuePart 129)))
        (view value.now) v) }
    ensures clean { IfOk result
        (λ _. allows (codes "attributes") (faults.unless_null values_fault) (view value.now)
        ≡ None) }
    ensures refused { IfRefused result
        (λ e. allows (codes "attributes") (faults.unless_null values_fault) (view value.now)
        ≡ Some e) }
{
    match value.get("attributes") {
        None => Ok(None),
        Some(member) => under(alloc, "attributes", values_unless_null(alloc, member)),
    }
}

impl ReadDeclaration for ActionType<RawName> {
    ghost shapes = { IsAction };

    ghost fault = { action_fault };

    fn from_json_value(
        alloc: Global,
        json: &Value,
    ) -> Out<ActionType<RawName>, JsonDeserializationError> {
        check_keys(alloc, json, KeySet::Action)?;
        let attributes = values_at(alloc, json)?;
        let applies_to: Option<ApplySpec<RawName>> = if_not_null(alloc, json, "appliesTo")?;
        let member_of = parents_at(alloc, json)?;
        let made = (attributes, applies_to, member_of);
        let (made, annotations) = with_notes(alloc, json, made)?;
        let (attributes, applies_to, member_of) = made;
        Ok(ActionType {
            attributes,
            applies_to,
            member_of,
            annotations,
            loc: None,
        })
    }
}
