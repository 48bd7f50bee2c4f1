// SPDX-License-Identifier: Apache-2.0
ghost use Rattle.std.specs.Prelude.{◌≡◌, ℕ, List, [], ◌∷◌, codes, bytes_eq, false, IsTrue, Some, None, IfOk};
ghost use Rattle.std.specs.Option.{option_map};
ghost use Rattle.cedar_text.specs.Failures.{IfRefused};
ghost use Rattle.cedar_text.specs.Words.{has_word};
ghost use Rattle.serde_json.specs.Find.{get};
ghost use Rattle.serde_json.specs.View.{view, members_view};
ghost use Rattle.cedar_json_types.specs.Faults as faults;
ghost use Rattle.cedar_json_types.specs.Faults.{unknown_key, keys_fault};
ghost use Rattle.cedar_json_types.specs.Keys as keys;
ghost use Rattle.cedar_json_types.specs.Shapes.{Keyed, KeysWithin, Lacks};

use crate::refusing::{unknown, wrong_type};
use cedar_data::{Dup, Mem, Out};
use cedar_json_fault::{JsonDeserializationError, JsonKind, JsonShape};
use serde_json::{Map, Value};
use std::alloc::Global;

/// The kinds of objects, by all the keys that they may have.
#[derive(Clone, Copy, Debug, PartialEq, Eq)]
pub enum KeySet {
    /// A namespace.
    Namespace,
    /// An entity type.
    EntityType,
    /// An action.
    Action,
    /// What an action applies to.
    ApplySpec,
    /// An action as a parent.
    Parent,
    /// A type that stands alone.
    Type,
    /// A common type.
    CommonType,
    /// The type of an attribute.
    Attribute,
}

impl Dup for KeySet {
    fn dup(&self, _alloc: Global) -> Mem<KeySet> {
        Ok(*self)
    }
}

/// Whether an object of this kind may have the key.
fn takes(set: KeySet, key: &str) -> bool
    ensures { result ≡ has_word (keys.keys_of set) key.now }
{
    match set {
        KeySet::Namespace => takes_namespace(key),
        KeySet::EntityType => takes_entity(key),
        KeySet::Action => takes_action(key),
        KeySet::ApplySpec => takes_apply(key),
        KeySet::Parent => takes_parent(key),
        KeySet::Type => takes_type(key),
        KeySet::CommonType => takes_common(key),
        KeySet::Attribute => takes_attribute(key),
    }
}

/// Whether a namespace may have the key.
fn takes_namespace(key: &str) -> bool
    ensures { result ≡ has_word keys.namespace_keys key.now }
{
    key == "commonTypes" || key == "entityTypes" || key == "actions" || key == "annotations"
}

/// Whether an entity type may have the key.
fn takes_entity(key: &str) -> bool
    ensures { result ≡ has_word keys.entity_keys key.now }
{
    key == "memberOfTypes"
        || key == "shape"
        || key == "tags"
        || key == "enum"
        || key == "annotations"
}

/// Whether an action may have the key.
fn takes_action(key: &str) -> bool
    ensures { result ≡ has_word keys.action_keys key.now }
{
    key == "attributes" || key == "appliesTo" || key == "memberOf" || key == "annotations"
}

/// Whether what an action applies to may have the key.
fn takes_apply(key: &str) -> bool
    ensures { result ≡ has_word keys.apply_keys key.now }
{
    key == "resourceTypes" || key == "principalTypes" || key == "context"
}

/// Whether an action as a parent may have the key.
fn takes_parent(key: &str) -> bool
    ensures { result ≡ has_word keys.parent_keys key.now }
{
    key == "id" || key == "type"
}

/// Whether a common type may have the key.
fn takes_common(key: &str) -> bool
    ensures { result ≡ has_word (keys.type_keys (codes "annotations" ∷ [])) key.now }
{
    takes_type(key) || key == "annotations"
}

/// Whether the type of an attribute may have the key.
fn takes_attribute(key: &str) -> bool
    ensures { result
        ≡ has_word (keys.type_keys (codes "required" ∷ codes "annotations" ∷ [])) key.now }
{
    takes_type(key) || key == "required" || key == "annotations"
}

/// Whether each type may have the key.
fn takes_type(key: &str) -> bool
    ensures { result ≡ has_word (keys.type_keys []) key.now }
{
    key == "type"
        || key == "element"
        || key == "attributes"
        || key == "additionalAttributes"
        || key == "name"
}

/// What is said of keys that an object of this kind may not have.
fn shape_of(set: KeySet) -> JsonShape
    ensures { result ≡ keys.shape_of set }
{
    match set {
        KeySet::Namespace => JsonShape::Namespace,
        KeySet::EntityType => JsonShape::EntityType,
        KeySet::Action => JsonShape::Action,
        KeySet::ApplySpec => JsonShape::ApplySpec,
        KeySet::Parent => JsonShape::Parent,
        KeySet::Type | KeySet::CommonType | KeySet::Attribute => JsonShape::AnyType,
    }
}

/// Whether an object has one key or two, and an object of this kind may have them. It takes no loop.
fn has_few_known(members: &Map<String, Value>, set: KeySet) -> bool
    ensures { IsTrue result → KeysWithin (keys.keys_of set) (members_view members.now.entries) }
{
    let Some((first, _)) = members.first_key_value() else {
        return false;
    };
    if !takes(set, first.as_str()) {
        return false;
    }
    if members.len() == 1 {
        return true;
    }
    let Some((last, _)) = members.last_key_value() else {
        return false;
    };
    members.len() == 2 && takes(set, last.as_str())
}

/// Refuses the first key that an object of this kind may not have.
#[tactic(auto, using(crate::proofs::KeyLemmas::keys_within))]
fn refuse_unknown(
    alloc: Global,
    members: &Map<String, Value>,
    set: KeySet,
) -> Out<(), JsonDeserializationError>
    ensures shape { IfOk result
        (λ _. KeysWithin (keys.keys_of set) (members_view members.now.entries)) }
    ensures clean { IfOk result
        (λ _. unknown_key (keys.shape_of set) (keys.keys_of set) (members_view members.now.entries)
        ≡ None) }
    ensures refused { IfRefused result
        (λ e. unknown_key (keys.shape_of set) (keys.keys_of set) (members_view members.now.entries)
        ≡ Some e) }
{
    for (key, _) in members.iter() {
        if !takes(set, key.as_str()) {
            return unknown(alloc, key.as_str(), shape_of(set));
        }
    }
    Ok(())
}

/// As `refuse_unknown`. Mostly there are few keys.
#[tactic(auto, using(crate::proofs::KeyLemmas::none_unknown))]
fn check_members(
    alloc: Global,
    members: &Map<String, Value>,
    set: KeySet,
) -> Out<(), JsonDeserializationError>
    ensures shape { IfOk result
        (λ _. KeysWithin (keys.keys_of set) (members_view members.now.entries)) }
    ensures clean { IfOk result
        (λ _. unknown_key (keys.shape_of set) (keys.keys_of set) (members_view members.now.entries)
        ≡ None) }
    ensures refused { IfRefused result
        (λ e. unknown_key (keys.shape_of set) (keys.keys_of set) (members_view members.now.entries)
        ≡ Some e) }
{
    if has_few_known(members, set) {
        return Ok(());
    }
    refuse_unknown(alloc, members, set)
}

/// Refuses what is no object, or has a key that an object of this kind may not have.
pub fn check_keys(alloc: Global, value: &Value, set: KeySet) -> Out<(), JsonDeserializationError>
    ensures shape { IfOk result (λ _. Keyed (keys.keys_of set) (view value.now)) }
    ensures clean { IfOk result
        (λ _. keys_fault (keys.shape_of set) (keys.keys_of set) (view value.now) ≡ None) }
    ensures refused { IfRefused result
        (λ e. keys_fault (keys.shape_of set) (keys.keys_of set) (view value.now) ≡ Some e) }
{
    let Some(members) = value.as_object() else {
        return wrong_type(alloc, value, JsonKind::Object);
    };
    check_members(alloc, members, set)
}

/// Refuses the key, where it is there.
#[tactic(auto, unfolding(crate::specs::Faults::excess))]
pub fn refuse_key(
    alloc: Global,
    value: &Value,
    key: &str,
    shape: JsonShape,
) -> Out<(), JsonDeserializationError>
    ensures shape { IfOk result (λ _. Lacks (key.now ∷ []) (view value.now)) }
    ensures clean { IfOk result (λ _. faults.excess shape key.now (view value.now) ≡ None) }
    ensures refused { IfRefused result (λ e. faults.excess shape key.now (view value.now)
        ≡ Some e) }
{
    if value.get(key).is_some() {
        return unknown(alloc, key, shape);
    }
    Ok(())
}

/// The member at the key. It is found soonest where no key stands before it.
pub fn get_leading<'a>(value: &'a Value, key: &str) -> Option<&'a Value>
    ensures { option_map (λ v. view v.now) result ≡ get key.now (view value.now) }
{
    if let Some(members) = value.as_object()
        && let Some((first, member)) = members.first_key_value()
        && first.as_str() == key
    {
        return Some(member);
    }
    value.get(key)
}

/// The member at the key. It is found soonest where no key stands behind it.
pub fn get_trailing<'a>(value: &'a Value, key: &str) -> Option<&'a Value>
    ensures { option_map (λ v. view v.now) result ≡ get key.now (view value.now) }
{
    if let Some(members) = value.as_object()
        && let Some((last, member)) = members.last_key_value()
        && last.as_str() == key
    {
        return Some(member);
    }
    value.get(key)
}

/// Whether the value is an object with two keys: this one, and behind it `type`.
pub fn has_only(value: &Value, key: &str) -> bool
    ensures { IsTrue result → (k : List ℕ) → bytes_eq k (codes "type") ≡ false
        → bytes_eq k key.now ≡ false → get k (view value.now) ≡ None }
{
    let Some(members) = value.as_object() else {
        return false;
    };
    if members.len() != 2 {
        return false;
    }
    let Some((first, _)) = members.first_key_value() else {
        return false;
    };
    let Some((last, _)) = members.last_key_value() else {
        return false;
    };
    first.as_str() == key && last.as_str() == "type"
}

/// Whether the value is an object with the key `type` alone.
pub fn has_type_alone(value: &Value) -> bool
    ensures { IsTrue result → (k : List ℕ) → bytes_eq k (codes "type") ≡ false
        → get k (view value.now) ≡ None }
{
    let Some(members) = value.as_object() else {
        return false;
    };
    let Some((first, _)) = members.first_key_value() else {
        return false;
    };
    members.len() == 1 && first.as_str() == "type"
}
