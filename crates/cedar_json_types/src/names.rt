// SPDX-License-Identifier: Apache-2.0
ghost use Rattle.std.specs.Prelude.{◌≡◌, false, IsTrue, MatchOption, Some, None, IfOk};
ghost use Rattle.cedar_text.specs.Failures.{IfRefused};
ghost use Rattle.serde_json.specs.View.{view};
ghost use Rattle.cedar_text.specs.Words.{is_id, is_unreserved_id};
ghost use Rattle.cedar_names.specs.Identifiers.{id_word, unreserved_word};
ghost use Rattle.cedar_json_types.specs.CommonIds.{IdentifiesCommon, IsCommon, common_id_fault, reserved_fault};
ghost use Rattle.cedar_json_types.specs.Faults as faults;
ghost use Rattle.cedar_json_types.specs.Faults.{in_text, any_text};
ghost use Rattle.cedar_json_types.specs.Parts.{reference_fault, id_fault, any_id_fault, Names, Identifies, IdentifiesAny, IsName, IsId};
ghost use Rattle.cedar_json_types.specs.Shapes.{IsText};
ghost use Rattle.cedar_json_fault.specs.declared.json_fault.NameKind.TheVariants as what;

use crate::reading::{JsonKey, ReadPart};
use crate::refusing::{refuse, wrong_type};
use cedar_data::{Failure, Mem, Out, Text};
use cedar_json_fault::{JsonDeserializationError, JsonFault, JsonKind, NameKind};
use cedar_names::{AnyId, Id, UnreservedId};
use cedar_text::{NameFault, is_word};
use cedar_written::{CommonTypeId, RawName};
use serde_json::Value;
use std::alloc::Global;

impl ReadPart for Text {
    ghost shapes = { IsText };

    ghost fault = { in_text any_text };

    fn from_json_value(alloc: Global, json: &Value) -> Out<Text, JsonDeserializationError> {
        let Some(text) = json.as_str() else {
            return wrong_type(alloc, json, JsonKind::String);
        };
        let text = Text::new(alloc, text)?;
        Ok(text)
    }
}

impl JsonKey for Text {
    ghost named = { λ k t. t ≡ k };

    ghost key_fault = { any_text };

    fn from_key(alloc: Global, key: &str) -> Out<Text, JsonDeserializationError> {
        let text = Text::new(alloc, key)?;
        Ok(text)
    }
}

/// Refuses the text, which is no name of this kind.
fn bad_name<T>(
    alloc: Global,
    what: NameKind,
    text: &str,
    fault: NameFault,
) -> Out<T, JsonDeserializationError>
    ensures ok { IfOk result (λ _. ⊥) }
    ensures refused { IfRefused result (λ e. e ≡ faults.bad_name what text.now fault) }
{
    let text = Text::new(alloc, text)?;
    refuse(alloc, JsonFault::InvalidName { what, text, fault })
}

/// Whether the text is a word that begins with a capital letter, as no reserved word does.
fn is_capitalized_word(text: &str) -> bool
    ensures { IsTrue result → IsTrue (is_unreserved_id text.now) }
{
    match text.as_bytes().first() {
        Some(byte) => byte.is_ascii_uppercase() && is_word(text),
        None => false,
    }
}

/// The identifier that the text is, if it is one.
fn id_if_one(alloc: Global, text: &str) -> Mem<Option<Id>>
    ensures { IfOk result (λ id. MatchOption id (is_id text.now ≡ false)
        (λ id. (id_word id ≡ text.now) × IsTrue (is_id text.now))) }
{
    if is_capitalized_word(text) {
        let id = UnreservedId::known(alloc, text)?;
        return Ok(Some(id.into_id()));
    }
    Id::new(alloc, text)
}

/// The reference of this kind that the text is. Mostly it is one identifier.
#[tactic(auto, using(crate::proofs::NameLemmas::clean_id))]
pub fn reference_of(
    alloc: Global,
    text: &str,
    what: NameKind,
) -> Out<RawName, JsonDeserializationError>
    ensures shape { IfOk result (λ n. Names text.now n) }
    ensures clean { IfOk result (λ _. reference_fault what text.now ≡ None) }
    ensures refused { IfRefused result (λ e. reference_fault what text.now ≡ Some e) }
{
    if let Some(id) = id_if_one(alloc, text)? {
        return Ok(RawName::new(alloc, id, None));
    }
    match RawName::from_normalized_str(alloc, text) {
        Ok(name) => Ok(name),
        Err(Failure::NoMemory) => Err(Failure::NoMemory),
        Err(Failure::Refused(fault)) => bad_name(alloc, what, text, fault),
    }
}

/// The reference of this kind that the value is.
pub fn read_reference(
    alloc: Global,
    value: &Value,
    what: NameKind,
) -> Out<RawName, JsonDeserializationError>
    ensures shape { IfOk result (λ n. IsName (view value.now) n) }
    ensures clean { IfOk result (λ _. in_text (reference_fault what) (view value.now) ≡ None) }
    ensures refused { IfRefused result (λ e. in_text (reference_fault what) (view value.now)
        ≡ Some e) }
{
    let Some(text) = value.as_str() else {
        return wrong_type(alloc, value, JsonKind::String);
    };
    reference_of(alloc, text, what)
}

impl ReadPart for RawName {
    ghost shapes = { IsName };

    ghost fault = { in_text (reference_fault what.Name) };

    fn from_json_value(alloc: Global, json: &Value) -> Out<RawName, JsonDeserializationError> {
        read_reference(alloc, json, NameKind::Name)
    }
}

/// The identifier of this kind that the text is.
#[tactic(auto, unfolding(crate::specs::Parts::id_fault))]
fn id_of(alloc: Global, text: &str, what: NameKind) -> Out<UnreservedId, JsonDeserializationError>
    ensures shape { IfOk result (λ id. Identifies text.now id) }
    ensures clean { IfOk result (λ _. id_fault what text.now ≡ None) }
    ensures refused { IfRefused result (λ e. id_fault what text.now ≡ Some e) }
{
    if is_capitalized_word(text) {
        let id = UnreservedId::known(alloc, text)?;
        return Ok(id);
    }
    match UnreservedId::from_normalized_str(alloc, text) {
        Ok(id) => Ok(id),
        Err(Failure::NoMemory) => Err(Failure::NoMemory),
        Err(Failure::Refused(fault)) => bad_name(alloc, what, text, fault),
    }
}

/// The identifier of this kind that the value is.
pub fn read_id(
    alloc: Global,
    value: &Value,
    what: NameKind,
) -> Out<UnreservedId, JsonDeserializationError>
    ensures shape { IfOk result (λ id. IsId (view value.now) id) }
    ensures clean { IfOk result (λ _. in_text (id_fault what) (view value.now) ≡ None) }
    ensures refused { IfRefused result (λ e. in_text (id_fault what) (view value.now) ≡ Some e) }
{
    let Some(text) = value.as_str() else {
        return wrong_type(alloc, value, JsonKind::String);
    };
    id_of(alloc, text, what)
}

impl JsonKey for UnreservedId {
    ghost named = { Identifies };

    ghost key_fault = { id_fault what.Id };

    fn from_key(alloc: Global, key: &str) -> Out<UnreservedId, JsonDeserializationError> {
        id_of(alloc, key, NameKind::Id)
    }
}

impl JsonKey for AnyId {
    ghost named = { IdentifiesAny };

    ghost key_fault = { any_id_fault };

    fn from_key(alloc: Global, key: &str) -> Out<AnyId, JsonDeserializationError> {
        match AnyId::from_normalized_str(alloc, key) {
            Ok(id) => Ok(id),
            Err(Failure::NoMemory) => Err(Failure::NoMemory),
            Err(Failure::Refused(fault)) => bad_name(alloc, NameKind::Id, key, fault),
        }
    }
}

/// The identifier as one of a common type, unless it is reserved.
#[tactic(auto, using(crate::proofs::CommonIdLemmas::common_ids))]
fn common_of(alloc: Global, id: UnreservedId) -> Out<CommonTypeId, JsonDeserializationError>
    ensures shape { IfOk result (λ c. IsCommon id c) }
    ensures clean { IfOk result (λ _. reserved_fault (unreserved_word id) ≡ None) }
    ensures refused { IfRefused result (λ e. reserved_fault (unreserved_word id) ≡ Some e) }
{
    match CommonTypeId::new(id) {
        Ok(id) => Ok(id),
        Err(error) => refuse(alloc, JsonFault::ReservedId { id: error.id }),
    }
}

impl JsonKey for CommonTypeId {
    ghost named = { IdentifiesCommon };

    ghost key_fault = { common_id_fault };

    fn from_key(alloc: Global, key: &str) -> Out<CommonTypeId, JsonDeserializationError> {
        let id = id_of(alloc, key, NameKind::Id)?;
        common_of(alloc, id)
    }
}
