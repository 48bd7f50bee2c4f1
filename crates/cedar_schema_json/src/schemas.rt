// SPDX-License-Identifier: Apache-2.0
ghost use Rattle.std.specs.Prelude.{◌≡◌, IfOk};
ghost use Rattle.serde_json.specs.View.{view};
ghost use Rattle.cedar_convert_fragment.specs.Views.{fragment_seen};
ghost use Rattle.cedar_data.specs.Answers.{Accepts, IfRefused};
ghost use Rattle.cedar_fragment.specs.ActionUids.{over_raw};
ghost use Rattle.cedar_fragment.specs.declared.definitions.Fragment.{Fragment as Shaped};
ghost use Rattle.cedar_schema.specs.of_fragment_world.FragmentWorlds.{world_of_fragment};
ghost use Rattle.cedar_json.specs.TextFaults.{IsFragmentText, advised_fault};
ghost use Rattle.cedar_json_laws.specs.of_json_namespaces.Namespaces.{IsFragment, fragment_fault};
ghost use Rattle.cedar_names.specs.Extensions.{extension_words};
ghost use Rattle.cedar_schema.specs.Places.{IsUnplaced};
ghost use Rattle.cedar_schema.specs.SchemaViews.{IsConsistent, schema_in};
ghost use Rattle.cedar_schema_json.specs.JsonSchemas.{DenotesSchema, IsWellFormed, JsonCause, unread};
ghost use Rattle.cedar_schema.specs.of_world.Denotes.{Denotes};
ghost use Rattle.cedar_written.specs.declared.raw_name.RawName.{RawName as Raw};

use cedar_data::{Failure, Out};
use cedar_fragment::{Fragment, RawName};
use cedar_json::{FragmentJson, FromJson};
use cedar_json_fault::JsonDeserializationError;
use cedar_names::Extensions;
use cedar_resolved::ValidatorSchema;
use cedar_schema::FromFragment;
use cedar_schema_error::SchemaError;
use serde_json::Value;
use std::alloc::Global;

/// What a schema in JSON denotes, where actions may have no attributes.
pub trait SchemaJson: Sized {
    /// What the value denotes with these extension types. Refused with the value's first fault, or else with why the
    /// fragment whose shape it has is not sound. No entity type and no action has a place.
    fn from_json_value(
        alloc: Global,
        json: &Value,
        extensions: &Extensions,
    ) -> Out<Self, SchemaError>;

    /// What the text denotes with these extension types. Refused with the text's first fault, and what to do about it,
    /// or else with why the fragment whose shape it has is not sound. No entity type and no action has a place.
    fn from_json_str(alloc: Global, json: &str, extensions: &Extensions) -> Out<Self, SchemaError>;
}

/// A failure to read a fragment, as one to resolve it.
fn unread(failure: Failure<JsonDeserializationError>) -> Failure<SchemaError>
    ensures { result ≡ unread failure }
{
    match failure {
        Failure::Refused(error) => Failure::Refused(SchemaError::JsonDeserialization(error)),
        Failure::NoMemory => Failure::NoMemory,
    }
}

impl SchemaJson for ValidatorSchema {
    fn from_json_value(
        alloc: Global,
        json: &Value,
        extensions: &Extensions,
    ) -> Out<ValidatorSchema, SchemaError>
        ensures denotes { IfOk result
            (λ schema. DenotesSchema (IsFragment (view json.now)) (extension_words extensions.now)
            (schema_in schema)) }
        ensures consistent { IfOk result IsConsistent }
        ensures unplaced { IfOk result IsUnplaced }
        ensures refused { IfRefused result
            (JsonCause (IsFragment (view json.now)) (fragment_fault (view json.now))
            (extension_words extensions.now)) }
        ensures accepts { (F : Shaped Raw over_raw)
            → IsWellFormed (IsFragment (view json.now)) (extension_words extensions.now) F
            → Accepts
            (λ schema.
            Denotes (world_of_fragment (fragment_seen F) (extension_words extensions.now))
            (schema_in schema)) result }
    {
        match Fragment::from_json_value(alloc, json) {
            Ok(fragment) => ValidatorSchema::from_fragment_with(alloc, fragment, extensions),
            Err(failure) => Err(unread(failure)),
        }
    }

    fn from_json_str(
        alloc: Global,
        json: &str,
        extensions: &Extensions,
    ) -> Out<ValidatorSchema, SchemaError>
        ensures denotes { IfOk result
            (λ schema. DenotesSchema (IsFragmentText json.now) (extension_words extensions.now)
            (schema_in schema)) }
        ensures consistent { IfOk result IsConsistent }
        ensures unplaced { IfOk result IsUnplaced }
        ensures refused { IfRefused result
            (JsonCause (IsFragmentText json.now) (advised_fault json.now)
            (extension_words extensions.now)) }
        ensures accepts { (F : Shaped Raw over_raw)
            → IsWellFormed (IsFragmentText json.now) (extension_words extensions.now) F
            → Accepts
            (λ schema.
            Denotes (world_of_fragment (fragment_seen F) (extension_words extensions.now))
            (schema_in schema)) result }
    {
        match Fragment::from_json_str(alloc, json) {
            Ok(fragment) => ValidatorSchema::from_fragment_with(alloc, fragment, extensions),
            Err(failure) => Err(unread(failure)),
        }
    }
}
