// SPDX-License-Identifier: Apache-2.0
ghost use Rattle.std.specs.Prelude.{⊤, [], IfOk};
ghost use Rattle.cedar_answers.specs.Answers.{Answers, IsAcceptance, sunk};
ghost use Rattle.cedar_answers.specs.Causes.{JsonTextCause};
ghost use Rattle.cedar_answers.specs.Made.{AnswersMade};
ghost use Rattle.cedar_answers.specs.Making.{DenotesAnyInJson, IsJsonSchemaOf, MakesJsonListing, TellsNoJsonSchema};
ghost use Rattle.cedar_reviews.specs.Refusal.{refusal_text};
ghost use Rattle.cedar_data.specs.Answers.{Accepts, IfRefused};
ghost use Rattle.cedar_listing.specs.Listing.{listing};
ghost use Rattle.cedar_names.specs.Extensions.{extension_words};

use crate::output::{list, refuse};
use cedar_commands::Status;
use cedar_data::{Failure, Out};
use cedar_names::Extensions;
use cedar_resolved::ValidatorSchema;
use cedar_schema_errors::CedarSchemaError;
use cedar_schema_json::SchemaJson;
use cedar_streams::Sink;
use std::alloc::Global;

/// Writes the listing of the schema that the text denotes in JSON, or why it denotes none.
pub(crate) fn answer_resolve_json<K: Sink, E: Sink>(
    alloc: Global,
    text: &str,
    extensions: &Extensions,
    out: &mut K,
    err: &mut E,
) -> Status
    ensures answers { Answers (MakesJsonListing text.now (extension_words extensions.now))
        (TellsNoJsonSchema text.now (extension_words extensions.now))
        (sunk K.written K.faults out.old) (sunk K.written K.faults out.new)
        (sunk E.written E.faults err.old) (sunk E.written E.faults err.new) result }
    ensures accepts { DenotesAnyInJson text.now (extension_words extensions.now)
        → IsAcceptance result }
{
    let made = json_schema(alloc, text, extensions);
    let status = answer_json_listing(alloc, &made, out, err);
    drop(made);
    status
}

/// The schema that the text denotes in JSON, or why it denotes none.
fn json_schema(
    alloc: Global,
    text: &str,
    extensions: &Extensions,
) -> Out<ValidatorSchema, CedarSchemaError>
    ensures schema { IfOk result (IsJsonSchemaOf text.now (extension_words extensions.now)) }
    ensures refused { IfRefused result (JsonTextCause text.now (extension_words extensions.now)) }
    ensures accepts { DenotesAnyInJson text.now (extension_words extensions.now)
        → Accepts (λ _. ⊤) result }
{
    match ValidatorSchema::from_json_str(alloc, text, extensions) {
        Ok(schema) => Ok(schema),
        Err(Failure::Refused(error)) => Err(Failure::Refused(CedarSchemaError::Schema(error))),
        Err(Failure::NoMemory) => Err(Failure::NoMemory),
    }
}

/// Writes the listing of a schema that has no warnings, or why there is none.
fn answer_json_listing<K: Sink, E: Sink>(
    alloc: Global,
    made: &Out<ValidatorSchema, CedarSchemaError>,
    out: &mut K,
    err: &mut E,
) -> Status
    ensures { AnswersMade (λ schema. listing schema []) refusal_text made.now
        (sunk K.written K.faults out.old) (sunk K.written K.faults out.new)
        (sunk E.written E.faults err.old) (sunk E.written E.faults err.new) result }
{
    match made {
        Ok(schema) => list(schema, &[], out),
        Err(Failure::Refused(error)) => refuse(alloc, error, err),
        Err(Failure::NoMemory) => Status::NoMemory,
    }
}
