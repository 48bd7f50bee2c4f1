// SPDX-License-Identifier: Apache-2.0
ghost use Rattle.std.specs.Prelude.{◌≡◌, ⊤, ℕ, List, [], ◌∷◌, true, codes, IfOk};
ghost use Rattle.std.specs.String.{string_bytes};
ghost use Rattle.serde_json.specs.View.{view};
ghost use Rattle.cedar_data.specs.Answers.{Accepts, IfRefused};
ghost use Rattle.cedar_envelope.specs.Envelopes.{IsEnvelope, contents};
ghost use Rattle.cedar_names.specs.Extensions.{extension_words};
ghost use Rattle.cedar_reviews.specs.Holding.{TellsEnvelope};
ghost use Rattle.cedar_reviews.specs.Judging.{HoldsRight, HoldsWrong, IsRight, IsRightBy, MakesJudgement, Passes, TellsFault, TellsJudgement, TellsWrong, judged_key};
ghost use Rattle.cedar_reviews.specs.declared.judged.Judged.TheVariants.{Entities, Requests};
ghost use Rattle.cedar_schema.specs.SchemaViews.{schema_in};
ghost use Rattle.cedar_text.specs.Words.{has_word};

use crate::holding::{denoted, opened};
use crate::judged::Judged;
use crate::lines::environment_lines;
use crate::refusal::refused_by;
use cedar_conform::conforms_entities;
use cedar_data::{Failure, Out, Text};
use cedar_envelope::Envelope;
use cedar_names::Extensions;
use cedar_request::check_requests;
use cedar_resolved::ValidatorSchema;
use serde_json::Value;
use std::alloc::Global;

/// What is written where the data that the input holds, an object in JSON, is right by the schema that the text at
/// the key `schema` denotes; or else what is told of the first fault.
pub(crate) fn judge(
    alloc: Global,
    judged: Judged,
    input: &str,
    extensions: &Extensions,
) -> Out<String, String>
    ensures due { IfOk result (λ due.
        MakesJudgement judged input.now (extension_words extensions.now) (string_bytes due)) }
    ensures told { IfRefused result (λ told.
        TellsJudgement judged input.now (extension_words extensions.now) (string_bytes told)) }
    ensures accepts { Passes judged input.now (extension_words extensions.now)
        → Accepts (λ _. ⊤) result }
{
    let envelope = data_opened(alloc, judged, input)?;
    let answer = judge_held(alloc, judged, &envelope, extensions);
    drop(envelope);
    answer
}

/// The object that the input is, with the text of a schema and with a value.
fn data_opened(alloc: Global, judged: Judged, input: &str) -> Out<Envelope, String>
    ensures is { IfOk result (λ e. IsEnvelope input.now (codes "schema" ∷ [])
        (judged_key judged ∷ []) (contents e)) }
    ensures told { IfRefused result (λ told. TellsEnvelope (codes "schema" ∷ [])
        (judged_key judged ∷ []) input.now (string_bytes told)) }
{
    let texts = [Text::new(alloc, "schema")?];
    let values = [Text::new(alloc, judged.key())?];
    opened(alloc, input, &texts, &values)
}

/// What is written where the value that an object holds, at the key of what is judged, is right by the schema that
/// its text at the key `schema` denotes; or else what is told of the first fault.
fn judge_held(
    alloc: Global,
    judged: Judged,
    envelope: &Envelope,
    extensions: &Extensions,
) -> Out<String, String>
    requires schema { has_word (contents envelope.now).text_keys (codes "schema") ≡ true }
    requires value { has_word (contents envelope.now).value_keys (judged_key judged) ≡ true }
    ensures due { IfOk result (λ due.
        HoldsRight judged (contents envelope.now) (extension_words extensions.now)
        (string_bytes due)) }
    ensures told { IfRefused result (λ told.
        HoldsWrong judged (contents envelope.now) (extension_words extensions.now)
        (string_bytes told)) }
    ensures accepts { (due : List ℕ)
        → HoldsRight judged (contents envelope.now) (extension_words extensions.now) due
        → Accepts (λ _. ⊤) result }
{
    let Some(text) = envelope.text("schema") else {
        unreachable!()
    };
    let Some(value) = envelope.value(judged.key()) else {
        unreachable!()
    };
    judge_by_text(alloc, judged, text, value, extensions)
}

/// What is written where the value is right by the schema that the text denotes; or else what is told of the first
/// fault.
fn judge_by_text(
    alloc: Global,
    judged: Judged,
    text: &str,
    value: &Value,
    extensions: &Extensions,
) -> Out<String, String>
    ensures due { IfOk result (λ due.
        IsRightBy judged text.now (extension_words extensions.now) (view value.now)
        (string_bytes due)) }
    ensures told { IfRefused result (λ told.
        TellsWrong judged text.now (extension_words extensions.now) (view value.now)
        (string_bytes told)) }
    ensures accepts { (due : List ℕ)
        → IsRightBy judged text.now (extension_words extensions.now) (view value.now) due
        → Accepts (λ _. ⊤) result }
{
    let schema = denoted(alloc, "", text, extensions)?;
    let answer = judge_by(alloc, judged, &schema, value);
    drop(schema);
    answer
}

/// What is written where the value is right by the schema; or else what is told of its first fault.
fn judge_by(
    alloc: Global,
    judged: Judged,
    schema: &ValidatorSchema,
    value: &Value,
) -> Out<String, String>
    ensures due { IfOk result (λ due.
        IsRight judged (schema_in schema.now) (view value.now) (string_bytes due)) }
    ensures told { IfRefused result (λ told.
        TellsFault judged (schema_in schema.now) (view value.now) (string_bytes told)) }
    ensures accepts { (due : List ℕ) → IsRight judged (schema_in schema.now) (view value.now) due
        → Accepts (λ _. ⊤) result }
{
    match judged {
        Judged::Entities => judge_entities(alloc, schema, value),
        Judged::Requests => judge_requests(alloc, schema, value),
    }
}

/// What is written where the value is a list of entities that are right by the schema; or else what is told of its
/// first fault.
fn judge_entities(alloc: Global, schema: &ValidatorSchema, value: &Value) -> Out<String, String>
    ensures due { IfOk result (λ due.
        IsRight Entities (schema_in schema.now) (view value.now) (string_bytes due)) }
    ensures told { IfRefused result (λ told.
        TellsFault Entities (schema_in schema.now) (view value.now) (string_bytes told)) }
    ensures accepts { (due : List ℕ) → IsRight Entities (schema_in schema.now) (view value.now) due
        → Accepts (λ _. ⊤) result }
{
    match conforms_entities(alloc, schema, value) {
        Ok(()) => {
            let due = String::from_str(alloc, "conforms\n")?;
            Ok(due)
        }
        Err(Failure::Refused(fault)) => refused_by(alloc, fault),
        Err(Failure::NoMemory) => Err(Failure::NoMemory),
    }
}

/// What is written where the value is a list of requests that are right by the schema; or else what is told of its
/// first fault.
fn judge_requests(alloc: Global, schema: &ValidatorSchema, value: &Value) -> Out<String, String>
    ensures due { IfOk result (λ due.
        IsRight Requests (schema_in schema.now) (view value.now) (string_bytes due)) }
    ensures told { IfRefused result (λ told.
        TellsFault Requests (schema_in schema.now) (view value.now) (string_bytes told)) }
    ensures accepts { (due : List ℕ) → IsRight Requests (schema_in schema.now) (view value.now) due
        → Accepts (λ _. ⊤) result }
{
    match check_requests(alloc, schema, value) {
        Ok(numbers) => {
            let due = environment_lines(alloc, numbers.as_slice())?;
            Ok(due)
        }
        Err(Failure::Refused(fault)) => refused_by(alloc, fault),
        Err(Failure::NoMemory) => Err(Failure::NoMemory),
    }
}
