// SPDX-License-Identifier: Apache-2.0
ghost use Rattle.std.specs.Prelude.{◌≡◌, [], true, codes, IfOk};
ghost use Rattle.std.specs.String.{string_bytes};
ghost use Rattle.cedar_compat.specs.Compatible.{Compatible};
ghost use Rattle.cedar_data.specs.Answers.{IfRefused};
ghost use Rattle.cedar_envelope.specs.Envelopes.{IsEnvelope, contents};
ghost use Rattle.cedar_names.specs.Extensions.{extension_words};
ghost use Rattle.cedar_reviews.specs.Comparing.{AreCompatible, HoldsCompatible, HoldsIncompatible, MakesComparison, TellsBreak, TellsComparison, TellsIncompatible, TellsNew, schema_keys};
ghost use Rattle.cedar_reviews.specs.Holding.{Denotes, TellsEnvelope};
ghost use Rattle.cedar_schema.specs.SchemaViews.{schema_in};
ghost use Rattle.cedar_text.specs.Words.{has_word};
ghost use Rattle.cedar_world.specs.Schemas.{Schema};

use crate::holding::{denoted, opened};
use crate::refusal::refused_by;
use cedar_compat::compatible;
use cedar_data::{Failure, Out, Text};
use cedar_envelope::Envelope;
use cedar_names::Extensions;
use cedar_resolved::ValidatorSchema;
use std::alloc::Global;

/// What is written where the schema that the text at the key `new` of the input, an object in JSON, denotes takes
/// what that at the key `old` takes; or else what is told of the first fault.
pub(crate) fn compare(alloc: Global, input: &str, extensions: &Extensions) -> Out<String, String>
    ensures due { IfOk result (λ due.
        MakesComparison input.now (extension_words extensions.now) (string_bytes due)) }
    ensures told { IfRefused result (λ told.
        TellsComparison input.now (extension_words extensions.now) (string_bytes told)) }
{
    let envelope = schemas_opened(alloc, input)?;
    let answer = compare_held(alloc, &envelope, extensions);
    drop(envelope);
    answer
}

/// The object that the input is, with the texts of both schemas.
fn schemas_opened(alloc: Global, input: &str) -> Out<Envelope, String>
    ensures is { IfOk result (λ e. IsEnvelope input.now schema_keys [] (contents e)) }
    ensures told { IfRefused result
        (λ told. TellsEnvelope schema_keys [] input.now (string_bytes told)) }
{
    let texts = [Text::new(alloc, "old")?, Text::new(alloc, "new")?];
    opened(alloc, input, &texts, &[])
}

/// What is written where, of the texts that an object holds at `old` and `new`, the new one denotes a schema that
/// takes what that of the old one takes; or else what is told of the first fault.
fn compare_held(alloc: Global, envelope: &Envelope, extensions: &Extensions) -> Out<String, String>
    requires old { has_word (contents envelope.now).text_keys (codes "old") ≡ true }
    requires new { has_word (contents envelope.now).text_keys (codes "new") ≡ true }
    ensures due { IfOk result (λ due.
        HoldsCompatible (contents envelope.now) (extension_words extensions.now)
        (string_bytes due)) }
    ensures told { IfRefused result (λ told.
        HoldsIncompatible (contents envelope.now) (extension_words extensions.now)
        (string_bytes told)) }
{
    let Some(old) = envelope.text("old") else {
        unreachable!()
    };
    let Some(new) = envelope.text("new") else {
        unreachable!()
    };
    compare_texts(alloc, old, new, extensions)
}

/// What is written where the new text denotes a schema that takes what that of the old text takes; or else what is
/// told of the first fault.
fn compare_texts(
    alloc: Global,
    old: &str,
    new: &str,
    extensions: &Extensions,
) -> Out<String, String>
    ensures due { IfOk result (λ due.
        AreCompatible old.now new.now (extension_words extensions.now)
        × (string_bytes due ≡ codes "compatible\n")) }
    ensures told { IfRefused result (λ told.
        TellsIncompatible old.now new.now (extension_words extensions.now) (string_bytes told)) }
{
    let schema = denoted(alloc, "old: ", old, extensions)?;
    let answer = compare_to_text(alloc, &schema, new, extensions);
    drop(schema);
    answer
}

/// What is written where the new text denotes a schema that takes what the old schema takes; or else what is told of
/// the first fault.
fn compare_to_text(
    alloc: Global,
    old: &ValidatorSchema,
    new: &str,
    extensions: &Extensions,
) -> Out<String, String>
    ensures due { IfOk result (λ due.
        ((R : Schema) × Denotes new.now (extension_words extensions.now) R
        × Compatible (schema_in old.now) R) × (string_bytes due ≡ codes "compatible\n")) }
    ensures told { IfRefused result (λ told.
        TellsNew (schema_in old.now) new.now (extension_words extensions.now) (string_bytes told)) }
{
    let schema = denoted(alloc, "new: ", new, extensions)?;
    let answer = compare_schemas(alloc, old, &schema);
    drop(schema);
    answer
}

/// What is written where the new schema takes what the old one takes; or else what is told of the first break.
fn compare_schemas(
    alloc: Global,
    old: &ValidatorSchema,
    new: &ValidatorSchema,
) -> Out<String, String>
    ensures due { IfOk result (λ due.
        Compatible (schema_in old.now) (schema_in new.now)
        × (string_bytes due ≡ codes "compatible\n")) }
    ensures told { IfRefused result (λ told.
        TellsBreak (schema_in old.now) (schema_in new.now) (string_bytes told)) }
{
    match compatible(alloc, old, new) {
        Ok(()) => {
            let due = String::from_str(alloc, "compatible\n")?;
            Ok(due)
        }
        Err(Failure::Refused(fault)) => refused_by(alloc, fault),
        Err(Failure::NoMemory) => Err(Failure::NoMemory),
    }
}
