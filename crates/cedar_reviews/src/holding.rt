// SPDX-License-Identifier: Apache-2.0
ghost use Rattle.std.specs.Prelude.{◌≡◌, ◌++◌, IfOk};
ghost use Rattle.std.specs.List.{IsDistinct};
ghost use Rattle.std.specs.Str.{bytes_eq};
ghost use Rattle.std.specs.String.{string_bytes};
ghost use Rattle.cedar_data.specs.Answers.{Accepts, IfRefused};
ghost use Rattle.cedar_envelope.specs.Envelopes.{IsEnvelope, contents};
ghost use Rattle.cedar_names.specs.Extensions.{extension_words};
ghost use Rattle.cedar_reviews.specs.Holding.{Denotes, TellsEnvelope, TellsLabelled};
ghost use Rattle.cedar_schema.specs.SchemaViews.{schema_in};
ghost use Rattle.cedar_world.specs.Schemas.{Schema};

use crate::refusal::{refused_behind, refused_by};
use cedar_data::{Failure, Out, Text};
use cedar_envelope::{Envelope, read_envelope};
use cedar_names::Extensions;
use cedar_resolved::ValidatorSchema;
use cedar_schema::FromCedarSchema;
use std::alloc::Global;

/// The object that the input is, with texts and values at these keys.
pub(crate) fn opened(
    alloc: Global,
    input: &str,
    texts: &[Text],
    values: &[Text],
) -> Out<Envelope, String>
    requires distinct { IsDistinct bytes_eq (texts.now ++ values.now) }
    ensures is { IfOk result (λ e. IsEnvelope input.now texts.now values.now (contents e)) }
    ensures told { IfRefused result
        (λ told. TellsEnvelope texts.now values.now input.now (string_bytes told)) }
{
    match read_envelope(alloc, input, texts, values) {
        Ok(envelope) => Ok(envelope),
        Err(Failure::Refused(fault)) => refused_by(alloc, fault),
        Err(Failure::NoMemory) => Err(Failure::NoMemory),
    }
}

/// The schema that the text denotes; where it denotes none, that is told behind a label.
pub(crate) fn denoted(
    alloc: Global,
    label: &str,
    text: &str,
    extensions: &Extensions,
) -> Out<ValidatorSchema, String>
    ensures denotes { IfOk result
        (λ schema. Denotes text.now (extension_words extensions.now) (schema_in schema)) }
    ensures told { IfRefused result (λ told.
        TellsLabelled label.now text.now (extension_words extensions.now) (string_bytes told)) }
    ensures accepts { (S : Schema) → Denotes text.now (extension_words extensions.now) S
        → Accepts (λ schema. schema_in schema ≡ S) result }
{
    match ValidatorSchema::from_cedarschema_str(alloc, text, extensions) {
        Ok((schema, _)) => Ok(schema),
        Err(Failure::Refused(error)) => refused_behind(alloc, label, error),
        Err(Failure::NoMemory) => Err(Failure::NoMemory),
    }
}
