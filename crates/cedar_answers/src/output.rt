// SPDX-License-Identifier: Apache-2.0
ghost use Rattle.std.specs.String.{string_bytes};
ghost use Rattle.cedar_answers.specs.Answers.{Puts, Rejects, sunk};
ghost use Rattle.cedar_answers.specs.Made.{AnswersMade};
ghost use Rattle.cedar_reviews.specs.Refusal.{refusal_text};
ghost use Rattle.cedar_listing.specs.Counts.{counts};
ghost use Rattle.cedar_listing.specs.Listing.{listing};

use cedar_commands::Status;
use cedar_convert_warnings::SchemaWarning;
use cedar_data::{Failure, Out};
use cedar_listing::{write_counts, write_listing};
use cedar_resolved::ValidatorSchema;
use cedar_reviews::refusal_text;
use cedar_schema_errors::CedarSchemaError;
use cedar_streams::{Sink, SinkFailed, write_str};
use std::alloc::Global;

/// Writes the listing of a schema and of its warnings.
pub(crate) fn list<K: Sink>(
    schema: &ValidatorSchema,
    warnings: &[SchemaWarning],
    out: &mut K,
) -> Status
    ensures { Puts (listing schema.now warnings.now)
        (sunk K.written K.faults out.old) (sunk K.written K.faults out.new) result }
{
    match write_listing(schema, warnings, out) {
        Ok(()) => Status::Done,
        Err(SinkFailed) => Status::WriteFault,
    }
}

/// Writes the line of counts of a schema and of its warnings.
pub(crate) fn count<K: Sink>(
    schema: &ValidatorSchema,
    warnings: &[SchemaWarning],
    out: &mut K,
) -> Status
    ensures { Puts (counts schema.now warnings.now)
        (sunk K.written K.faults out.old) (sunk K.written K.faults out.new) result }
{
    match write_counts(schema, warnings, out) {
        Ok(()) => Status::Done,
        Err(SinkFailed) => Status::WriteFault,
    }
}

/// Writes a text that is due.
fn put_text<K: Sink>(text: &str, out: &mut K) -> Status
    ensures { Puts text.now
        (sunk K.written K.faults out.old) (sunk K.written K.faults out.new) result }
{
    match write_str(out, text) {
        Ok(()) => Status::Done,
        Err(SinkFailed) => Status::WriteFault,
    }
}

/// Writes what is told of a refusal.
fn reject<E: Sink>(told: &str, err: &mut E) -> Status
    ensures { Rejects told.now
        (sunk E.written E.faults err.old) (sunk E.written E.faults err.new) result }
{
    match write_str(err, told) {
        Ok(()) => Status::Refused,
        Err(SinkFailed) => Status::WriteFault,
    }
}

/// Writes a refusal. Its memory is taken before its first byte is written.
pub(crate) fn refuse<E: Sink>(alloc: Global, error: &CedarSchemaError, err: &mut E) -> Status
    ensures { Rejects (refusal_text error.now)
        (sunk E.written E.faults err.old) (sunk E.written E.faults err.new) result }
{
    let Ok(told) = refusal_text(alloc, error) else {
        return Status::NoMemory;
    };
    reject(told.as_str(), err)
}

/// Writes the text that was made, or what is told of the refusal.
pub(crate) fn answer_written<K: Sink, E: Sink>(
    made: &Out<String, String>,
    out: &mut K,
    err: &mut E,
) -> Status
    ensures { AnswersMade string_bytes string_bytes made.now
        (sunk K.written K.faults out.old) (sunk K.written K.faults out.new)
        (sunk E.written E.faults err.old) (sunk E.written E.faults err.new) result }
{
    match made {
        Ok(text) => put_text(text.as_str(), out),
        Err(Failure::Refused(told)) => reject(told.as_str(), err),
        Err(Failure::NoMemory) => Status::NoMemory,
    }
}
