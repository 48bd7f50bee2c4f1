// SPDX-License-Identifier: Apache-2.0
ghost use Rattle.cedar_answers.specs.Answers.{Answers, IsAcceptance, Puts, sunk};
ghost use Rattle.cedar_answers.specs.Made.{AnswersMade};
ghost use Rattle.cedar_answers.specs.Making.{DenotesAny, MakesReport, report_text};
ghost use Rattle.cedar_reviews.specs.Holding.{TellsNoSchema};
ghost use Rattle.cedar_reviews.specs.Refusal.{refusal_text};
ghost use Rattle.cedar_names.specs.Extensions.{extension_words};

use crate::output::{count, list, refuse};
use cedar_commands::Status;
use cedar_convert_warnings::SchemaWarning;
use cedar_data::{Failure, Out};
use cedar_names::Extensions;
use cedar_resolved::ValidatorSchema;
use cedar_schema_errors::CedarSchemaError;
use cedar_schema_json::FromCedarSchema;
use cedar_streams::Sink;
use std::alloc::Global;

/// What is written of a schema and of its warnings.
#[derive(Clone, Copy, Debug)]
pub(crate) enum Report {
    /// The listing.
    Listing,
    /// The line of counts.
    Counts,
}

/// Writes what is reported of a schema and of its warnings.
fn write_report<K: Sink>(
    report: Report,
    schema: &ValidatorSchema,
    warnings: &[SchemaWarning],
    out: &mut K,
) -> Status
    ensures { Puts (report_text report schema.now warnings.now)
        (sunk K.written K.faults out.old) (sunk K.written K.faults out.new) result }
{
    match report {
        Report::Listing => list(schema, warnings, out),
        Report::Counts => count(schema, warnings, out),
    }
}

/// Writes what is reported of the schema that the text denotes, and of its warnings, or why it denotes
/// none.
pub(crate) fn answer_report<K: Sink, E: Sink>(
    alloc: Global,
    report: Report,
    text: &str,
    extensions: &Extensions,
    out: &mut K,
    err: &mut E,
) -> Status
    ensures answers { Answers (MakesReport report text.now (extension_words extensions.now))
        (TellsNoSchema text.now (extension_words extensions.now))
        (sunk K.written K.faults out.old) (sunk K.written K.faults out.new)
        (sunk E.written E.faults err.old) (sunk E.written E.faults err.new) result }
    ensures accepts { DenotesAny text.now (extension_words extensions.now) → IsAcceptance result }
{
    let made = ValidatorSchema::from_cedarschema_str(alloc, text, extensions);
    let status = report_made(alloc, report, &made, out, err);
    drop(made);
    status
}

/// Writes what is reported of a schema and of its warnings, or why there is none.
fn report_made<K: Sink, E: Sink>(
    alloc: Global,
    report: Report,
    made: &Out<(ValidatorSchema, Vec<SchemaWarning>), CedarSchemaError>,
    out: &mut K,
    err: &mut E,
) -> Status
    ensures { AnswersMade (λ made. report_text report made.0 made.1.items) refusal_text made.now
        (sunk K.written K.faults out.old) (sunk K.written K.faults out.new)
        (sunk E.written E.faults err.old) (sunk E.written E.faults err.new) result }
{
    match made {
        Ok((schema, warnings)) => write_report(report, schema, warnings.as_slice(), out),
        Err(Failure::Refused(error)) => refuse(alloc, error, err),
        Err(Failure::NoMemory) => Status::NoMemory,
    }
}
