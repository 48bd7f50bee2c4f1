// SPDX-License-Identifier: Apache-2.0
ghost use Rattle.std.specs.Prelude.{⊤, IfOk};
ghost use Rattle.std.specs.String.{string_bytes};
ghost use Rattle.cedar_answers.specs.Answers.{Answers, IsAcceptance, sunk};
ghost use Rattle.cedar_answers.specs.Making.{CanBePrinted, MakesCedar};
ghost use Rattle.cedar_answers.specs.Printing.{TellsUnprintable};
ghost use Rattle.cedar_data.specs.Answers.{Accepts, IfRefused};
ghost use Rattle.cedar_fragment.specs.ActionUids.{over_raw};
ghost use Rattle.cedar_fragment.specs.declared.definitions.Fragment.{Fragment as Shaped};
ghost use Rattle.cedar_written.specs.declared.raw_name.RawName.{RawName as Raw};

use crate::output::answer_written;
use cedar_commands::Status;
use cedar_data::{Failure, Out};
use cedar_fragment::Fragment;
use cedar_json::FragmentJson;
use cedar_reviews::{printed, refused};
use cedar_schema_error::SchemaError;
use cedar_schema_errors::CedarSchemaError;
use cedar_streams::Sink;
use std::alloc::Global;

/// Writes in the human syntax what the text declares in JSON, or why that can't be written.
pub(crate) fn answer_to_cedar<K: Sink, E: Sink>(
    alloc: Global,
    text: &str,
    out: &mut K,
    err: &mut E,
) -> Status
    ensures answers { Answers (MakesCedar text.now) (TellsUnprintable text.now)
        (sunk K.written K.faults out.old) (sunk K.written K.faults out.new)
        (sunk E.written E.faults err.old) (sunk E.written E.faults err.new) result }
    ensures accepts { ((F : Shaped Raw over_raw) × CanBePrinted text.now F) → IsAcceptance result }
{
    let made = cedar_text(alloc, text);
    answer_written(&made, out, err)
}

/// What the text declares in JSON, in the human syntax; or what is told of the refusal.
fn cedar_text(alloc: Global, text: &str) -> Out<String, String>
    ensures due { IfOk result (λ due. MakesCedar text.now (string_bytes due)) }
    ensures told { IfRefused result (λ told. TellsUnprintable text.now (string_bytes told)) }
    ensures accepts { ((F : Shaped Raw over_raw) × CanBePrinted text.now F)
        → Accepts (λ _. ⊤) result }
{
    match Fragment::from_json_str(alloc, text) {
        Ok(fragment) => printed(alloc, fragment),
        Err(Failure::Refused(error)) => {
            let error = SchemaError::JsonDeserialization(error);
            refused(alloc, CedarSchemaError::Schema(error))
        }
        Err(Failure::NoMemory) => Err(Failure::NoMemory),
    }
}
