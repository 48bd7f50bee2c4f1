// SPDX-License-Identifier: Apache-2.0
ghost use Rattle.std.specs.Prelude.{◌≡◌, ◌++◌, ⊤, codes, IfOk};
ghost use Rattle.std.specs.String.{string_bytes};
ghost use Rattle.serde_json.specs.Written.{compact_text};
ghost use Rattle.cedar_answers.specs.Answers.{Answers, IsAcceptance, sunk};
ghost use Rattle.cedar_answers.specs.Making.{DeclaresAny, MakesJson};
ghost use Rattle.cedar_data.specs.Answers.{Accepts, IfRefused};
ghost use Rattle.cedar_json_write.specs.Written.{fragment_json};
ghost use Rattle.cedar_names.specs.Extensions.{extension_words};
ghost use Rattle.cedar_reviews.specs.Holding.{TellsNoDeclaration};

use crate::output::answer_written;
use cedar_commands::Status;
use cedar_convert_warnings::SchemaWarning;
use cedar_data::{Failure, Mem, Out};
use cedar_fragment::{Fragment, RawName};
use cedar_json_write::fragment_text;
use cedar_names::Extensions;
use cedar_reviews::refused;
use cedar_schema_json::FragmentText;
use cedar_streams::Sink;
use std::alloc::Global;

/// Writes in JSON what the text declares, or why it declares nothing.
pub(crate) fn answer_to_json<K: Sink, E: Sink>(
    alloc: Global,
    text: &str,
    extensions: &Extensions,
    out: &mut K,
    err: &mut E,
) -> Status
    ensures answers { Answers (MakesJson text.now (extension_words extensions.now))
        (TellsNoDeclaration text.now)
        (sunk K.written K.faults out.old) (sunk K.written K.faults out.new)
        (sunk E.written E.faults err.old) (sunk E.written E.faults err.new) result }
    ensures accepts { DeclaresAny text.now (extension_words extensions.now) → IsAcceptance result }
{
    let made = json_line(alloc, text, extensions);
    answer_written(&made, out, err)
}

/// What the text declares, as a line in JSON; or what is told of the refusal.
fn json_line(alloc: Global, text: &str, extensions: &Extensions) -> Out<String, String>
    ensures due { IfOk result (λ line.
        MakesJson text.now (extension_words extensions.now) (string_bytes line)) }
    ensures told { IfRefused result (λ told. TellsNoDeclaration text.now (string_bytes told)) }
    ensures accepts { DeclaresAny text.now (extension_words extensions.now)
        → Accepts (λ _. ⊤) result }
{
    match Fragment::from_cedarschema_str(alloc, text, extensions) {
        Ok(declared) => Ok(line_of(alloc, declared)?),
        Err(Failure::Refused(error)) => refused(alloc, error),
        Err(Failure::NoMemory) => Err(Failure::NoMemory),
    }
}

/// The line in JSON of a fragment. Its warnings don't stand in it.
fn line_of(alloc: Global, declared: (Fragment<RawName>, Vec<SchemaWarning>)) -> Mem<String>
    ensures { IfOk result (λ line.
        string_bytes line ≡ compact_text (fragment_json declared.0) ++ codes "\n") }
{
    let (fragment, _) = declared;
    let mut line = fragment_text(alloc, &fragment)?;
    line.push('\n')?;
    Ok(line)
}
