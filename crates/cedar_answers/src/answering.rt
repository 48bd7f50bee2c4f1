// SPDX-License-Identifier: Apache-2.0
ghost use Rattle.cedar_answers.specs.Answers.{Answers, IsAcceptance, sunk};
ghost use Rattle.cedar_answers.specs.Making.{Accepts, Makes, Tells};
ghost use Rattle.cedar_names.specs.Extensions.{extension_words};

use crate::report::{Report, answer_report};
use crate::resolve_json::answer_resolve_json;
use crate::review::answer_review;
use crate::to_cedar::answer_to_cedar;
use crate::to_json::answer_to_json;
use cedar_commands::{Command, Status};
use cedar_names::Extensions;
use cedar_streams::Sink;
use std::alloc::Global;

/// Answers a text by a command: writes what the command makes of the text to `out`, or why it
/// refuses the text to `err`. The status says which, or what failed. Nothing is written but by
/// `Done`, `Refused` and `WriteFault`.
#[tactic(auto, unfolding(crate::specs::Making::Accepts))]
pub fn answer_text<K: Sink, E: Sink>(
    alloc: Global,
    command: Command,
    text: &str,
    extensions: &Extensions,
    out: &mut K,
    err: &mut E,
) -> Status
    // What was written, by the status.
    ensures answers { Answers (Makes command text.now (extension_words extensions.now))
        (Tells command text.now (extension_words extensions.now))
        (sunk K.written K.faults out.old) (sunk K.written K.faults out.new)
        (sunk E.written E.faults err.old) (sunk E.written E.faults err.new) result }

    // A text that the command accepts is not refused.
    ensures accepts { Accepts command text.now (extension_words extensions.now)
        → IsAcceptance result }
{
    match command {
        Command::Resolve => answer_report(alloc, Report::Listing, text, extensions, out, err),
        Command::ResolveJson => answer_resolve_json(alloc, text, extensions, out, err),
        Command::Check => answer_report(alloc, Report::Counts, text, extensions, out, err),
        Command::ToJson => answer_to_json(alloc, text, extensions, out, err),
        Command::ToCedar => answer_to_cedar(alloc, text, out, err),
        Command::Review(review) => answer_review(alloc, review, text, extensions, out, err),
        Command::Bench(_) => answer_report(alloc, Report::Counts, text, extensions, out, err),
    }
}
