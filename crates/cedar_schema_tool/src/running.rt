// SPDX-License-Identifier: Apache-2.0
ghost use Rattle.std.specs.Prelude.{map};
ghost use Rattle.std.specs.String.{string_bytes};
ghost use Rattle.cedar_answers.specs.Answers.{IsAcceptance, sunk};
ghost use Rattle.cedar_answers.specs.Making.{Accepts};
ghost use Rattle.cedar_commands.specs.declared.command.Command.TheVariants.{Bench};
ghost use Rattle.cedar_generator.specs.Generated.{generated};
ghost use Rattle.cedar_names.specs.Extensions.{extension_words};
ghost use Rattle.cedar_schema_tool.specs.Answering.{AcceptsBytes, AcceptsSource, AnswersBytes, AnswersSource, AnswersText};
ghost use Rattle.cedar_schema_tool.specs.Running.{AcceptsGiven, Runs, streams};

use cedar_answers::answer_text;
use cedar_commands::{Command, Status, asked};
use cedar_data::NoMemory;
use cedar_generator::generate;
use cedar_names::Extensions;
use cedar_streams::{ReadStop, Sink, Source, read_all};
use std::alloc::Global;
use std::str;

/// How many bytes a text may have.
pub const LONGEST_TEXT: usize = 4_194_304;

/// Runs the program: does what the words ask for with the text that `source` holds, or for `bench`
/// with a generated one. What is made of the text is written to `out`, or why it is refused to `err`.
/// The status says which, or what failed. Nothing is written but by `Done`, `Refused` and
/// `WriteFault`.
pub fn run<S: Source, K: Sink, E: Sink>(
    alloc: Global,
    words: &[String],
    source: &mut S,
    out: &mut K,
    err: &mut E,
) -> Status
    // What was read and written, by the status.
    ensures runs { Runs (map string_bytes words.now)
        (streams S.left S.faults source.old K.written K.faults out.old E.written E.faults err.old)
        (streams S.left S.faults source.new K.written K.faults out.new E.written E.faults err.new)
        result }

    // A text that the command accepts is accepted.
    ensures accepts { AcceptsGiven (map string_bytes words.now)
        (streams S.left S.faults source.old K.written K.faults out.old E.written E.faults err.old)
        result }
{
    let (command, extensions) = match asked(alloc, words) {
        Ok(Some(found)) => found,
        Ok(None) => return Status::Usage,
        Err(NoMemory) => return Status::NoMemory,
    };
    match command {
        Command::Bench(size) => answer_generated(alloc, size, &extensions, out, err),
        _ => answer_source(alloc, command, &extensions, source, out, err),
    }
}

/// Answers the generated text of a size.
fn answer_generated<K: Sink, E: Sink>(
    alloc: Global,
    size: u32,
    extensions: &Extensions,
    out: &mut K,
    err: &mut E,
) -> Status
    ensures answers { AnswersText (Bench size) (generated size) (extension_words extensions.now)
        (sunk K.written K.faults out.old) (sunk K.written K.faults out.new)
        (sunk E.written E.faults err.old) (sunk E.written E.faults err.new)
        result }
    ensures accepts { Accepts (Bench size) (generated size) (extension_words extensions.now)
        → IsAcceptance result }
{
    match generate(alloc, size) {
        Ok(text) => answer_text(
            alloc,
            Command::Bench(size),
            text.as_str(),
            extensions,
            out,
            err,
        ),
        Err(NoMemory) => Status::NoMemory,
    }
}

/// Answers the text that a source holds: reads all of it first.
fn answer_source<S: Source, K: Sink, E: Sink>(
    alloc: Global,
    command: Command,
    extensions: &Extensions,
    source: &mut S,
    out: &mut K,
    err: &mut E,
) -> Status
    ensures answers { AnswersSource command (extension_words extensions.now)
        (streams S.left S.faults source.old K.written K.faults out.old E.written E.faults err.old)
        (streams S.left S.faults source.new K.written K.faults out.new E.written E.faults err.new)
        result }
    ensures accepts { AcceptsSource command (extension_words extensions.now)
        (S.left source.old) result }
{
    match read_all(alloc, source, LONGEST_TEXT) {
        Ok(bytes) => answer_bytes(alloc, command, bytes.as_slice(), extensions, out, err),
        Err(ReadStop::Fault) => Status::ReadFault,
        Err(ReadStop::TooLong) => Status::TooLong,
        Err(ReadStop::NoMemory) => Status::NoMemory,
    }
}

/// Answers bytes: the text that they are, if they are one.
fn answer_bytes<K: Sink, E: Sink>(
    alloc: Global,
    command: Command,
    bytes: &[u8],
    extensions: &Extensions,
    out: &mut K,
    err: &mut E,
) -> Status
    ensures answers { AnswersBytes command bytes.now (extension_words extensions.now)
        (sunk K.written K.faults out.old) (sunk K.written K.faults out.new)
        (sunk E.written E.faults err.old) (sunk E.written E.faults err.new)
        result }
    ensures accepts { AcceptsBytes command bytes.now (extension_words extensions.now) result }
{
    match str::from_utf8(bytes) {
        Ok(text) => answer_text(alloc, command, text, extensions, out, err),
        Err(_) => Status::NotUtf8,
    }
}
