// SPDX-License-Identifier: Apache-2.0
ghost use Rattle.std.specs.Prelude.{map};
ghost use Rattle.cedar_tree.specs.Trees.{Schema as SchemaTree};
ghost use Rattle.cedar_tokens.specs.Lexemes.{lexeme_token};
ghost use Rattle.cedar_syntax.specs.Texts.{HasTokens, ReadsText};
ghost use Rattle.cedar_syntax.specs.Causes.{Answers, AcceptsAs};
ghost use Rattle.cedar_syntax.specs.Steps.{TellsText};

use crate::brackets::first_too_many;
use crate::causes::stop_kind;
use crate::lexing::tokens;
use crate::reading::read_tokens;
use cedar_data::{Dup, Failure, Mem, Out, Text};
use cedar_tokens::{Lexeme, lexemes, one_token_list};
use cedar_tree::{ParseError, ParseErrorKind, ParseErrors, Schema, first_too_deep};
use std::alloc::Global;

/// The schema that a source with these tokens is, or why it is none.
fn read_source(alloc: Global, source: &Text, lexemes: &[Lexeme<'_>]) -> Out<Schema, ParseErrorKind>
    requires lexed { HasTokens source.now (map (lexeme_token source.now) lexemes.now) }
    ensures answers { TellsText source.now result }
    ensures accepts { (s : SchemaTree) → ReadsText source.now s → AcceptsAs s result }
{
    one_token_list();
    if let Some(span) = first_too_many(lexemes) {
        return Err(Failure::Refused(ParseErrorKind::TooDeep { span }));
    }
    match read_tokens(alloc, source, lexemes) {
        Ok(schema) => match first_too_deep(&schema) {
            Some(span) => Err(Failure::Refused(ParseErrorKind::TooDeep { span })),
            None => Ok(schema),
        },
        Err(Failure::Refused(fault)) => {
            let kind = stop_kind(alloc, source, lexemes, fault.left)?;
            Err(Failure::Refused(kind))
        }
        Err(Failure::NoMemory) => Err(Failure::NoMemory),
    }
}

/// The schema that a text is, with the places of its pieces. A text that is none is refused with one error, which says
/// why.
pub fn parse_schema(alloc: Global, text: &str) -> Out<Schema, ParseErrors>
    ensures answers { Answers text.now result }
    ensures accepts { (s : SchemaTree) → ReadsText text.now s → AcceptsAs s result }
{
    let found = match tokens(alloc, text) {
        Ok(found) => found,
        Err(Failure::Refused(error)) => {
            return Err(Failure::Refused(ParseErrors::new(error, Vec::new(alloc))));
        }
        Err(Failure::NoMemory) => return Err(Failure::NoMemory),
    };
    let source = Text::new(alloc, text)?;
    let lexemes = lexemes(alloc, source.as_str(), &found)?;
    drop(found);
    match read_source(alloc, &source, &lexemes) {
        Ok(schema) => Ok(schema),
        Err(Failure::Refused(kind)) => {
            let src = source.dup(alloc)?;
            let error = ParseError { kind, src };
            Err(Failure::Refused(ParseErrors::new(error, Vec::new(alloc))))
        }
        Err(Failure::NoMemory) => Err(Failure::NoMemory),
    }
}
