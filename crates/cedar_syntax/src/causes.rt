// SPDX-License-Identifier: Apache-2.0
ghost use Rattle.std.specs.Prelude.{◌≡◌, ℕ, List, map, IfOk, Err};
ghost use Rattle.cedar_grammar.specs.Grammar.{OpensAtMost};
ghost use Rattle.cedar_grammar.specs.Stops.{Finds};
ghost use Rattle.cedar_tokens.specs.Lexemes.{lexeme_token};
ghost use Rattle.cedar_tree.specs.declared.parse_error.ParseErrorKind.{ParseErrorKind as Kind};
ghost use Rattle.cedar_syntax.specs.Causes.{Cause, StraysAs};
ghost use Rattle.cedar_syntax.specs.Texts.{HasTokens, open_at_most};

use crate::token_kinds::span;
use crate::users::rule_error;
use cedar_data::{Mem, Text};
use cedar_grammar::{grammar_viable, one_reading};
use cedar_tokens::{Lexeme, one_place, one_token_list, tokens_without_place};
use cedar_tree::ParseErrorKind;
use std::alloc::Global;

/// What is wrong with a token that strays behind these.
fn stray_kind(
    alloc: Global,
    source: &Text,
    front: &[Lexeme<'_>],
    token: &Lexeme<'_>,
) -> Mem<ParseErrorKind>
    ensures { IfOk result
        (StraysAs (map (lexeme_token source.now) front.now) (lexeme_token source.now token.now)) }
{
    if let Some(error) = rule_error(alloc, source, front, token)? {
        return Ok(ParseErrorKind::User(error));
    }
    let text = Text::new(alloc, token.text)?;
    Ok(ParseErrorKind::UnrecognizedToken {
        span: span(token),
        token: text,
    })
}

/// A law with no work to do: a text has one cause at most for being no schema.
pub fn one_cause()
    ensures { (text : List ℕ) (one other : Kind) → Cause text one → Cause text other → one ≡ other }
{
    one_token_list();
    one_place();
    tokens_without_place();
    grammar_viable();
    one_reading();
}

/// Why the tokens of the source stop being a schema, where so many of them are left.
pub fn stop_kind(
    alloc: Global,
    source: &Text,
    lexemes: &[Lexeme<'_>],
    left: usize,
) -> Mem<ParseErrorKind>
    requires lexed { HasTokens source.now (map (lexeme_token source.now) lexemes.now) }
    requires brackets { OpensAtMost open_at_most (map (lexeme_token source.now) lexemes.now) }
    requires stops { Finds (map (lexeme_token source.now) lexemes.now) (Err left) }
    ensures { IfOk result (Cause source.now) }
{
    if left == 0 {
        return Ok(ParseErrorKind::UnrecognizedEof {
            location: source.as_str().len(),
        });
    }
    let at = lexemes.len() - left;
    stray_kind(alloc, source, &lexemes[..at], &lexemes[at])
}
