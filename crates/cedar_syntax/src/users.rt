// SPDX-License-Identifier: Apache-2.0
ghost use Rattle.std.specs.Prelude.{◌↔◌, ℕ, List, map, IsTrue, IfOk};
ghost use Rattle.cedar_tokens.specs.Lexemes.{lexeme_token};
ghost use Rattle.cedar_syntax.specs.Causes.{ClosesEmptyEnum, IsReservedWord};
ghost use Rattle.cedar_syntax.specs.Steps.{IsEscapeIn, TellsEscape, TellsRepeatError, TellsReservedError, TellsRule};

use crate::reading::may_follow;
use crate::repeats::repeated_key;
use crate::token_kinds::{is_keyword, is_literal, is_mark, is_word, span};
use cedar_data::{Dup, Failure, Mem, NoMemory, Text};
use cedar_names::{AnyId, BadEscape, Loc, Node};
use cedar_parser::literal_body;
use cedar_text::{is_reserved_word, unescape};
use cedar_tokens::{Lexeme, TokenKind};
use cedar_tree::UserError;
use std::alloc::Global;

/// Whether the token is the `]` of an empty list behind `enum`.
fn closes_empty_enum(front: &[Lexeme<'_>], token: &Lexeme<'_>) -> bool
    ensures { (source : List ℕ)
        → IsTrue result
        ↔ ClosesEmptyEnum (map (lexeme_token source) front.now) (lexeme_token source token.now) }
{
    if !is_mark(token, "]") {
        return false;
    }
    let Some((opening, behind)) = front.split_last() else {
        return false;
    };
    if !is_mark(opening, "[") {
        return false;
    }
    match behind.split_last() {
        Some((word, _)) => is_keyword(word, "enum"),
        None => false,
    }
}

/// The first bad escape of the body of a literal.
fn escape_in(alloc: Global, body: &str) -> Mem<Option<BadEscape>>
    ensures { IfOk result (IsEscapeIn body.now) }
{
    match unescape(alloc, body) {
        Ok(_) => Ok(None),
        Err(Failure::Refused(bad)) => Ok(Some(bad)),
        Err(Failure::NoMemory) => Err(NoMemory),
    }
}

/// The bad escape for which the token strays, where a literal could stand.
fn bad_escape(
    alloc: Global,
    source: &Text,
    front: &[Lexeme<'_>],
    token: &Lexeme<'_>,
) -> Mem<Option<BadEscape>>
    ensures { IfOk result
        (TellsEscape (map (lexeme_token source.now) front.now)
        (lexeme_token source.now token.now)) }
{
    if !is_literal(token) {
        return Ok(None);
    }
    let Some(body) = literal_body(token.text) else {
        return Ok(None);
    };
    let Some(bad) = escape_in(alloc, body)? else {
        return Ok(None);
    };
    let literal = Lexeme {
        kind: TokenKind::Str,
        text: "\"\"",
        start: token.start,
        end: token.end,
    };
    if may_follow(alloc, source, front, literal)? {
        Ok(Some(bad))
    } else {
        Ok(None)
    }
}

/// Whether the token is a reserved word where an identifier could stand.
fn is_reserved(alloc: Global, source: &Text, front: &[Lexeme<'_>], token: &Lexeme<'_>) -> Mem<bool>
    ensures { IfOk result (λ is. IsTrue is
        ↔ IsReservedWord (map (lexeme_token source.now) front.now)
        (lexeme_token source.now token.now)) }
{
    if !is_word(token) || !is_reserved_word(token.text) {
        return Ok(false);
    }
    if let Some(_) = repeated_key(front, token) {
        return Ok(false);
    }
    let word = Lexeme {
        kind: TokenKind::Word,
        text: "x",
        start: token.start,
        end: token.end,
    };
    may_follow(alloc, source, front, word)
}

/// The error of a token that repeats a key.
fn repeat_error(alloc: Global, front: &[Lexeme<'_>], token: &Lexeme<'_>) -> Mem<Option<UserError>>
    ensures { IfOk result (λ error. (source : List ℕ)
        → TellsRepeatError (map (lexeme_token source) front.now)
        (lexeme_token source token.now) error) }
{
    let Some(first) = repeated_key(front, token) else {
        return Ok(None);
    };
    let Some(key) = AnyId::new(alloc, token.text)? else {
        return Ok(None);
    };
    Ok(Some(UserError::DuplicateAnnotations(key, span(&first), span(token))))
}

/// The error of a reserved word where an identifier could stand.
fn reserved_error(
    alloc: Global,
    source: &Text,
    front: &[Lexeme<'_>],
    token: &Lexeme<'_>,
) -> Mem<Option<UserError>>
    ensures { IfOk result
        (TellsReservedError (map (lexeme_token source.now) front.now)
        (lexeme_token source.now token.now)) }
{
    if !is_reserved(alloc, source, front, token)? {
        return Ok(None);
    }
    let node = Text::new(alloc, token.text)?;
    let src = source.dup(alloc)?;
    let loc = Loc::new(token.start, token.end, src);
    Ok(Some(UserError::ReservedIdentifierUsed(Node { node, loc })))
}

/// The error of the rule that a token breaks which strays behind these, if it breaks one.
pub fn rule_error(
    alloc: Global,
    source: &Text,
    front: &[Lexeme<'_>],
    token: &Lexeme<'_>,
) -> Mem<Option<UserError>>
    ensures { IfOk result
        (TellsRule (map (lexeme_token source.now) front.now) (lexeme_token source.now token.now)) }
{
    if closes_empty_enum(front, token) {
        return Ok(Some(UserError::EmptyList(span(token))));
    }
    if let Some(bad) = bad_escape(alloc, source, front, token)? {
        return Ok(Some(UserError::StringEscape(span(token), bad)));
    }
    if let Some(error) = repeat_error(alloc, front, token)? {
        return Ok(Some(error));
    }
    reserved_error(alloc, source, front, token)
}
