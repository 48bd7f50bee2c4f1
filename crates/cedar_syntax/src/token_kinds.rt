// SPDX-License-Identifier: Apache-2.0
ghost use Rattle.std.specs.Prelude.{◌≡◌};
ghost use Rattle.cedar_text.specs.Places.{span_of};
ghost use Rattle.cedar_grammar.specs.Grammar.{is_keyword, is_mark_token, is_str_kind, is_word_token};
ghost use Rattle.cedar_syntax.specs.Marks.{bare, opens_bracket, closes_bracket};

use cedar_names::Span;
use cedar_tokens::{Lexeme, TokenKind};

/// Whether the token is a word.
pub fn is_word(token: &Lexeme<'_>) -> bool
    ensures { result ≡ is_word_token (bare token.now) }
{
    matches!(token.kind, TokenKind::Word)
}

/// Whether the token is a string literal.
pub fn is_literal(token: &Lexeme<'_>) -> bool
    ensures { result ≡ is_str_kind token.now.kind }
{
    matches!(token.kind, TokenKind::Str)
}

/// Whether the token is this word.
pub fn is_keyword(token: &Lexeme<'_>, word: &str) -> bool
    ensures { result ≡ is_keyword word.now (bare token.now) }
{
    matches!(token.kind, TokenKind::Word) && token.text == word
}

/// Whether the token is this mark.
pub fn is_mark(token: &Lexeme<'_>, mark: &str) -> bool
    ensures { result ≡ is_mark_token mark.now (bare token.now) }
{
    matches!(token.kind, TokenKind::Punct) && token.text == mark
}

/// Whether the token is `{` or `<`.
pub fn opens_bracket(token: &Lexeme<'_>) -> bool
    ensures { result ≡ opens_bracket (bare token.now) }
{
    matches!(token.kind, TokenKind::Punct) && matches!(token.text.as_bytes(), [b'{' | b'<'])
}

/// Whether the token is `}` or `>`.
pub fn closes_bracket(token: &Lexeme<'_>) -> bool
    ensures { result ≡ closes_bracket (bare token.now) }
{
    matches!(token.kind, TokenKind::Punct) && matches!(token.text.as_bytes(), [b'}' | b'>'])
}

/// The bytes that the token takes.
pub fn span(token: &Lexeme<'_>) -> Span
    ensures { result ≡ span_of (bare token.now).loc }
{
    Span {
        start: token.start,
        end: token.end,
    }
}
