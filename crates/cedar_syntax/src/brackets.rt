// SPDX-License-Identifier: Apache-2.0
ghost use Rattle.std.specs.Prelude.{◌≡◌, ◌≤◌, ℕ, List, map};
ghost use Rattle.cedar_grammar.specs.Grammar.{unclosed_behind};
ghost use Rattle.cedar_tokens.specs.Lexemes.{lexeme_token};
ghost use Rattle.cedar_syntax.specs.Marks.{bare};
ghost use Rattle.cedar_syntax.specs.Steps.{TellsBrackets};
ghost use Rattle.cedar_syntax.specs.Texts.{open_at_most};

use crate::token_kinds::{closes_bracket, opens_bracket, span};
use cedar_names::Span;
use cedar_tokens::Lexeme;

/// How many brackets may be open at one place of a text.
const OPEN_AT_MOST: usize = 130;

/// How many brackets are open behind the token, where so many were before it.
fn unclosed_behind(unclosed: usize, token: &Lexeme<'_>) -> usize
    requires { unclosed ≤ open_at_most }
    ensures { result ≡ unclosed_behind unclosed (bare token.now) }
{
    if opens_bracket(token) {
        unclosed + 1
    } else if closes_bracket(token) {
        unclosed.saturating_sub(1)
    } else {
        unclosed
    }
}

/// The place of the first bracket at which too many are open.
pub fn first_too_many(lexemes: &[Lexeme<'_>]) -> Option<Span>
    ensures { (source : List ℕ) → TellsBrackets (map (lexeme_token source) lexemes.now) result }
{
    let mut unclosed = 0;
    for token in lexemes {
        unclosed = unclosed_behind(unclosed, token);
        if unclosed > OPEN_AT_MOST {
            return Some(span(token));
        }
    }
    None
}
