// SPDX-License-Identifier: Apache-2.0
ghost use Rattle.std.specs.Prelude.{◌≡◌, All, map, IfOk};
ghost use Rattle.cedar_tokens.specs.Standing.{StandsIn};
ghost use Rattle.cedar_tokens.specs.Lexemes.{text_token, lexeme_token};

use crate::token::{Token, TokenKind};
use cedar_text::{Dup, Mem};
use std::alloc::Global;

/// A token, with the part of the text that it takes.
#[derive(Clone, Copy, Debug)]
pub struct Lexeme<'a> {
    /// What the token is.
    pub kind: TokenKind,
    /// The bytes of the text from `start` to `end`, a literal with its quotes.
    pub text: &'a str,
    /// The byte offset in the text at which it starts.
    pub start: usize,
    /// The byte offset in the text behind its last byte.
    pub end: usize,
}

impl<'a> Dup for Lexeme<'a> {
    fn dup(&self, _alloc: Global) -> Mem<Lexeme<'a>> {
        Ok(*self)
    }
}

/// The tokens of a text, each with its part of the text.
pub fn lexemes<'a>(alloc: Global, source: &'a str, tokens: &[Token]) -> Mem<Vec<Lexeme<'a>>>
    requires { All (StandsIn source.now) tokens.now }
    ensures { IfOk result (λ found. map (lexeme_token source.now) found.items
        ≡ map (text_token source.now) tokens.now) }
{
    let mut found = Vec::with_capacity(alloc, tokens.len())?;
    for token in tokens {
        found.push(Lexeme {
            kind: token.kind,
            text: token.text_of(source),
            start: token.start,
            end: token.end,
        })?;
    }
    Ok(found)
}
