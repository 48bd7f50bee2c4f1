// SPDX-License-Identifier: Apache-2.0
ghost use Rattle.std.specs.Prelude.{◌≡◌};
ghost use Rattle.cedar_tokens.specs.Standing.{StandsIn, own_text};

use cedar_text::{Dup, Mem};
use std::alloc::Global;

/// What a token is.
#[derive(Clone, Copy, Debug, PartialEq, Eq)]
pub enum TokenKind {
    /// A letter of ASCII or `_`, and then letters, digits and `_`.
    Word,
    /// A string literal, with its quotes. Its escapes may be bad.
    Str,
    /// One of `{ } [ ] ( ) < > , ; : :: = ? @`.
    Punct,
}

/// A token: what it is, and the byte offsets in the text at which it starts and ends.
#[derive(Clone, Copy, Debug, PartialEq, Eq)]
pub struct Token {
    /// What the token is.
    pub kind: TokenKind,
    /// The byte offset at which it starts, a boundary of characters.
    pub start: usize,
    /// The byte offset behind its last byte, greater than `start`.
    pub end: usize,
}

impl Token {
    /// The part that the token takes of the text in which it stands.
    pub fn text_of<'a>(&self, source: &'a str) -> &'a str
        requires { StandsIn source.now self.now }
        ensures { result.now ≡ own_text source.now self.now }
    {
        &source[self.start..self.end]
    }
}

/// No token begins at this byte offset of the text, and neither does a blank or a comment.
#[derive(Clone, Copy, Debug, PartialEq, Eq)]
pub struct NoToken {
    /// The byte offset of the character that stands there, less than the length of the text.
    pub location: usize,
}

impl Dup for TokenKind {
    fn dup(&self, _alloc: Global) -> Mem<TokenKind> {
        Ok(*self)
    }
}

impl Dup for Token {
    fn dup(&self, _alloc: Global) -> Mem<Token> {
        Ok(*self)
    }
}

impl Dup for NoToken {
    fn dup(&self, _alloc: Global) -> Mem<NoToken> {
        Ok(*self)
    }
}
