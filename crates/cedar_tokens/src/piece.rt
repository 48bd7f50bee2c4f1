// SPDX-License-Identifier: Apache-2.0
ghost use Rattle.std.specs.Prelude.{◌≡◌, ◌++◌, length, encode_utf8};
ghost use Rattle.std.specs.List.{take_while};
ghost use Rattle.cedar_text.specs.Words.{is_word_start, is_word_byte};
ghost use Rattle.cedar_tokens.specs.Pieces.{is_mark, is_not_line_end, mark_from, piece_from, piece_at, CutsAt};

use crate::literal::closed_len;
use crate::token::TokenKind;
use cedar_text::is_word_byte;

/// What stands at the front of a text, with its length in bytes.
#[derive(Clone, Copy)]
pub enum Piece {
    /// The text has ended.
    End,
    /// A blank or a comment.
    Gap(usize),
    /// A token.
    Token(TokenKind, usize),
    /// A character at which no token begins.
    Stray,
}

/// Whether a word may begin with the character.
fn is_word_start(c: char) -> bool
    ensures { result ≡ is_word_start c }
{
    c.is_ascii_alphabetic() || c == '_'
}

/// How many bytes at the front may stand in a word.
fn word_len(bytes: &[u8]) -> usize
    ensures { result ≡ length (take_while is_word_byte bytes.now) }
{
    bytes.iter().take_while(|byte| is_word_byte(**byte)).count()
}

/// Whether the character is a token by itself.
fn is_mark(c: char) -> bool
    ensures { result ≡ is_mark c }
{
    matches!(
        c,
        '{' | '}' | '[' | ']' | '(' | ')' | '<' | '>' | ',' | ';' | ':' | '=' | '?' | '@'
    )
}

/// How many bytes come before the first line feed or carriage return.
fn line_len(bytes: &[u8]) -> usize
    ensures { result ≡ length (take_while is_not_line_end bytes.now) }
{
    bytes
        .iter()
        .take_while(|byte| **byte != b'\n' && **byte != b'\r')
        .count()
}

/// The mark at the front of a text that begins with the character `first`.
fn mark_from(first: char, text: &str) -> Piece
    ensures { result ≡ mark_from first text.now }
{
    if text.starts_with("::") {
        Piece::Token(TokenKind::Punct, 2)
    } else if is_mark(first) {
        Piece::Token(TokenKind::Punct, 1)
    } else {
        Piece::Stray
    }
}

/// What stands at the front of a text that is the character `first` and the text behind it.
fn piece_from(first: char, text: &str, behind: &str) -> Piece
    requires { text.now ≡ encode_utf8 first ++ behind.now }
    ensures { result ≡ piece_from first text.now }
{
    if first.is_whitespace() {
        return Piece::Gap(first.len_utf8());
    }
    if is_word_start(first) {
        return Piece::Token(TokenKind::Word, word_len(text.as_bytes()));
    }
    if first == '"' {
        return match closed_len(behind) {
            Some(len) => Piece::Token(TokenKind::Str, 1 + len),
            None => Piece::Stray,
        };
    }
    if text.starts_with("//") {
        return Piece::Gap(line_len(text.as_bytes()));
    }
    mark_from(first, text)
}

/// What stands at the front of the text.
#[tactic(auto, unfolding(crate::specs::Pieces::piece_at))]
pub fn piece_of(text: &str) -> Piece
    ensures piece { result ≡ piece_at text.now }
    ensures cut { CutsAt result text.now }
{
    let mut chars = text.chars();
    let Some(first) = chars.next() else {
        return Piece::End;
    };
    piece_from(first, text, chars.as_str())
}
