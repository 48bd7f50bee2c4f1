// SPDX-License-Identifier: Apache-2.0
ghost use Rattle.std.specs.Prelude.{◌≡◌, ℕ, List, map, option_map};
ghost use Rattle.cedar_tokens.specs.Lexemes.{lexeme_token};
ghost use Rattle.cedar_syntax.specs.Repeats.{seen_with, key_in};
ghost use Rattle.cedar_syntax.specs.Steps.{TellsRepeat};

use crate::token_kinds::{is_literal, is_mark, is_word};
use cedar_tokens::Lexeme;

/// What stands at the end of some tokens, as far as one has gone back from there.
#[derive(Clone, Copy)]
enum Seen<'a> {
    /// Annotations, or nothing.
    Annotations,
    /// The `)` of an annotation, and annotations.
    Closing,
    /// The literal of an annotation, and what is to follow it.
    Literal,
    /// The `(` of an annotation, and what is to follow it.
    Opening,
    /// The key of an annotation, and what is to follow it.
    Key(Lexeme<'a>),
    /// An annotation whose key is the word that is looked for, maybe behind other tokens, and annotations.
    Repeated(Lexeme<'a>),
    /// Something else.
    Other,
}

/// What stands at the end, by the token `before` all that was seen.
fn seen_with<'a>(before: Lexeme<'a>, seen: Seen<'a>, word: &str) -> Seen<'a>
    ensures { result ≡ seen_with word.now before.entry seen.entry }
{
    match seen {
        Seen::Annotations => {
            if is_word(&before) {
                Seen::Key(before)
            } else if is_mark(&before, ")") {
                Seen::Closing
            } else {
                Seen::Other
            }
        }
        Seen::Closing if is_literal(&before) => Seen::Literal,
        Seen::Literal if is_mark(&before, "(") => Seen::Opening,
        Seen::Opening if is_word(&before) => Seen::Key(before),
        Seen::Key(key) if is_mark(&before, "@") => {
            if key.text == word {
                Seen::Repeated(key)
            } else {
                Seen::Annotations
            }
        }
        Seen::Repeated(key) => Seen::Repeated(key),
        _ => Seen::Other,
    }
}

/// The last key with this word in the annotations at the end of the tokens.
fn key_in<'a>(tokens: &[Lexeme<'a>], word: &str) -> Option<Lexeme<'a>>
    ensures { result ≡ key_in word.now tokens.now }
{
    let mut seen = Seen::Annotations;
    for token in tokens.iter().rev() {
        seen = seen_with(*token, seen, word);
    }
    match seen {
        Seen::Repeated(key) => Some(key),
        _ => None,
    }
}

/// The key that the token repeats, in the annotations at whose end it stands behind an `@`.
pub fn repeated_key<'a>(front: &[Lexeme<'a>], token: &Lexeme<'_>) -> Option<Lexeme<'a>>
    ensures { (source : List ℕ)
        → TellsRepeat (map (lexeme_token source) front.now) (lexeme_token source token.now)
        (option_map (lexeme_token source) result) }
{
    if !is_word(token) || !cedar_text::is_word(token.text) {
        return None;
    }
    let (last, before) = front.split_last()?;
    if !is_mark(last, "@") {
        return None;
    }
    key_in(before, token.text)
}
