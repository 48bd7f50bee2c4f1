// SPDX-License-Identifier: Apache-2.0
ghost use Rattle.std.specs.Prelude.{◌≡◌, ◌⊎◌, List, ℕ, All, IsUtf8, IfOk, MatchResult};
ghost use Rattle.cedar_text.specs.Failures.{IfRefused};
ghost use Rattle.cedar_text.specs.of_data.declared.memory.Failure.TheVariants.{Refused as RefusedWith, NoMemory as OutOfMemory};
ghost use Rattle.cedar_tokens.specs.Lexing.{Lexes, NoTokenAt};
ghost use Rattle.cedar_tokens.specs.Standing.{ArePlaced, IsPlaceIn};
ghost use Rattle.cedar_tokens.specs.Forms.{IsFormed, TellsFronts};
ghost use Rattle.cedar_tokens.specs.Pieces.{piece_at};
ghost use Rattle.cedar_tokens.specs.declared.token.Token.{Token};

use crate::piece::{Piece, piece_of};
use crate::token::{NoToken, Token};
use cedar_text::{Failure, Out};
use std::alloc::Global;

/// The tokens of a text, in its order. A text is refused with the first place that is reached at
/// which no token begins.
pub fn tokens(alloc: Global, text: &str) -> Out<Vec<Token>, NoToken>
    ensures found { IfOk result (λ found. Lexes text.now found.items) }

    // Each token may be cut out of the text.
    ensures placed { IfOk result (λ found. ArePlaced text.now found.items) }

    // Words, literals and marks are what their names say.
    ensures formed { IfOk result (λ found. All (IsFormed text.now) found.items) }

    // At the place of a refusal no token begins, but a character does.
    ensures refused { IfRefused result (λ none. NoTokenAt text.now none.location) }
    ensures place { IfRefused result (λ none. IsPlaceIn text.now none.location) }

    // A text that lexes is refused only for want of memory, and one that doesn't is never accepted.
    ensures accepts { (ts : List Token) → Lexes text.now ts
        → MatchResult result (λ found. found.items ≡ ts) (λ e. e ≡ OutOfMemory) }
    ensures refuses { (place : ℕ) → NoTokenAt text.now place
        → MatchResult result (λ _. ⊥) (λ e. (e ≡ OutOfMemory)
        ⊎ (e ≡ RefusedWith (record { location = place }))) }
{
    // a token and what stands before it are seldom shorter than three bytes
    let mut found = Vec::with_capacity(alloc, text.len() / 3)?;
    let mut rest = text;
    let mut at = 0;
    'pieces: loop {
        let len = match piece_of(rest) {
            Piece::End => return Ok(found),
            Piece::Stray => return Err(Failure::Refused(NoToken { location: at })),
            Piece::Gap(len) => len,
            Piece::Token(kind, len) => {
                let end = at + len;
                found.push(Token {
                    kind,
                    start: at,
                    end,
                })?;
                len
            }
        };
        rest = rest.split_at(len).1;
        at += len;
    }
}

/// A law with no work to do: a text lexes to at most one list of tokens.
#[tactic(auto, using(crate::proofs::Lexed::one_list))]
pub fn one_token_list()
    ensures { (text : List ℕ) (one other : List Token)
        → Lexes text one → Lexes text other → one ≡ other }
{}

/// A law with no work to do: a text has at most one place that is reached at which no token begins.
#[tactic(auto, using(crate::proofs::Lexed::one_stray))]
pub fn one_place()
    ensures { (text : List ℕ) (one other : ℕ)
        → NoTokenAt text one → NoTokenAt text other → one ≡ other }
{}

/// A law with no work to do: a text that lexes has no such place.
#[tactic(auto, using(crate::proofs::Lexed::not_both))]
pub fn tokens_without_place()
    ensures { (text : List ℕ) (ts : List Token) (place : ℕ)
        → Lexes text ts → NoTokenAt text place → ⊥ }
{}

/// A law with no work to do: a text lexes, or it has such a place.
pub fn tokens_or_place()
    ensures { (text : List ℕ) → IsUtf8 text
        → ((ts : List Token) × Lexes text ts) ⊎ ((place : ℕ) × NoTokenAt text place) }
{}

/// A law with no work to do: a token is the longest that begins at its place, and no token begins
/// where a blank, a comment, the end or nothing else stands.
pub fn longest_token()
    ensures { (rest : List ℕ) → IsUtf8 rest → TellsFronts (piece_at rest) rest }
{}
