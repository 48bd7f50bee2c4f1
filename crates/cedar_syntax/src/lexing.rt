// SPDX-License-Identifier: Apache-2.0
ghost use Rattle.std.specs.Prelude.{◌≡◌, ◌⊎◌, ℕ, List, All, IfOk, MatchResult};
ghost use Rattle.cedar_data.specs.declared.memory.Failure.TheVariants.{Refused as RefusedWith, NoMemory as OutOfMemory};
ghost use Rattle.cedar_text.specs.Failures.{IfRefused};
ghost use Rattle.cedar_tokens.specs.Forms.{IsFormed};
ghost use Rattle.cedar_tokens.specs.Lexing.{Lexes, NoTokenAt};
ghost use Rattle.cedar_tokens.specs.Standing.{ArePlaced};
ghost use Rattle.cedar_tokens.specs.declared.token.Token.{Token};
ghost use Rattle.cedar_tree.specs.declared.parse_error.ParseErrorKind.TheVariants.{InvalidToken};
ghost use Rattle.cedar_syntax.specs.Steps.{IsInvalid};

use cedar_data::{Failure, Out, Text};
use cedar_tokens::Token;
use cedar_tree::{ParseError, ParseErrorKind};
use std::alloc::Global;

/// The tokens of a text, in its order. A text is refused with the first place that is reached at which no token begins.
pub fn tokens(alloc: Global, text: &str) -> Out<Vec<Token>, ParseError>
    ensures found { IfOk result (λ found. Lexes text.now found.items) }

    // Each token may be cut out of the text.
    ensures placed { IfOk result (λ found. ArePlaced text.now found.items) }

    // Words, literals and marks are what their names say.
    ensures formed { IfOk result (λ found. All (IsFormed text.now) found.items) }

    // A refusal names the text, and a place of it at which no token begins.
    ensures refused { IfRefused result (IsInvalid text.now) }

    // A text that lexes is refused only for want of memory, and one that doesn't is never accepted.
    ensures accepts { (ts : List Token) → Lexes text.now ts
        → MatchResult result (λ found. found.items ≡ ts) (λ e. e ≡ OutOfMemory) }
    ensures refuses { (place : ℕ) → NoTokenAt text.now place
        → MatchResult result (λ _. ⊥) (λ e. (e ≡ OutOfMemory)
        ⊎ (e ≡ RefusedWith (record { kind = InvalidToken place; src = text.now }))) }
{
    match cedar_tokens::tokens(alloc, text) {
        Ok(found) => Ok(found),
        Err(Failure::Refused(none)) => {
            let src = Text::new(alloc, text)?;
            let kind = ParseErrorKind::InvalidToken {
                location: none.location,
            };
            Err(Failure::Refused(ParseError { kind, src }))
        }
        Err(Failure::NoMemory) => Err(Failure::NoMemory),
    }
}
