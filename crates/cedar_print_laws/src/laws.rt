// SPDX-License-Identifier: Apache-2.0
ghost use Rattle.std.specs.Prelude.{◌≡◌, ℕ, List, Option, Some, IsUtf8};
ghost use Rattle.cedar_text.specs.Joining.{joined};
ghost use Rattle.cedar_print.specs.Pieces.{Pieces, text_of};
ghost use Rattle.cedar_tokens.specs.Lexing.{Lexes};
ghost use Rattle.cedar_tokens.specs.declared.token.Token.{Token};
ghost use Rattle.cedar_print_laws.specs.Apart.{Apart, other};
ghost use Rattle.cedar_print_laws.specs.Tokens.{says, tokens_of};

/// A law with no work to do: the text of pieces that stand apart lexes to the tokens of the pieces, where names show
/// themselves as their words with `::` between them.
pub fn printed_tokens<N>()
    ensures { (shown : N → Option (List ℕ)) (words : N → List (List ℕ))
        → ((n : N) → shown n ≡ Some (joined (words n)))
        → (ps : Pieces N) (text : List ℕ) → text_of shown ps ≡ Some text → IsUtf8 text
        → Apart words other ps
        → (ts : List Token) × Lexes text ts × (says text ts ≡ tokens_of words ps) }
{}
