// SPDX-License-Identifier: Apache-2.0
ghost use Rattle.std.specs.Prelude.{◌↔◌, ◌++◌, [], ◌∷◌, map, IsTrue, IfOk};
ghost use Rattle.cedar_grammar.specs.Grammar.{Reads, Viable};
ghost use Rattle.cedar_tree.specs.Trees.{Schema as SchemaTree};
ghost use Rattle.cedar_tokens.specs.Lexemes.{lexeme_token};
ghost use Rattle.cedar_syntax.specs.Causes.{AcceptsAs};
ghost use Rattle.cedar_syntax.specs.Steps.{TellsReading};

use cedar_data::{Failure, Mem, NoMemory, Out, Text};
use cedar_grammar::{grammar_viable, reading_finds};
use cedar_parser::{Fault, parse};
use cedar_tokens::Lexeme;
use cedar_tree::Schema;
use std::alloc::Global;

/// The schema that tokens of this source are, or where they stop being one.
pub fn read_tokens(alloc: Global, source: &Text, lexemes: &[Lexeme<'_>]) -> Out<Schema, Fault>
    ensures answers { TellsReading (map (lexeme_token source.now) lexemes.now) result }
    ensures accepts { (s : SchemaTree) → Reads (map (lexeme_token source.now) lexemes.now) s
        → AcceptsAs s result }
{
    reading_finds();
    parse(alloc, source, lexemes)
}

/// Whether some schema begins with these tokens and the next one behind them.
pub fn may_follow(alloc: Global, source: &Text, front: &[Lexeme<'_>], next: Lexeme<'_>) -> Mem<bool>
    ensures { IfOk result (λ may. IsTrue may
        ↔ Viable (map (lexeme_token source.now) front.now ++ lexeme_token source.now next.entry
        ∷ [])) }
{
    grammar_viable();
    let mut lexemes = Vec::new(alloc);
    lexemes.extend_from_slice(front)?;
    lexemes.push(next)?;
    match read_tokens(alloc, source, &lexemes) {
        Ok(_) => Ok(true),
        Err(Failure::Refused(fault)) => Ok(fault.left == 0),
        Err(Failure::NoMemory) => Err(NoMemory),
    }
}
