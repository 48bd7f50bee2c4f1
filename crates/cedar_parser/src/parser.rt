// SPDX-License-Identifier: Apache-2.0
ghost use Rattle.std.specs.Prelude.{[], map};
ghost use Rattle.cedar_tokens.specs.Lexemes.{lexeme_token};
ghost use Rattle.cedar_tree.specs.Meanings.{schema_tree};
ghost use Rattle.cedar_grammar.specs.Reading.{schema_at};
ghost use Rattle.cedar_parser.specs.Giving.{Gives};

use crate::fault::Fault;
use crate::tokens::{Parser, Tokens};
use cedar_data::{Out, Text};
use cedar_tokens::Lexeme;
use cedar_tree::Schema;
use std::alloc::Global;

/// The schema that tokens of this source are, or where they stop being one.
pub fn parse(alloc: Global, source: &Text, lexemes: &[Lexeme<'_>]) -> Out<Schema, Fault>
    ensures { Gives schema_tree [] result (schema_at (map (lexeme_token source.now) lexemes.now)) }
{
    let mut tokens = Tokens { rest: lexemes };
    Parser { alloc, source }.schema(&mut tokens)
}
