// SPDX-License-Identifier: Apache-2.0
ghost use Rattle.std.specs.Prelude.{◌↔◌, ◌≡◌, ◌≤◌, ◌++◌, ℕ, List, [], Ok};
ghost use Rattle.cedar_tokens.specs.Lexemes.{TextToken};
ghost use Rattle.cedar_grammar.specs.Grammar.{schema, type_upto, Reads, Viable};
ghost use Rattle.cedar_grammar.specs.AsRead.{SchemaAsRead};
ghost use Rattle.cedar_grammar.specs.Productions.{Completable};
ghost use Rattle.cedar_grammar.specs.Reading.{schema_at};
ghost use Rattle.cedar_grammar.specs.Stops.{Finds};
ghost use Rattle.cedar_grammar.specs.Unplaced.{tokens_unplaced};
ghost use Rattle.cedar_tree.specs.Trees.{Node, Schema, TypeTree};
ghost use Rattle.cedar_tree.specs.Unplaced.{schema_unplaced};
ghost use Rattle.cedar_tree.specs.Nesting.{nest};

/// A law with no work to do: the tokens at which a schema may stop short are exactly those that
/// some further tokens complete to a schema, however deep types may nest.
pub fn grammar_viable()
    ensures at_level { (n : ℕ) (tokens : List TextToken)
        → (schema (type_upto n)).begins tokens ↔ Completable (schema (type_upto n)) tokens }

    // The same, where the levels are left open.
    ensures viable { (tokens : List TextToken)
        → Viable tokens
        ↔ ((further : List TextToken) × (s : Schema) × Reads (tokens ++ further) s) }
{}

/// A law with no work to do: the types of a level are exactly those of all levels that nest no
/// deeper.
pub fn levels_nest()
    ensures { (n : ℕ) (tokens : List TextToken) (ty : Node TypeTree) (rest : List TextToken)
        → (type_upto n).reads tokens ty rest
        ↔ (((m : ℕ) × (type_upto m).reads tokens ty rest) × (nest ty.node ≤ n)) }
{}

/// A law with no work to do: going through the tokens by the next one alone finds the schema that
/// they are, or where they stop being one.
pub fn reading_finds()
    ensures finds { (ts : List TextToken) → Finds ts (schema_at ts) }
    ensures found { (ts : List TextToken) (s : Schema) → Reads ts s → schema_at ts ≡ Ok (s, []) }
{}

/// A law with no work to do: wherever the grammar has an identifier, one stands in what was read,
/// and its annotations are in the order of their keys.
pub fn identifiers_read()
    ensures { (ts : List TextToken) (s : Schema) → Reads ts s → SchemaAsRead s }
{}

/// A law with no work to do: tokens are one schema at most, places included.
pub fn one_reading()
    ensures { (ts : List TextToken) (s s' : Schema) → Reads ts s → Reads ts s' → s ≡ s' }
{}

/// A law with no work to do: tokens that are the same but for their places are schemas that are the
/// same but for theirs.
pub fn places_left_out()
    ensures { (ts us : List TextToken) (s s' : Schema) → tokens_unplaced ts ≡ tokens_unplaced us
        → Reads ts s → Reads us s' → schema_unplaced s ≡ schema_unplaced s' }
{}
