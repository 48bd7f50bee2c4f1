// SPDX-License-Identifier: Apache-2.0
ghost use Rattle.std.specs.Prelude.{◌≤◌, ◌+◌, ℕ, List, All};
ghost use Rattle.cedar_grammar.specs.Grammar.{OpensAtMost, Reads};
ghost use Rattle.cedar_syntax.specs.Texts.{HasTokens, ReadsText, open_at_most};
ghost use Rattle.cedar_tokens.specs.Lexemes.{TextToken};
ghost use Rattle.cedar_tree.specs.Nesting.{NestsWell, nest, outermost_types};
ghost use Rattle.cedar_tree.specs.Trees.{Schema};

/// A law: in tokens that are a schema, at most two brackets more are open at a time than its types nest: those of a
/// namespace, and those of what an action applies to. So at most 130 are, where the types nest well. It does nothing when
/// it runs.
pub fn few_brackets_open()
    ensures any { (k : ℕ) (tokens : List TextToken) (s : Schema) → Reads tokens s
        → All (λ ty. nest ty.node ≤ k) (outermost_types s) → OpensAtMost (k + 2) tokens }
    ensures well { (tokens : List TextToken) (s : Schema) → Reads tokens s → NestsWell s
        → OpensAtMost open_at_most tokens }
{}

/// A law: a text is a schema where its tokens are one whose types nest well. Nothing is asked of brackets. It does nothing
/// when it runs.
pub fn tokens_make_a_text()
    ensures { (text : List ℕ) (tokens : List TextToken) (s : Schema) → HasTokens text tokens
        → Reads tokens s → NestsWell s → ReadsText text s }
{}
