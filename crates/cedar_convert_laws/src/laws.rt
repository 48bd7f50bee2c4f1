// SPDX-License-Identifier: Apache-2.0
ghost use Rattle.std.specs.Prelude.{◌≡◌, ℕ, List, map};
ghost use Rattle.cedar_tokens.specs.Lexemes.{TextToken};
ghost use Rattle.cedar_tree.specs.Trees.{Schema, Text};
ghost use Rattle.cedar_grammar.specs.Grammar.{Reads};
ghost use Rattle.cedar_grammar.specs.Unplaced.{tokens_unplaced};
ghost use Rattle.cedar_convert_fragment.specs.Declares.{Declares};
ghost use Rattle.cedar_convert_fragment.specs.Fragments.{Fragment};
ghost use Rattle.cedar_convert_text.specs.Texts.{DeclaresText};
ghost use Rattle.cedar_convert_warnings.specs.Shadowing.{warnings};
ghost use Rattle.cedar_convert_warnings.specs.declared.warnings.SchemaWarning.{SchemaWarning};
ghost use Rattle.cedar_convert_laws.specs.Unplaced.{fragment_unplaced};
ghost use Rattle.cedar_convert_laws.specs.Warnings.{warning_unplaced, warnings_of};

/// A law with no work to do: tokens declare one fragment at most, places included.
pub fn one_fragment()
    ensures { (ts : List TextToken) (s s' : Schema) (fragment other : Fragment) → Reads ts s
        → Reads ts s'
        → Declares s fragment → Declares s' other → fragment ≡ other }
{}

/// A law with no work to do: where one of two schemas whose tokens are the same but for their places declares a fragment,
/// the other declares one, and the two are the same but for their places.
pub fn places_left_out()
    ensures { (ts us : List TextToken) (s s' : Schema) (fragment : Fragment) → tokens_unplaced ts
        ≡ tokens_unplaced us
        → Reads ts s → Reads us s' → Declares s fragment
        → (other : Fragment) × Declares s' other
        × (fragment_unplaced fragment ≡ fragment_unplaced other) }
{}

/// A law with no work to do: which warnings are given of a schema or of a text, and in which order, depends on nothing but
/// the names of the types that it declares, places aside. So texts that declare fragments which are the same but for their
/// places are given warnings that are the same but for theirs.
pub fn warnings_by_names()
    ensures schema { (extensions : List Text) (s : Schema) (fragment : Fragment)
        → Declares s fragment
        → map warning_unplaced (warnings extensions s) ≡ warnings_of extensions fragment }
    ensures text { (text : List ℕ) (extensions : List Text) (fragment : Fragment)
        → (given : List SchemaWarning) → DeclaresText text extensions fragment given
        → map warning_unplaced given ≡ warnings_of extensions fragment }
    ensures alike { (text other : List ℕ) (extensions : List Text) (fragment same : Fragment)
        → (given told : List SchemaWarning) → DeclaresText text extensions fragment given
        → DeclaresText other extensions same told
        → fragment_unplaced fragment ≡ fragment_unplaced same
        → map warning_unplaced given ≡ map warning_unplaced told }
{}
