// SPDX-License-Identifier: Apache-2.0
ghost use Rattle.std.specs.Prelude.{◌⊎◌, ℕ, List, IsUtf8};
ghost use Rattle.cedar_convert_fragment.specs.Fragments.{Fragment};
ghost use Rattle.cedar_convert_text.specs.Texts.{DeclaresText, TellsText};
ghost use Rattle.cedar_convert_text.specs.declared.parsing.CedarSchemaParseErrors.{CedarSchemaParseErrors};
ghost use Rattle.cedar_convert_warnings.specs.declared.warnings.SchemaWarning.{SchemaWarning};
ghost use Rattle.cedar_schema.specs.Texts.{DenotesSchema, IsWellFormed};
ghost use Rattle.cedar_schema.specs.of_world.Schemas.{Schema as Denoted};
ghost use Rattle.cedar_syntax.specs.Causes.{Explains};
ghost use Rattle.cedar_syntax.specs.Texts.{ReadsText};
ghost use Rattle.cedar_text_laws.specs.Refused.{IsRefused};
ghost use Rattle.cedar_tree.specs.Trees.{Schema};
ghost use Rattle.cedar_tree.specs.declared.parse_error.ParseErrors.{ParseErrors};

/// A law: each text is a schema, or there is an error that says why it is none. It does nothing when it runs.
pub fn schema_or_explained()
    ensures { (text : List ℕ) → IsUtf8 text
        → ((s : Schema) × ReadsText text s) ⊎ ((errors : ParseErrors) × Explains text errors) }
{}

/// A law: each text declares a fragment, or there are errors that say why it declares none. It does nothing when it runs.
pub fn declared_or_told()
    ensures { (text : List ℕ) (extensions : List (List ℕ)) → IsUtf8 text
        → ((F : Fragment) × (warned : List SchemaWarning) × DeclaresText text extensions F warned)
        ⊎ ((errors : CedarSchemaParseErrors) × TellsText text errors) }
{}

/// A law: each text is well formed and denotes a schema, or there is a cause why it isn't, and never both. It does nothing
/// when it runs.
pub fn denoted_or_caused()
    ensures well_formed { (text : List ℕ) (extensions : List (List ℕ)) → IsUtf8 text
        → ((F : Fragment) × (warned : List SchemaWarning) × IsWellFormed text extensions F warned)
        ⊎ IsRefused text extensions }
    ensures denoted { (text : List ℕ) (extensions : List (List ℕ)) → IsUtf8 text
        → ((S : Denoted) × (warned : List SchemaWarning) × DenotesSchema text extensions S warned)
        ⊎ IsRefused text extensions }
    ensures never_both { (text : List ℕ) (extensions : List (List ℕ)) (F : Fragment)
        → (warned : List SchemaWarning) → IsWellFormed text extensions F warned
        → IsRefused text extensions → ⊥ }
{}
