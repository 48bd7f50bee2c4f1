// SPDX-License-Identifier: Apache-2.0
ghost use Rattle.std.specs.Prelude.{◌≡◌, ℕ, List};
ghost use Rattle.cedar_fragment_world.specs.of_convert_fragment.Fragments.{Fragment};
ghost use Rattle.cedar_schema_errors.specs.of_convert_text.Texts.{DeclaresText, TellsText};
ghost use Rattle.cedar_schema_errors.specs.of_convert_text.declared.parsing.CedarSchemaParseErrors.{CedarSchemaParseErrors};
ghost use Rattle.cedar_schema_errors.specs.of_convert_warnings.declared.warnings.SchemaWarning.{SchemaWarning};
ghost use Rattle.cedar_schema.specs.Fragments.{FragmentCause, SoundFragment};
ghost use Rattle.cedar_schema.specs.Texts.{DenotesSchema, IsWellFormed, TellSame, TextCause};
ghost use Rattle.cedar_schema_error.specs.Refusals.{Refusal};
ghost use Rattle.cedar_schema_error.specs.declared.action_behavior.ActionBehavior.{ActionBehavior};
ghost use Rattle.cedar_schema_errors.specs.declared.schema_error.CedarSchemaError.{CedarSchemaError};
ghost use Rattle.cedar_fragment_world.specs.of_world.Schemas.{Schema};

/// A law: a sound fragment is not refused. It does nothing when it runs.
pub fn sound_fragment_or_refused()
    ensures { (behavior : ActionBehavior) (extensions : List (List ℕ)) (F : Fragment)
        → (e : Refusal) → SoundFragment behavior extensions F
        → FragmentCause behavior extensions F e → ⊥ }
{}

/// A law: a fragment is refused in one way at most. It does nothing when it runs.
pub fn one_fragment_cause()
    ensures { (behavior : ActionBehavior) (extensions : List (List ℕ)) (F : Fragment)
        → (e e' : Refusal) → FragmentCause behavior extensions F e
        → FragmentCause behavior extensions F e' → e ≡ e' }
{}

/// A law: a text declares one fragment at most, with one list of warnings. It does nothing when it
/// runs.
pub fn one_declared()
    ensures { (text : List ℕ) (extensions : List (List ℕ)) (F G : Fragment)
        → (fs gs : List SchemaWarning) → DeclaresText text extensions F fs
        → DeclaresText text extensions G gs → (F ≡ G) × (fs ≡ gs) }
{}

/// A law: of a text that declares a fragment no error says why it declares none. It does nothing
/// when it runs.
pub fn declared_or_not()
    ensures { (text : List ℕ) (extensions : List (List ℕ)) (F : Fragment)
        → (warned : List SchemaWarning) (e : CedarSchemaParseErrors)
        → DeclaresText text extensions F warned → TellsText text e → ⊥ }
{}

/// A law: a well formed text is not refused. It does nothing when it runs.
pub fn well_formed_or_refused()
    ensures { (text : List ℕ) (extensions : List (List ℕ)) (F : Fragment)
        → (warned : List SchemaWarning) (e : CedarSchemaError)
        → IsWellFormed text extensions F warned → TextCause text extensions e → ⊥ }
{}

/// A law: the errors with which a text may be refused tell the same. It does nothing when it runs.
pub fn one_text_cause()
    ensures { (text : List ℕ) (extensions : List (List ℕ)) (e e' : CedarSchemaError)
        → TextCause text extensions e → TextCause text extensions e' → TellSame e e' }
{}

/// A law: a text denotes one schema at most, with one list of warnings. It does nothing when it
/// runs.
pub fn one_schema_of_text()
    ensures { (text : List ℕ) (extensions : List (List ℕ)) (S T : Schema)
        → (ss ts : List SchemaWarning) → DenotesSchema text extensions S ss
        → DenotesSchema text extensions T ts → (S ≡ T) × (ss ≡ ts) }
{}

/// A law: a well formed text denotes a schema, with the warnings with which it declares its fragment. It does nothing
/// when it runs.
pub fn some_schema_of_text()
    ensures { (text : List ℕ) (extensions : List (List ℕ)) (F : Fragment)
        → (warned : List SchemaWarning) → IsWellFormed text extensions F warned
        → (S : Schema) × DenotesSchema text extensions S warned }
{}
