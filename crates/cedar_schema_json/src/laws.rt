// SPDX-License-Identifier: Apache-2.0
ghost use Rattle.std.specs.Prelude.{◌≡◌, ℕ, List};
ghost use Rattle.serde_json.specs.Data.{Data};
ghost use Rattle.cedar_fragment.specs.ActionUids.{over_raw};
ghost use Rattle.cedar_fragment.specs.declared.definitions.Fragment.{Fragment};
ghost use Rattle.cedar_json.specs.TextFaults.{IsFragmentText, advised_fault};
ghost use Rattle.cedar_json_laws.specs.of_json_namespaces.Namespaces.{IsFragment, fragment_fault};
ghost use Rattle.cedar_schema_error.specs.Told.{told};
ghost use Rattle.cedar_schema_error.specs.declared.schema_error.SchemaError.{SchemaError};
ghost use Rattle.cedar_schema_json.specs.JsonSchemas.{DenotesSchema, IsWellFormed, JsonCause};
ghost use Rattle.cedar_schema.specs.of_world.Schemas.{Schema};
ghost use Rattle.cedar_written.specs.declared.raw_name.RawName.{RawName};

/// A law: a value or a text that is well formed as a schema in JSON is not refused. It does nothing when it runs.
pub fn well_formed_json_or_refused()
    ensures value { (d : Data) (extensions : List (List ℕ)) (F : Fragment RawName over_raw)
        (e : SchemaError)
        → IsWellFormed (IsFragment d) extensions F
        → JsonCause (IsFragment d) (fragment_fault d) extensions e → ⊥ }
    ensures text { (text : List ℕ) (extensions : List (List ℕ)) (F : Fragment RawName over_raw)
        (e : SchemaError)
        → IsWellFormed (IsFragmentText text) extensions F
        → JsonCause (IsFragmentText text) (advised_fault text) extensions e → ⊥ }
{}

/// A law: the errors with which a value or a text is refused tell the same. It does nothing when it runs.
pub fn one_json_cause()
    ensures value { (d : Data) (extensions : List (List ℕ)) (e e' : SchemaError)
        → JsonCause (IsFragment d) (fragment_fault d) extensions e
        → JsonCause (IsFragment d) (fragment_fault d) extensions e' → told e ≡ told e' }
    ensures text { (text : List ℕ) (extensions : List (List ℕ)) (e e' : SchemaError)
        → JsonCause (IsFragmentText text) (advised_fault text) extensions e
        → JsonCause (IsFragmentText text) (advised_fault text) extensions e' → told e ≡ told e' }
{}

/// A law: a value or a text denotes one schema at most. It does nothing when it runs.
pub fn one_json_schema()
    ensures value { (d : Data) (extensions : List (List ℕ)) (S T : Schema)
        → DenotesSchema (IsFragment d) extensions S → DenotesSchema (IsFragment d) extensions T
        → S ≡ T }
    ensures text { (text : List ℕ) (extensions : List (List ℕ)) (S T : Schema)
        → DenotesSchema (IsFragmentText text) extensions S
        → DenotesSchema (IsFragmentText text) extensions T → S ≡ T }
{}

/// A law: a value or a text that is well formed as a schema in JSON denotes a schema. It does nothing when it runs.
pub fn some_json_schema()
    ensures value { (d : Data) (extensions : List (List ℕ)) (F : Fragment RawName over_raw)
        → IsWellFormed (IsFragment d) extensions F
        → (S : Schema) × DenotesSchema (IsFragment d) extensions S }
    ensures text { (text : List ℕ) (extensions : List (List ℕ)) (F : Fragment RawName over_raw)
        → IsWellFormed (IsFragmentText text) extensions F
        → (S : Schema) × DenotesSchema (IsFragmentText text) extensions S }
{}
