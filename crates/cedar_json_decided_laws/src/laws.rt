// SPDX-License-Identifier: Apache-2.0
ghost use Rattle.std.specs.Prelude.{◌⊎◌, ◌↔◌, ℕ, List};
ghost use Rattle.serde_json.specs.Data.{Data};
ghost use Rattle.cedar_fragment.specs.ActionUids.{over_raw};
ghost use Rattle.cedar_fragment.specs.declared.definitions.Fragment.{Fragment};
ghost use Rattle.cedar_json.specs.TextFaults.{IsFragmentText, advised_fault};
ghost use Rattle.cedar_json_decided_laws.specs.JsonRefusals.{JsonRefusal};
ghost use Rattle.cedar_json_namespaces.specs.Namespaces.{IsFragment, fragment_fault};
ghost use Rattle.cedar_schema_error.specs.Refusals.{Refusal};
ghost use Rattle.cedar_schema_error.specs.Told.{told};
ghost use Rattle.cedar_schema_error.specs.declared.schema_error.SchemaError.{SchemaError};
ghost use Rattle.cedar_schema_json.specs.JsonSchemas.{IsWellFormed, JsonCause};
ghost use Rattle.cedar_written.specs.declared.raw_name.RawName.{RawName};

/// A law: each value, and each text, is well formed as a schema in JSON, or there is a refusal of it: its first fault, or
/// why the fragment whose shape it has is not sound. It does nothing when it runs.
pub fn well_formed_json_or_caused()
    ensures value { (d : Data) (extensions : List (List ℕ))
        → ((F : Fragment RawName over_raw) × IsWellFormed (IsFragment d) extensions F)
        ⊎ ((r : Refusal) × JsonRefusal (IsFragment d) (fragment_fault d) extensions r) }
    ensures text { (text : List ℕ) (extensions : List (List ℕ))
        → ((F : Fragment RawName over_raw) × IsWellFormed (IsFragmentText text) extensions F)
        ⊎ ((r : Refusal) × JsonRefusal (IsFragmentText text) (advised_fault text) extensions r) }
{}

/// A law: what an error tells is a refusal of a value or a text exactly where the error is a cause to refuse it. It does
/// nothing when it runs.
pub fn refusals_told_are_causes()
    ensures value { (d : Data) (extensions : List (List ℕ)) (e : SchemaError)
        → JsonRefusal (IsFragment d) (fragment_fault d) extensions (told e)
        ↔ JsonCause (IsFragment d) (fragment_fault d) extensions e }
    ensures text { (text : List ℕ) (extensions : List (List ℕ)) (e : SchemaError)
        → JsonRefusal (IsFragmentText text) (advised_fault text) extensions (told e)
        ↔ JsonCause (IsFragmentText text) (advised_fault text) extensions e }
{}
