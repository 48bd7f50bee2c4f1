// SPDX-License-Identifier: Apache-2.0
ghost use Rattle.std.specs.Prelude.{◌≡◌, ℕ, List};
ghost use Rattle.cedar_convert_warnings.specs.declared.warnings.SchemaWarning.{SchemaWarning};
ghost use Rattle.cedar_listing.specs.Counts.{counts};
ghost use Rattle.cedar_listing.specs.Listing.{listing};
ghost use Rattle.cedar_listing_laws.specs.PlainListing.{plain_counts, plain_listing};
ghost use Rattle.cedar_resolved.specs.declared.schema.ValidatorSchema.{ValidatorSchema};
ghost use Rattle.cedar_schema.specs.SchemaViews.{IsConsistent, schema_in};
ghost use Rattle.cedar_schema.specs.Texts.{DenotesSchema, TellSame, TextCause};
ghost use Rattle.cedar_schema_errors.specs.ErrorTexts.{error_help, error_text};
ghost use Rattle.cedar_schema_errors.specs.declared.schema_error.CedarSchemaError.{CedarSchemaError};

/// A law: what is listed and counted of a schema is what is listed and counted of the plain schema that it is, so the
/// places that it keeps say nothing there. It does nothing when it runs.
#[tactic(auto, using(crate::proofs::Lines::listing_plain, crate::proofs::Lines::counts_plain))]
pub fn plain_data_is_listed()
    ensures listing { (S : ValidatorSchema) → IsConsistent S
        → (ws : List SchemaWarning) → listing S ws ≡ plain_listing (schema_in S) ws }
    ensures counts { (S : ValidatorSchema)
        (ws : List SchemaWarning) → counts S ws ≡ plain_counts (schema_in S) ws }
{}

/// A law: of schemas that are the same plain schema the same is listed and counted. It does nothing when it runs.
#[tactic(auto, using(crate::proofs::Lines::one_listing, crate::proofs::Lines::one_counts))]
pub fn one_listing()
    ensures listing { (S T : ValidatorSchema) → IsConsistent S → IsConsistent T
        → schema_in S ≡ schema_in T
        → (ws : List SchemaWarning) → listing S ws ≡ listing T ws }
    ensures counts { (S T : ValidatorSchema) → schema_in S ≡ schema_in T
        → (ws : List SchemaWarning) → counts S ws ≡ counts T ws }
{}

/// A law: what is listed and counted of the schema that a text denotes, with its warnings, is one text. It does nothing
/// when it runs.
pub fn one_answer()
    ensures listing { (text : List ℕ) (extensions : List (List ℕ)) (S T : ValidatorSchema)
        (ws vs : List SchemaWarning) → IsConsistent S → IsConsistent T
        → DenotesSchema text extensions (schema_in S) ws
        → DenotesSchema text extensions (schema_in T) vs → listing S ws ≡ listing T vs }
    ensures counts { (text : List ℕ) (extensions : List (List ℕ)) (S T : ValidatorSchema)
        (ws vs : List SchemaWarning) → IsConsistent S → IsConsistent T
        → DenotesSchema text extensions (schema_in S) ws
        → DenotesSchema text extensions (schema_in T) vs → counts S ws ≡ counts T vs }
{}

/// A law: of errors that tell the same the same is said, with the same help, whatever their places; so of all errors
/// that say why a text denotes no schema. It does nothing when it runs.
pub fn one_refusal_text()
    ensures errors { (e e' : CedarSchemaError) → TellSame e e'
        → (error_text e ≡ error_text e') × (error_help e ≡ error_help e') }
    ensures text { (text : List ℕ) (extensions : List (List ℕ)) (e e' : CedarSchemaError)
        → TextCause text extensions e → TextCause text extensions e'
        → (error_text e ≡ error_text e') × (error_help e ≡ error_help e') }
{}
