// SPDX-License-Identifier: Apache-2.0
ghost use Rattle.std.specs.Prelude.{◌≡◌, true, List, IfOk};
ghost use Rattle.cedar_fragment_world.specs.of_convert_fragment.Fragments.{Fragment as Declared};
ghost use Rattle.cedar_fragment_world.specs.of_convert_fragment.Views.{fragment_seen};
ghost use Rattle.cedar_schema_errors.specs.of_convert_text.Texts.{DeclaresText};
ghost use Rattle.cedar_schema_errors.specs.of_convert_warnings.declared.warnings.SchemaWarning.{SchemaWarning as Warning};
ghost use Rattle.cedar_data.specs.Answers.{Accepts, IfRefused};
ghost use Rattle.cedar_fragment_world.specs.FragmentWorlds.{world_of_fragment};
ghost use Rattle.cedar_names.specs.Extensions.{extension_words};
ghost use Rattle.cedar_phases.specs.Places.{IsPlaced};
ghost use Rattle.cedar_phases.specs.SchemaViews.{IsConsistent, schema_in};
ghost use Rattle.cedar_schema.specs.DeclaredPlaces.{IsPlacedBy, places_of};
ghost use Rattle.cedar_schema.specs.Fragments.{SoundFragment, all_extensions};
ghost use Rattle.cedar_schema.specs.Kept.{KeepsDeclarationsOf, KeepsDeclarationsOfText, KeepsReferencesOf, KeepsReferencesOfText};
ghost use Rattle.cedar_schema_error.specs.declared.schema_error.SchemaError.{SchemaError};
ghost use Rattle.cedar_schema_errors.specs.declared.schema_error.CedarSchemaError.TheVariants.{Schema};
ghost use Rattle.cedar_phases.specs.Kept.{is_missing, tells_declared};
ghost use Rattle.cedar_schema_error.specs.Told.{told};
ghost use Rattle.cedar_schema.specs.Texts.{DenotesSchema, IsWellFormed, ParsingCause, SchemaCause, TextCause};
ghost use Rattle.cedar_schema_error.specs.declared.action_behavior.ActionBehavior.TheVariants.{ProhibitAttributes};
ghost use Rattle.cedar_fragment_world.specs.of_world.Denotes.{Denotes};

use crate::fragments::FromFragment;
use cedar_data::{Failure, Out};
use cedar_fragment::{Fragment, RawName};
use cedar_names::Extensions;
use cedar_phases::ValidatorSchema;
use cedar_schema_errors::{
    CedarSchemaError, CedarSchemaParseError, SchemaWarning, parse_cedar_schema_fragment,
};
use std::alloc::Global;

/// What a text in the human syntax declares.
pub trait FragmentText: Sized {
    /// What the text declares, and the warnings of its names. Refused with why it declares nothing.
    fn from_cedarschema_str(
        alloc: Global,
        src: &str,
        extensions: &Extensions,
    ) -> Out<(Self, Vec<SchemaWarning>), CedarSchemaError>;
}

/// What a text in the human syntax denotes.
pub trait FromCedarSchema: Sized {
    /// What the text denotes with these extension types, and the warnings of its names. Refused
    /// with why it declares nothing, or else with why what it declares is not sound. Each entity
    /// type and each action has the place of its declaration.
    fn from_cedarschema_str(
        alloc: Global,
        src: &str,
        extensions: &Extensions,
    ) -> Out<(Self, Vec<SchemaWarning>), CedarSchemaError>;

    /// What the text denotes with all extension types that there are, without its warnings; refused
    /// as `from_cedarschema_str` refuses it.
    fn parse(alloc: Global, src: &str) -> Out<Self, CedarSchemaError>;
}

impl FragmentText for Fragment<RawName> {
    fn from_cedarschema_str(
        alloc: Global,
        src: &str,
        extensions: &Extensions,
    ) -> Out<(Fragment<RawName>, Vec<SchemaWarning>), CedarSchemaError>
        ensures declares { IfOk result
            (λ made. DeclaresText src.now (extension_words extensions.now)
            (fragment_seen made.0) made.1.items) }
        ensures refused { IfRefused result (ParsingCause src.now) }
        ensures accepts { (F : Declared) (warned : List Warning)
            → DeclaresText src.now (extension_words extensions.now) F warned
            → Accepts (λ made. (fragment_seen made.0 ≡ F) × (made.1.items ≡ warned)) result }
    {
        match parse_cedar_schema_fragment(alloc, src, extensions) {
            Ok(made) => Ok(made),
            Err(Failure::Refused(errors)) => {
                let error = CedarSchemaParseError::new(errors, src);
                Err(Failure::Refused(CedarSchemaError::Parsing(error)))
            }
            Err(Failure::NoMemory) => Err(Failure::NoMemory),
        }
    }
}

/// The schema that a fragment denotes, with the warnings that are given. Refused with why the
/// fragment is not sound.
fn with_schema(
    alloc: Global,
    declared: (Fragment<RawName>, Vec<SchemaWarning>),
    extensions: &Extensions,
) -> Out<(ValidatorSchema, Vec<SchemaWarning>), CedarSchemaError>
    ensures sound { IfOk result (λ _. SoundFragment ProhibitAttributes
        (extension_words extensions.now) (fragment_seen declared.0)) }
    ensures denotes { IfOk result (λ made.
        Denotes (world_of_fragment (fragment_seen declared.0) (extension_words extensions.now))
        (schema_in made.0)) }
    ensures warnings { IfOk result (λ made. made.1.items ≡ declared.1.items) }
    ensures consistent { IfOk result (λ made. IsConsistent made.0) }
    ensures placed { IfOk result
        (λ made. IsPlaced (places_of (fragment_seen declared.0)) made.0) }
    ensures refused { IfRefused result
        (SchemaCause (extension_words extensions.now) (fragment_seen declared.0)) }
    ensures kept { IfRefused result (λ error. (e : SchemaError) → error ≡ Schema e
        → is_missing (told e) ≡ true
        → KeepsReferencesOf (extension_words extensions.now) declared.0 e) }
    ensures as_declared { IfRefused result (λ error. (e : SchemaError) → error ≡ Schema e
        → tells_declared (told e) ≡ true
        → KeepsDeclarationsOf (extension_words extensions.now) declared.0 e) }
{
    let (fragment, warnings) = declared;
    match ValidatorSchema::from_fragment_with(alloc, fragment, extensions) {
        Ok(schema) => Ok((schema, warnings)),
        Err(Failure::Refused(error)) => Err(Failure::Refused(CedarSchemaError::Schema(error))),
        Err(Failure::NoMemory) => Err(Failure::NoMemory),
    }
}

impl FromCedarSchema for ValidatorSchema {
    fn from_cedarschema_str(
        alloc: Global,
        src: &str,
        extensions: &Extensions,
    ) -> Out<(ValidatorSchema, Vec<SchemaWarning>), CedarSchemaError>
        ensures denotes { IfOk result (λ made.
            DenotesSchema src.now (extension_words extensions.now)
            (schema_in made.0) made.1.items) }
        ensures consistent { IfOk result (λ made. IsConsistent made.0) }
        ensures placed { IfOk result (λ made.
            IsPlacedBy src.now (extension_words extensions.now) made.0) }
        ensures refused { IfRefused result (TextCause src.now (extension_words extensions.now)) }
        // Of references that mean nothing, those of the text are kept, places and all.
        ensures kept { IfRefused result
            (KeepsReferencesOfText src.now (extension_words extensions.now)) }
        // Types and actions that are declared are kept as the text declares them, places and all.
        ensures as_declared { IfRefused result
            (KeepsDeclarationsOfText src.now (extension_words extensions.now)) }
        ensures accepts { (F : Declared) (warned : List Warning)
            → IsWellFormed src.now (extension_words extensions.now) F warned
            → Accepts (λ made. Denotes (world_of_fragment F (extension_words extensions.now))
            (schema_in made.0) × (made.1.items ≡ warned)) result }
    {
        match Fragment::from_cedarschema_str(alloc, src, extensions) {
            Ok(declared) => with_schema(alloc, declared, extensions),
            Err(failure) => Err(failure),
        }
    }

    fn parse(alloc: Global, src: &str) -> Out<ValidatorSchema, CedarSchemaError>
        ensures denotes { IfOk result (λ schema. (warned : List Warning)
            × DenotesSchema src.now all_extensions (schema_in schema) warned) }
        ensures consistent { IfOk result IsConsistent }
        ensures placed { IfOk result (IsPlacedBy src.now all_extensions) }
        ensures refused { IfRefused result (TextCause src.now all_extensions) }
        ensures kept { IfRefused result (KeepsReferencesOfText src.now all_extensions) }
        ensures as_declared { IfRefused result (KeepsDeclarationsOfText src.now all_extensions) }
        ensures accepts { (F : Declared) (warned : List Warning)
            → IsWellFormed src.now all_extensions F warned
            → Accepts (λ schema. Denotes (world_of_fragment F all_extensions) (schema_in schema))
            result }
    {
        let extensions = Extensions::all_available(alloc)?;
        match ValidatorSchema::from_cedarschema_str(alloc, src, &extensions) {
            Ok((schema, _)) => Ok(schema),
            Err(failure) => Err(failure),
        }
    }
}
