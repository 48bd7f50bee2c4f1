// SPDX-License-Identifier: Apache-2.0
ghost use Rattle.std.specs.Prelude.{◌≡◌, [], true, map, IfOk};
ghost use Rattle.std.specs.List.{flat_map};
ghost use Rattle.cedar_fragment_world.specs.of_convert_fragment.Views.{definition_seen, fragment_seen};
ghost use Rattle.cedar_data.specs.Answers.{IfRefused};
ghost use Rattle.cedar_data.specs.Firsts.{IsFirst};
ghost use Rattle.cedar_fragment_world.specs.of_definitions.Structures.{definitions_of};
ghost use Rattle.cedar_fragment_world.specs.FragmentFaults.{fragment_faults};
ghost use Rattle.cedar_fragment_world.specs.FragmentWorlds.{namespaces_of, world_of_fragment};
ghost use Rattle.cedar_fragment_world.specs.of_namespace_definitions.Definitions.{AreDefinitionsOf};
ghost use Rattle.cedar_names.specs.Extensions.{extension_words};
ghost use Rattle.cedar_phases.specs.Holding.{world_of};
ghost use Rattle.cedar_phases.specs.Places.{IsPlaced};
ghost use Rattle.cedar_phases.specs.SchemaViews.{IsConsistent, schema_in};
ghost use Rattle.cedar_schema.specs.DeclaredPlaces.{places_of};
ghost use Rattle.cedar_phases.specs.Kept.{is_missing, tells_declared};
ghost use Rattle.cedar_schema.specs.Kept.{KeepsDeclarationsOf, KeepsReferencesOf};
ghost use Rattle.cedar_schema.specs.Fragments.{FragmentCause, SoundFragment, all_extensions, unnamed};
ghost use Rattle.cedar_schema_error.specs.Told.{told};
ghost use Rattle.cedar_schema_error.specs.declared.action_behavior.ActionBehavior.TheVariants.{ProhibitAttributes};
ghost use Rattle.cedar_fragment_world.specs.of_world.DefinitionViews.{namespace_in};
ghost use Rattle.cedar_fragment_world.specs.of_world.Denotes.{Denotes};

use cedar_data::{Map, Mem, Out};
use cedar_fragment::{ConditionalName, Fragment, NamespaceDefinition, RawName};
use cedar_fragment_world::{FromSchemaFragment, ValidatorSchemaFragment};
use cedar_names::Extensions;
use cedar_phases::{FromSchemaFragments, ValidatorSchema};
use cedar_schema_error::{ActionBehavior, SchemaError};
use std::alloc::Global;

/// What a fragment denotes. One in which an action has attributes is refused.
pub trait FromFragment: Sized {
    /// What the fragment denotes, with all extension types that there are. Refused with the first
    /// fault of its definitions, or else with what is wrong with their world. Each entity type and
    /// each action has the place that the fragment has for it.
    fn from_fragment(alloc: Global, fragment: Fragment<RawName>) -> Out<Self, SchemaError>;

    /// What the fragment denotes with these extension types, and else as `from_fragment`.
    fn from_fragment_with(
        alloc: Global,
        fragment: Fragment<RawName>,
        extensions: &Extensions,
    ) -> Out<Self, SchemaError>;

    /// What the fragment of one namespace denotes, which has no name and declares this; refused as
    /// `from_fragment` refuses it.
    fn from_namespace_definition(
        alloc: Global,
        namespace_def: NamespaceDefinition<RawName>,
    ) -> Out<Self, SchemaError>;
}

/// The definitions of a fragment; refused with their first fault.
fn define(
    alloc: Global,
    fragment: Fragment<RawName>,
    extensions: &Extensions,
) -> Out<ValidatorSchemaFragment<ConditionalName, ConditionalName>, SchemaError>
    ensures namespaces { IfOk result (λ made. map namespace_in (definitions_of made)
        ≡ namespaces_of (fragment_seen fragment)) }
    ensures definitions { IfOk result (λ made.
        AreDefinitionsOf fragment.0 (definitions_of made)) }
    ensures faultless { IfOk result (λ _.
        fragment_faults ProhibitAttributes (fragment_seen fragment) ≡ []) }
    ensures refused { IfRefused result (λ e.
        IsFirst (fragment_faults ProhibitAttributes (fragment_seen fragment)) (told e)) }
{
    ValidatorSchemaFragment::from_schema_fragment(
        alloc,
        fragment,
        ActionBehavior::ProhibitAttributes,
        extensions,
    )
}

/// The definitions of a fragment, alone in a list; refused with their first fault.
fn define_alone(
    alloc: Global,
    fragment: Fragment<RawName>,
    extensions: &Extensions,
) -> Out<Vec<ValidatorSchemaFragment<ConditionalName, ConditionalName>>, SchemaError>
    ensures world { IfOk result (λ made. world_of made.items extensions.now
        ≡ world_of_fragment (fragment_seen fragment) (extension_words extensions.now)) }
    ensures definitions { IfOk result (λ made.
        AreDefinitionsOf fragment.0 (flat_map definitions_of made.items)) }
    ensures faultless { IfOk result (λ _.
        fragment_faults ProhibitAttributes (fragment_seen fragment) ≡ []) }
    ensures refused { IfRefused result (λ e.
        IsFirst (fragment_faults ProhibitAttributes (fragment_seen fragment)) (told e)) }
{
    let definitions = define(alloc, fragment, extensions)?;
    let mut alone = Vec::new(alloc);
    alone.push(definitions)?;
    Ok(alone)
}

/// The fragment of one namespace, which has no name.
fn unnamed(alloc: Global, namespace_def: NamespaceDefinition<RawName>) -> Mem<Fragment<RawName>>
    ensures { IfOk result (λ fragment. fragment_seen fragment
        ≡ unnamed (definition_seen namespace_def)) }
{
    let mut namespaces = Map::new(alloc);
    namespaces.put(None, namespace_def)?;
    Ok(Fragment(namespaces))
}

impl FromFragment for ValidatorSchema {
    fn from_fragment(
        alloc: Global,
        fragment: Fragment<RawName>,
    ) -> Out<ValidatorSchema, SchemaError>
        ensures sound { IfOk result (λ _.
            SoundFragment ProhibitAttributes all_extensions (fragment_seen fragment)) }
        ensures denotes { IfOk result (λ schema.
            Denotes (world_of_fragment (fragment_seen fragment) all_extensions)
            (schema_in schema)) }
        ensures consistent { IfOk result IsConsistent }
        ensures placed { IfOk result (IsPlaced (places_of (fragment_seen fragment))) }
        ensures refused { IfRefused result (λ e.
            FragmentCause ProhibitAttributes all_extensions (fragment_seen fragment) (told e)) }
        // Of references that mean nothing, those of the fragment are kept, places and all.
        ensures kept { IfRefused result (λ e. is_missing (told e) ≡ true
            → KeepsReferencesOf all_extensions fragment e) }
        // Names that shadow, are declared twice or stand on a cycle are kept as the fragment declares them, places and all.
        ensures as_declared { IfRefused result (λ e. tells_declared (told e) ≡ true
            → KeepsDeclarationsOf all_extensions fragment e) }
    {
        let extensions = Extensions::all_available(alloc)?;
        ValidatorSchema::from_fragment_with(alloc, fragment, &extensions)
    }

    fn from_fragment_with(
        alloc: Global,
        fragment: Fragment<RawName>,
        extensions: &Extensions,
    ) -> Out<ValidatorSchema, SchemaError>
        ensures sound { IfOk result (λ _. SoundFragment ProhibitAttributes
            (extension_words extensions.now) (fragment_seen fragment)) }
        ensures denotes { IfOk result (λ schema.
            Denotes (world_of_fragment (fragment_seen fragment) (extension_words extensions.now))
            (schema_in schema)) }
        ensures consistent { IfOk result IsConsistent }
        ensures placed { IfOk result (IsPlaced (places_of (fragment_seen fragment))) }
        ensures refused { IfRefused result (λ e. FragmentCause ProhibitAttributes
            (extension_words extensions.now) (fragment_seen fragment) (told e)) }
        ensures kept { IfRefused result (λ e. is_missing (told e) ≡ true
            → KeepsReferencesOf (extension_words extensions.now) fragment e) }
        ensures as_declared { IfRefused result (λ e. tells_declared (told e) ≡ true
            → KeepsDeclarationsOf (extension_words extensions.now) fragment e) }
    {
        match define_alone(alloc, fragment, extensions) {
            Ok(definitions) => {
                ValidatorSchema::from_schema_fragments(alloc, definitions, extensions)
            }
            Err(failure) => Err(failure),
        }
    }

    fn from_namespace_definition(
        alloc: Global,
        namespace_def: NamespaceDefinition<RawName>,
    ) -> Out<ValidatorSchema, SchemaError>
        ensures sound { IfOk result (λ _. SoundFragment ProhibitAttributes all_extensions
            (unnamed (definition_seen namespace_def))) }
        ensures denotes { IfOk result (λ schema.
            Denotes (world_of_fragment (unnamed (definition_seen namespace_def)) all_extensions)
            (schema_in schema)) }
        ensures consistent { IfOk result IsConsistent }
        ensures placed { IfOk result
            (IsPlaced (places_of (unnamed (definition_seen namespace_def)))) }
        ensures refused { IfRefused result (λ e. FragmentCause ProhibitAttributes all_extensions
            (unnamed (definition_seen namespace_def)) (told e)) }
    {
        let fragment = unnamed(alloc, namespace_def)?;
        ValidatorSchema::from_fragment(alloc, fragment)
    }
}
