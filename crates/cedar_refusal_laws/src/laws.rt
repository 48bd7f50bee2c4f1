// SPDX-License-Identifier: Apache-2.0
ghost use Rattle.std.specs.Prelude.{◌≡◌, ℕ, false, List, map, Option};
ghost use Rattle.std.specs.List.{flat_map};
ghost use Rattle.cedar_fragment_world.specs.of_convert_fragment.Views.{fragment_seen};
ghost use Rattle.cedar_data.specs.Firsts.{AllPass};
ghost use Rattle.cedar_fragment_world.specs.of_definitions.Structures.{definitions_of};
ghost use Rattle.cedar_fragment.specs.ActionUids.{over_raw};
ghost use Rattle.cedar_fragment.specs.declared.definitions.Fragment as held;
ghost use Rattle.cedar_fragment.specs.declared.definitions.NamespaceDefinition.{NamespaceDefinition};
ghost use Rattle.cedar_names.specs.declared.extensions.Extensions.{Extensions};
ghost use Rattle.cedar_names.specs.declared.internal_name.InternalName.{InternalName};
ghost use Rattle.cedar_names.specs.declared.name.Name.{Name};
ghost use Rattle.cedar_fragment_world.specs.of_namespace_definitions.Definitions.{AreDefinitionsOf, IsDefinitionOf};
ghost use Rattle.cedar_phases.specs.Holding.{Definition, Definitions, world_of};
ghost use Rattle.cedar_refusal_laws.specs.Kinds.{DeclareFree, HaveTheirKinds, NamespaceHasKinds};
ghost use Rattle.cedar_refusal_laws.specs.Made.{IsMade};
ghost use Rattle.cedar_refusal_laws.specs.NeverComing.{never_comes};
ghost use Rattle.cedar_refusal_laws.specs.NotOfTexts.{never_of_texts};
ghost use Rattle.cedar_schema.specs.Fragments.{FragmentCause};
ghost use Rattle.cedar_schema.specs.Texts.{TextCause};
ghost use Rattle.cedar_schema_error.specs.Refusals.{HandedIn, Refusal};
ghost use Rattle.cedar_schema_error.specs.Told.{told};
ghost use Rattle.cedar_schema_error.specs.declared.action_behavior.ActionBehavior.{ActionBehavior};
ghost use Rattle.cedar_schema_error.specs.declared.schema_error.SchemaError.{SchemaError};
ghost use Rattle.cedar_schema.specs.of_schema_errors.declared.schema_error.CedarSchemaError.TheVariants.{Schema};
ghost use Rattle.cedar_sound.specs.Sound.{Cause};
ghost use Rattle.cedar_world.specs.DefinitionViews.{namespace_in};
ghost use Rattle.cedar_world.specs.Worlds.{World, own};
ghost use Rattle.cedar_written.specs.declared.raw_name.RawName.{RawName};

/// A law: where each reference has the kind of its place, and no declared entity type and no type of a declared action has
/// `__cedar` in its name, a world is refused neither for a name with `__cedar`, nor for a common type that is none, nor for
/// entity types that aren't declared, and never by an error that no rule of schemas gives (one of JSON, or one that only a
/// caller makes). What definitions declare that stand as such never has `__cedar` there, so where they
/// have the kinds of their places they are not refused so. It does nothing when it runs.
#[tactic(auto, using(crate::proofs::RuledOut::ruled_out, crate::proofs::MadeKinds::definitions_ruled_out))]
pub fn kinds_rule_out()
    ensures worlds { (W : World) (e : Refusal) → HaveTheirKinds W.namespaces
        → DeclareFree (own W)
        → Cause W e → never_comes e ≡ false }
    ensures definitions { (fs : List Definitions) (X : Extensions) (e : Refusal)
        → HaveTheirKinds (world_of fs X).namespaces
        → Cause (world_of fs X) e → never_comes e ≡ false }
{}

/// A law: no world is refused with an error that no rule of schemas gives, such as one of closures, of JSON or of
/// expressions, or one that only a caller makes, whatever the kinds of its references. It does nothing when it runs.
#[tactic(auto, using(crate::proofs::NoCallers::never_handed_in))]
pub fn errors_of_callers()
    ensures worlds { (W : World) (e : SchemaError) → Cause W (HandedIn e) → ⊥ }
{}

/// A law: in the definition that declarations become in a namespace, and so in those that a fragment becomes, each
/// reference has the kind of its place; so no list of such definitions is refused as above. It does nothing when it runs.
#[tactic(auto, using(crate::proofs::MadeKinds::definition_kinds, crate::proofs::MadeKinds::fragment_kept, crate::proofs::MadeKinds::made_ruled_out))]
pub fn what_is_made_has_its_kinds()
    ensures definition { (ns : Option InternalName) (n : NamespaceDefinition RawName over_raw)
        → (d : Definition) → IsDefinitionOf ns n d → NamespaceHasKinds (namespace_in d) }
    ensures fragment { (F : List (Option Name × NamespaceDefinition RawName over_raw))
        → (ds : List Definition)
        → AreDefinitionsOf F ds → HaveTheirKinds (map namespace_in ds) }
    ensures resolved { (fs : List Definitions) (X : Extensions) (e : Refusal)
        → AllPass IsMade (flat_map definitions_of fs)
        → Cause (world_of fs X) e → never_comes e ≡ false }
{}

/// A law: no fragment that stands as such, and no text, is refused for a name with `__cedar`, for a common type that is
/// none, or for entity types that aren't declared, or by an error that no rule of schemas gives. It does nothing when it
/// runs.
#[tactic(auto, using(crate::proofs::FragmentsFree::held_ruled_out, crate::proofs::TextsFree::text_ruled_out))]
pub fn fragments_and_texts()
    ensures fragment { (behavior : ActionBehavior) (extensions : List (List ℕ))
        → (f : held.Fragment RawName over_raw) (e : Refusal)
        → FragmentCause behavior extensions (fragment_seen f) e → never_comes e ≡ false }
    ensures text { (text : List ℕ) (extensions : List (List ℕ)) (e : SchemaError)
        → TextCause text extensions (Schema e) → never_comes (told e) ≡ false }
{}

/// A law: no text is refused for what JSON or code alone can come to: attributes of actions, a full name that is declared
/// twice as the same kind, an open record, or an extension type that isn't known. It does nothing when it runs.
#[tactic(auto, using(crate::proofs::TextsAlone::text_alone))]
pub fn texts_alone()
    ensures text { (text : List ℕ) (extensions : List (List ℕ)) (e : SchemaError)
        → TextCause text extensions (Schema e) → never_of_texts (told e) ≡ false }
{}
