// SPDX-License-Identifier: Apache-2.0
ghost use Rattle.std.specs.Prelude.{◌≡◌, ℕ, List, [], map, IsUtf8};
ghost use Rattle.cedar_convert_fragment.specs.Fragments.{Fragment};
ghost use Rattle.cedar_convert_fragment.specs.Views.{fragment_seen};
ghost use Rattle.cedar_schema.specs.of_convert_text.Texts.{DeclaresText};
ghost use Rattle.cedar_convert_warnings.specs.declared.warnings.SchemaWarning.{SchemaWarning};
ghost use Rattle.cedar_convert_laws.specs.Warnings.{warning_unplaced, warnings_of};
ghost use Rattle.cedar_fmt.specs.Collisions.{collisions};
ghost use Rattle.cedar_fragment.specs.ActionUids.{over_raw};
ghost use Rattle.cedar_fragment.specs.declared.definitions.Fragment as held;
ghost use Rattle.cedar_fragment_world.specs.FragmentWorlds.{world_of_fragment};
ghost use Rattle.cedar_in_order.specs.InOrder.{FragmentInOrder};
ghost use Rattle.cedar_names.specs.Extensions.{extension_words};
ghost use Rattle.cedar_names.specs.declared.extensions.Extensions.{Extensions};
ghost use Rattle.cedar_reread.specs.Placeless.{placeless};
ghost use Rattle.cedar_reread.specs.Rereading.{reread};
ghost use Rattle.cedar_reread_laws.specs.Printable.{IsPrintable};
ghost use Rattle.cedar_reread_laws.specs.Shown.{IsPrintOf};
ghost use Rattle.cedar_schema.specs.Fragments.{SoundFragment};
ghost use Rattle.cedar_schema.specs.Texts as text;
ghost use Rattle.cedar_schema_error.specs.declared.action_behavior.ActionBehavior.TheVariants.{ProhibitAttributes};
ghost use Rattle.cedar_world.specs.Denotes.{Denotes};
ghost use Rattle.cedar_world.specs.Schemas.{Schema};
ghost use Rattle.cedar_written.specs.declared.raw_name.RawName.{RawName};

use cedar_convert_laws::{places_left_out, warnings_by_names};

/// A law: each fragment has a text, whatever it says. It does nothing when it runs.
pub fn what_is_held_has_a_text()
    ensures { (F : held.Fragment RawName over_raw) → (source : List ℕ) × IsPrintOf source F }
{}

/// A law: a printable fragment has no name of a named namespace that is both an entity type and a common type, so its text
/// isn't refused. It does nothing when it runs.
pub fn what_is_printable_is_not_refused()
    ensures { (F : held.Fragment RawName over_raw) (X : Extensions)
        → IsPrintable (fragment_seen F) (extension_words X) → collisions F ≡ [] }
{}

/// A law: the text that is printed of a sound and printable fragment declares that fragment, read again: each name that
/// stood for a type of one kind is one of either kind, and what wasn't said is said to be empty. Places aside. It does
/// nothing when it runs.
pub fn what_is_printed_declares_it_again()
    ensures { (F : held.Fragment RawName over_raw) (X : Extensions) (source : List ℕ)
        → IsPrintOf source F → IsUtf8 source
        → FragmentInOrder (fragment_seen F)
        → IsPrintable (fragment_seen F) (extension_words X)
        → SoundFragment ProhibitAttributes (extension_words X) (fragment_seen F)
        → (G : Fragment) × (warned : List SchemaWarning)
        × DeclaresText source (extension_words X) G warned
        × (placeless G ≡ placeless (reread (fragment_seen F))) }
{
    places_left_out();
}

/// A law: a sound and printable fragment that is read again is sound, and denotes the schema that it denoted. It does
/// nothing when it runs.
pub fn what_is_read_again_denotes_the_same()
    ensures sound { (F : held.Fragment RawName over_raw) (X : Extensions)
        → FragmentInOrder (fragment_seen F)
        → IsPrintable (fragment_seen F) (extension_words X)
        → SoundFragment ProhibitAttributes (extension_words X) (fragment_seen F)
        → SoundFragment ProhibitAttributes (extension_words X) (reread (fragment_seen F)) }
    ensures denotes { (F : held.Fragment RawName over_raw) (X : Extensions) (S : Schema)
        → FragmentInOrder (fragment_seen F)
        → IsPrintable (fragment_seen F) (extension_words X)
        → SoundFragment ProhibitAttributes (extension_words X) (fragment_seen F)
        → Denotes (world_of_fragment (fragment_seen F) (extension_words X)) S
        → Denotes (world_of_fragment (reread (fragment_seen F)) (extension_words X)) S }
{}

/// A law: the warnings of a text that declares a fragment as it is read again are those of the fragment itself, places
/// aside. It does nothing when it runs.
pub fn what_is_read_again_is_warned_of_alike()
    ensures { (F G : Fragment) (extensions : List (List ℕ)) (source : List ℕ)
        → (given : List SchemaWarning) → DeclaresText source extensions G given
        → placeless G ≡ placeless (reread F)
        → map warning_unplaced given ≡ warnings_of extensions F }
{
    warnings_by_names();
}

/// A law: the text that is printed of a sound and printable fragment is well formed, and denotes the schema that the
/// fragment denotes. It does nothing when it runs.
pub fn what_is_printed_denotes_the_same()
    ensures well_formed { (F : held.Fragment RawName over_raw) (X : Extensions) (source : List ℕ)
        → IsPrintOf source F → IsUtf8 source
        → FragmentInOrder (fragment_seen F)
        → IsPrintable (fragment_seen F) (extension_words X)
        → SoundFragment ProhibitAttributes (extension_words X) (fragment_seen F)
        → (G : Fragment) × (warned : List SchemaWarning)
        × text.IsWellFormed source (extension_words X) G warned }
    ensures denotes { (F : held.Fragment RawName over_raw) (X : Extensions) (source : List ℕ)
        → (S : Schema) → IsPrintOf source F → IsUtf8 source
        → FragmentInOrder (fragment_seen F)
        → IsPrintable (fragment_seen F) (extension_words X)
        → SoundFragment ProhibitAttributes (extension_words X) (fragment_seen F)
        → Denotes (world_of_fragment (fragment_seen F) (extension_words X)) S
        → (warned : List SchemaWarning)
        × text.DenotesSchema source (extension_words X) S warned }
{
    places_left_out();
}
