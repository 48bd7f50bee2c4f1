// SPDX-License-Identifier: Apache-2.0
ghost use Rattle.std.specs.Prelude.{◌≡◌, ℕ, List, [], map, IsUtf8};
ghost use Rattle.cedar_convert_fragment.specs.Fragments as tree;
ghost use Rattle.cedar_convert_fragment.specs.Views.{fragment_seen};
ghost use Rattle.cedar_schema.specs.of_convert_text.Texts.{DeclaresText};
ghost use Rattle.cedar_convert_warnings.specs.declared.warnings.SchemaWarning.{SchemaWarning};
ghost use Rattle.cedar_convert_laws.specs.Warnings.{warning_unplaced, warnings_of};
ghost use Rattle.cedar_fmt.specs.Collisions.{collisions};
ghost use Rattle.cedar_fragment_world.specs.FragmentWorlds.{world_of_fragment};
ghost use Rattle.cedar_names.specs.Extensions.{extension_words};
ghost use Rattle.cedar_names.specs.declared.extensions.Extensions.{Extensions};
ghost use Rattle.cedar_reread.specs.Placeless.{placeless};
ghost use Rattle.cedar_reread.specs.Rereading.{reread};
ghost use Rattle.cedar_reread_laws.specs.Printable.{IsPrintable};
ghost use Rattle.cedar_reread_laws.specs.Shown.{IsPrintOf};
ghost use Rattle.cedar_schema.specs.Fragments.{SoundFragment};
ghost use Rattle.cedar_schema.specs.Texts as text;
ghost use Rattle.cedar_schema_error.specs.declared.action_behavior.ActionBehavior.TheVariants.{ProhibitAttributes};
ghost use Rattle.cedar_world.specs.Denotes.{Denotes};
ghost use Rattle.cedar_world.specs.Schemas.{Schema};

use crate::laws::{
    what_is_held_has_a_text, what_is_printable_is_not_refused, what_is_printed_declares_it_again,
    what_is_printed_denotes_the_same, what_is_read_again_denotes_the_same,
    what_is_read_again_is_warned_of_alike,
};
use cedar_fragment::{Fragment, RawName};
use cedar_in_order::maps_in_order;

/// The laws of printing and reading again, of a fragment that is held: its maps ascend at every depth, so nothing is asked
/// of their order. It has a text, which is what the printer writes where it refuses nothing. A printable fragment isn't
/// refused; where it is sound too, its text declares it as it is read again, which has the same warnings, is sound and
/// denotes the same; so the text is well formed and denotes what the fragment denotes. It goes through the maps, and
/// changes nothing when it runs.
pub fn printed_and_read_again(fragment: &Fragment<RawName>)
    ensures shown { (source : List ℕ) × IsPrintOf source fragment.now }
    ensures not_refused { (X : Extensions)
        → IsPrintable (fragment_seen fragment.now) (extension_words X)
        → collisions fragment.now ≡ [] }
    ensures declares { (X : Extensions) (source : List ℕ)
        → IsPrintOf source fragment.now → IsUtf8 source
        → IsPrintable (fragment_seen fragment.now) (extension_words X)
        → SoundFragment ProhibitAttributes (extension_words X) (fragment_seen fragment.now)
        → (G : tree.Fragment) × (warned : List SchemaWarning)
        × DeclaresText source (extension_words X) G warned
        × (placeless G ≡ placeless (reread (fragment_seen fragment.now))) }
    ensures warned { (extensions : List (List ℕ)) (source : List ℕ) (G : tree.Fragment)
        → (given : List SchemaWarning) → DeclaresText source extensions G given
        → placeless G ≡ placeless (reread (fragment_seen fragment.now))
        → map warning_unplaced given ≡ warnings_of extensions (fragment_seen fragment.now) }
    ensures reread_sound { (X : Extensions)
        → IsPrintable (fragment_seen fragment.now) (extension_words X)
        → SoundFragment ProhibitAttributes (extension_words X) (fragment_seen fragment.now)
        → SoundFragment ProhibitAttributes (extension_words X)
        (reread (fragment_seen fragment.now)) }
    ensures reread_denotes { (X : Extensions) (S : Schema)
        → IsPrintable (fragment_seen fragment.now) (extension_words X)
        → SoundFragment ProhibitAttributes (extension_words X) (fragment_seen fragment.now)
        → Denotes (world_of_fragment (fragment_seen fragment.now) (extension_words X)) S
        → Denotes (world_of_fragment (reread (fragment_seen fragment.now)) (extension_words X)) S }
    ensures well_formed { (X : Extensions) (source : List ℕ)
        → IsPrintOf source fragment.now → IsUtf8 source
        → IsPrintable (fragment_seen fragment.now) (extension_words X)
        → SoundFragment ProhibitAttributes (extension_words X) (fragment_seen fragment.now)
        → (G : tree.Fragment) × (warned : List SchemaWarning)
        × text.IsWellFormed source (extension_words X) G warned }
    ensures denotes { (X : Extensions) (source : List ℕ) (S : Schema)
        → IsPrintOf source fragment.now → IsUtf8 source
        → IsPrintable (fragment_seen fragment.now) (extension_words X)
        → SoundFragment ProhibitAttributes (extension_words X) (fragment_seen fragment.now)
        → Denotes (world_of_fragment (fragment_seen fragment.now) (extension_words X)) S
        → (warned : List SchemaWarning)
        × text.DenotesSchema source (extension_words X) S warned }
{
    maps_in_order(fragment);
    what_is_held_has_a_text();
    what_is_printable_is_not_refused();
    what_is_printed_declares_it_again();
    what_is_read_again_denotes_the_same();
    what_is_printed_denotes_the_same();
    what_is_read_again_is_warned_of_alike();
}
