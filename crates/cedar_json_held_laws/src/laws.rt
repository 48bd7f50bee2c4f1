// SPDX-License-Identifier: Apache-2.0
ghost use Rattle.std.specs.Prelude.{ℕ, List};
ghost use Rattle.cedar_convert_fragment.specs.Views.{fragment_seen};
ghost use Rattle.cedar_fragment_world.specs.FragmentWorlds.{world_of_fragment};
ghost use Rattle.cedar_json_held_laws.specs.Readable.{IsReadable};
ghost use Rattle.cedar_json_namespaces.specs.Namespaces.{IsFragment};
ghost use Rattle.cedar_json_write.specs.Written.{fragment_json};
ghost use Rattle.cedar_json_written_laws.specs.Unplaced.{fragment_unplaced};
ghost use Rattle.cedar_json_written_laws.specs.Writable.{WritableFragment};
ghost use Rattle.cedar_schema_error.specs.declared.action_behavior.ActionBehavior.TheVariants.{ProhibitAttributes};
ghost use Rattle.cedar_schema_json.specs.Fragments.{SoundFragment};
ghost use Rattle.cedar_schema_json.specs.JsonSchemas.{DenotesSchema, IsWellFormed};
ghost use Rattle.cedar_world.specs.Denotes.{Denotes};
ghost use Rattle.cedar_world.specs.Schemas.{Schema};

use cedar_fragment::{Fragment, RawName};
use cedar_in_order::maps_in_order;
use cedar_json_schema_laws::what_is_written_denotes_the_same;

/// The laws of writing in JSON, of a fragment that is held: its maps ascend at every depth, and where it is sound its types
/// nest no deeper than types may and its actions have no attributes. So it may be written where what is written has the
/// words to say it; what is written is well formed then, and denotes what the fragment denotes. It goes through the maps,
/// and changes nothing when it runs.
pub fn what_is_held_may_be_written(fragment: &Fragment<RawName>)
    ensures writable { (extensions : List (List ℕ))
        → IsReadable (fragment_seen fragment.now)
        → SoundFragment ProhibitAttributes extensions (fragment_seen fragment.now)
        → WritableFragment fragment.now }
    ensures well_formed { (extensions : List (List ℕ))
        → IsReadable (fragment_seen fragment.now)
        → SoundFragment ProhibitAttributes extensions (fragment_seen fragment.now)
        → IsWellFormed (IsFragment (fragment_json fragment.now)) extensions
        (fragment_unplaced fragment.now) }
    ensures denotes { (extensions : List (List ℕ)) (S : Schema)
        → IsReadable (fragment_seen fragment.now)
        → SoundFragment ProhibitAttributes extensions (fragment_seen fragment.now)
        → Denotes (world_of_fragment (fragment_seen fragment.now) extensions) S
        → DenotesSchema (IsFragment (fragment_json fragment.now)) extensions S }
{
    maps_in_order(fragment);
    what_is_written_denotes_the_same();
}
