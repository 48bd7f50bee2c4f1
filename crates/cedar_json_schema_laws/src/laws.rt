// SPDX-License-Identifier: Apache-2.0
ghost use Rattle.std.specs.Prelude.{◌≡◌, ℕ, List};
ghost use Rattle.cedar_convert_fragment.specs.Views.{fragment_seen};
ghost use Rattle.cedar_schema_json.specs.of_convert_text.Texts.{DeclaresText};
ghost use Rattle.cedar_convert_warnings.specs.declared.warnings.SchemaWarning.{SchemaWarning};
ghost use Rattle.cedar_fragment.specs.ActionUids.{over_raw};
ghost use Rattle.cedar_fragment.specs.declared.definitions.Fragment.{Fragment};
ghost use Rattle.cedar_fragment_world.specs.FragmentFaults.{fragment_faults};
ghost use Rattle.cedar_fragment_world.specs.FragmentWorlds.{world_of_fragment};
ghost use Rattle.cedar_json_namespaces.specs.Namespaces.{IsFragment};
ghost use Rattle.cedar_json_write.specs.Written.{fragment_json};
ghost use Rattle.cedar_json_schema_laws.specs.TypeWords.{NamesNoEntityOrCommon, NamesNoWord};
ghost use Rattle.cedar_json_written_laws.specs.Unplaced.{fragment_unplaced};
ghost use Rattle.cedar_json_written_laws.specs.Writable.{WritableFragment};
ghost use Rattle.cedar_schema_json.specs.Fragments.{SoundFragment};
ghost use Rattle.cedar_schema_json.specs.Texts as text;
ghost use Rattle.cedar_schema_error.specs.declared.action_behavior.ActionBehavior.{ActionBehavior};
ghost use Rattle.cedar_schema_error.specs.declared.action_behavior.ActionBehavior.TheVariants.{ProhibitAttributes};
ghost use Rattle.cedar_schema_json.specs.JsonSchemas.{DenotesSchema, IsWellFormed};
ghost use Rattle.cedar_world.specs.Denotes.{Denotes};
ghost use Rattle.cedar_world.specs.Schemas.{Schema};
ghost use Rattle.cedar_written.specs.declared.raw_name.RawName.{RawName};

use cedar_json_written_laws::what_is_written_has_the_shape;

/// A law: a fragment has the faults that it has without its places, and denotes the same world. It does nothing when it
/// runs.
#[tactic(auto, using(crate::proofs::FaultsUnplaced::faults_alike, crate::proofs::WorldsUnplaced::world_alike))]
pub fn places_denote_nothing()
    ensures faults { (behavior : ActionBehavior) (F : Fragment RawName over_raw)
        → fragment_faults behavior (fragment_seen (fragment_unplaced F))
        ≡ fragment_faults behavior (fragment_seen F) }
    ensures world { (F : Fragment RawName over_raw) (extensions : List (List ℕ))
        → world_of_fragment (fragment_seen (fragment_unplaced F)) extensions
        ≡ world_of_fragment (fragment_seen F) extensions }
{}

/// A law: where a fragment is sound and may be written, what is written of it in JSON is well formed, and denotes what the
/// fragment denotes; so it denotes what a text denotes that declares the fragment. It does nothing when it runs.
pub fn what_is_written_denotes_the_same()
    ensures well_formed { (F : Fragment RawName over_raw) (extensions : List (List ℕ))
        → WritableFragment F
        → SoundFragment ProhibitAttributes extensions (fragment_seen F)
        → IsWellFormed (IsFragment (fragment_json F)) extensions (fragment_unplaced F) }
    ensures denotes { (F : Fragment RawName over_raw) (extensions : List (List ℕ)) (S : Schema)
        → WritableFragment F
        → SoundFragment ProhibitAttributes extensions (fragment_seen F)
        → Denotes (world_of_fragment (fragment_seen F) extensions) S
        → DenotesSchema (IsFragment (fragment_json F)) extensions S }
    ensures text { (source : List ℕ) (F : Fragment RawName over_raw) (extensions : List (List ℕ))
        (warned : List SchemaWarning) (S : Schema)
        → WritableFragment F
        → text.IsWellFormed source extensions (fragment_seen F) warned
        → text.DenotesSchema source extensions S warned
        → DenotesSchema (IsFragment (fragment_json F)) extensions S }
{
    what_is_written_has_the_shape();
}

/// A law: a fragment that a text declares may be written, where no shape and no context of it is a path that is a word of
/// types. Of a well formed text each shape and context is a record, so there the one such path to leave out is
/// `EntityOrCommon`. It does nothing when it runs.
pub fn what_a_text_declares_may_be_written()
    ensures declared { (source : List ℕ) (F : Fragment RawName over_raw)
        (extensions : List (List ℕ)) (warned : List SchemaWarning)
        → DeclaresText source extensions (fragment_seen F) warned
        → NamesNoWord (fragment_seen F)
        → WritableFragment F }
    ensures well_formed { (source : List ℕ) (F : Fragment RawName over_raw)
        (extensions : List (List ℕ)) (warned : List SchemaWarning)
        → text.IsWellFormed source extensions (fragment_seen F) warned
        → NamesNoEntityOrCommon (fragment_seen F)
        → WritableFragment F }
{}

/// A law: what is written in JSON of the fragment of a well formed text denotes what the text denotes, where no shape and
/// no context is the path `EntityOrCommon`. It does nothing when it runs.
pub fn what_a_text_declares_is_written_and_denotes_the_same()
    ensures { (source : List ℕ) (F : Fragment RawName over_raw) (extensions : List (List ℕ))
        (warned : List SchemaWarning) (S : Schema)
        → text.IsWellFormed source extensions (fragment_seen F) warned
        → NamesNoEntityOrCommon (fragment_seen F)
        → text.DenotesSchema source extensions S warned
        → DenotesSchema (IsFragment (fragment_json F)) extensions S }
{
    what_is_written_denotes_the_same();
    what_a_text_declares_may_be_written();
}
