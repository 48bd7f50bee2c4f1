// SPDX-License-Identifier: Apache-2.0
ghost use Rattle.std.specs.Prelude.{◌⊎◌, ℕ, List};
ghost use Rattle.cedar_fragment_world.specs.of_convert_fragment.Fragments.{Fragment};
ghost use Rattle.cedar_schema.specs.Fragments.{FragmentCause, SoundFragment};
ghost use Rattle.cedar_schema_error.specs.Refusals.{Refusal};
ghost use Rattle.cedar_schema_error.specs.declared.action_behavior.ActionBehavior.{ActionBehavior};
ghost use Rattle.cedar_sound.specs.Sound.{Cause, Sound};
ghost use Rattle.cedar_world.specs.Worlds.{World};

/// A law: each world is sound, or there is a cause why it isn't. It does nothing when it runs.
#[tactic(auto, using(crate::proofs::Worlds::sound_or_caused))]
pub fn sound_or_caused()
    ensures { (W : World) → Sound W ⊎ ((e : Refusal) × Cause W e) }
{}

/// A law: each fragment is sound, or there is a cause why it isn't. It does nothing when it runs.
#[tactic(auto, using(crate::proofs::Fragments::fragment_sound_or_caused))]
pub fn fragment_sound_or_caused()
    ensures { (behavior : ActionBehavior) (extensions : List (List ℕ)) (F : Fragment)
        → SoundFragment behavior extensions F
        ⊎ ((e : Refusal) × FragmentCause behavior extensions F e) }
{}
