// SPDX-License-Identifier: Apache-2.0
ghost use Rattle.std.specs.Prelude.{◌≡◌};
ghost use Rattle.cedar_duplicates.specs.of_schema_error.Refusals.{Refusal};
ghost use Rattle.cedar_sound.specs.Sound.{Cause, Sound};
ghost use Rattle.cedar_world.specs.Denotes.{Denotes};
ghost use Rattle.cedar_world.specs.Schemas.{Schema};
ghost use Rattle.cedar_world.specs.Worlds.{World};

/// A law: a sound world is not refused. It does nothing when it runs.
#[tactic(auto, using(crate::proofs::Refusing::sound_or_refused))]
pub fn sound_or_refused()
    ensures { (W : World) (e : Refusal) → Sound W → Cause W e → ⊥ }
{}

/// A law: a world is refused in one way at most. It does nothing when it runs.
#[tactic(auto, using(crate::proofs::Refusing::one_cause))]
pub fn one_cause()
    ensures { (W : World) (e e' : Refusal) → Cause W e → Cause W e' → e ≡ e' }
{}

/// A law: a world denotes one schema at most. It does nothing when it runs.
#[tactic(auto, using(crate::proofs::OneSchema::one_schema))]
pub fn one_schema()
    ensures { (W : World) (S T : Schema) → Denotes W S → Denotes W T → S ≡ T }
{}

/// A law: a sound world denotes a schema. It does nothing when it runs.
#[tactic(auto, using(crate::proofs::SomeSchema::sound_denotes))]
pub fn some_schema()
    ensures { (W : World) → Sound W → (S : Schema) × Denotes W S }
{}
