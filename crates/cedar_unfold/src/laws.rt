// SPDX-License-Identifier: Apache-2.0
ghost use Rattle.std.specs.Prelude.{◌≡◌};
ghost use Rattle.cedar_unfolding.specs.Meanings.{Meanings};
ghost use Rattle.cedar_unfolding.specs.Resolved.{Resolved};
ghost use Rattle.cedar_unfolding.specs.Unfolds.{Unfolds};
ghost use Rattle.cedar_unfolding.specs.Written.{Written};

/// A law: a written type unfolds to at most one type, whatever its references are and mean. It does nothing when it
/// runs.
#[tactic(auto, using(crate::proofs::OneUnfolding::one_type))]
pub fn one_unfolding<N>()
    ensures { (m : Meanings N) (t : Written N) (S T : Resolved) → Unfolds m t S → Unfolds m t T
        → S ≡ T }
{}
