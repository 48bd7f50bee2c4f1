// SPDX-License-Identifier: Apache-2.0
ghost use Rattle.std.specs.Prelude.{◌≡◌, ℕ, Bool, List, []};
ghost use Rattle.cedar_schema_error.specs.FullNames.{FullName};
ghost use Rattle.cedar_unfold.specs.Faults.{faults};
ghost use Rattle.cedar_unfold.specs.Full.{AreFaultless, Definitions};
ghost use Rattle.cedar_unfold.specs.Meanings.{Meanings, full_meanings};
ghost use Rattle.cedar_unfold.specs.UnfoldPhases.{IsCircular};
ghost use Rattle.cedar_unfold.specs.Written.{Written};
ghost use Rattle.cedar_unfold_laws.specs.Reached.{DoesUnfold, IsFlawless, RefersToFlawless, RefersToNoCycle};

/// A law: a written type unfolds, whatever its references are and mean, where no common type that it refers to, at once
/// or through definitions, reaches itself, and where in the type and in their definitions each reference has a target
/// and no fault stands. It does nothing when it runs.
pub fn what_refers_to_no_cycle_unfolds<N>()
    ensures { (m : Meanings N) (t : Written N) → RefersToNoCycle m t → IsFlawless m t
        → RefersToFlawless m t → DoesUnfold m t }
{}

/// A law: where no common type reaches itself and no fault stands in a definition, each written type over full names
/// unfolds in which no fault stands. It does nothing when it runs.
pub fn types_of_full_names_unfold()
    ensures { (definitions : Definitions) (is_extension : List ℕ → Bool) (t : Written FullName)
        → ((name : FullName) → IsCircular (full_meanings definitions is_extension) name → ⊥)
        → AreFaultless (full_meanings definitions is_extension)
        → faults (full_meanings definitions is_extension) t ≡ []
        → DoesUnfold (full_meanings definitions is_extension) t }
{}
