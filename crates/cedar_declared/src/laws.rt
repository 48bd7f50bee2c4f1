// SPDX-License-Identifier: Apache-2.0
ghost use Rattle.std.specs.Prelude.{◌≡◌, ℕ, List};
ghost use Rattle.std.specs.Option.{option_map};
ghost use Rattle.cedar_names.specs.Components.{components};
ghost use Rattle.cedar_definitions.specs.ActionUids.{over_conditional, uid_of};
ghost use Rattle.cedar_written.specs.declared.conditional_name.ConditionalName.{ConditionalName};
ghost use Rattle.cedar_schema_error.specs.NameReferences.{action_reference_of, reference_of};
ghost use Rattle.cedar_declared.specs.Names.{Names, SameNames, action_target, target};
ghost use Rattle.cedar_declared.specs.Targets.{action_at, found, found_action};

/// What is found among declared names is the target of the reference: the first full name that it may stand for and that
/// is declared as what it may be; of the parent of an action, the first id. And the same names give the same target. It
/// does nothing when it runs.
pub fn what_is_found_is_the_target()
    ensures types { (names : Names) (n : ConditionalName)
        → target names (reference_of n) ≡ option_map components (found names n) }
    ensures actions { (names : Names) (id : List ℕ) (n : ConditionalName)
        → action_target names (action_reference_of (uid_of over_conditional id n))
        ≡ option_map (action_at id) (found_action names id n) }
    ensures same { (a b : Names) (n : ConditionalName) → SameNames a b → found a n ≡ found b n }
{}
