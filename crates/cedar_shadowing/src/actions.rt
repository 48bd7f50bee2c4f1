// SPDX-License-Identifier: Apache-2.0
//! The least action that shadows another. It is found in one pass, and without memory.
ghost use Rattle.std.specs.Prelude.{◌≡◌, [], ◌∷◌, None, Some, unwrap_or, IfOk, IfSome};
ghost use Rattle.std.specs.Option.{option_copied, option_map};
ghost use Rattle.std.specs.Ordering.{is_lt};
ghost use Rattle.cedar_schema_error.specs.FullNames.{is_qualified, uid_in};
ghost use Rattle.cedar_schema_error.specs.KeptDeclarations.{KeepsAmong};
ghost use Rattle.cedar_schema_error.specs.Told.{told};
ghost use Rattle.cedar_declared.specs.Held.{names_of};
ghost use Rattle.cedar_declared.specs.HeldPlaces.{IsHeldAction, actions_at, types_at};
ghost use Rattle.cedar_shadowing.specs.Picking.{least_shadowing_action, shadowed_action, shadowing_action_cmp, shadows_action};
ghost use Rattle.cedar_shadowing.specs.Shadowing.{ActionShadows, ShadowRefuses};

use cedar_data::{Dup, Mem};
use cedar_declared::AllDefs;
use cedar_names::EntityUID;
use cedar_schema_error::{ActionShadowingError, SchemaError};
use std::alloc::Global;
use std::cmp::Ordering;

/// Whether the type of the action has a namespace.
fn is_qualified(action: &EntityUID) -> bool
    ensures { result ≡ is_qualified (uid_in action.now).ty }
{
    !action.entity_type().name().as_internal().is_unqualified()
}

/// Whether an action with a namespace shadows one.
#[tactic(auto, using(crate::proofs::LookedUp::looked_up))]
fn shadows(all_defs: &AllDefs, action: &EntityUID) -> bool
    ensures { result ≡ shadows_action (names_of all_defs.now).actions (uid_in action.now) }
{
    if !is_qualified(action) {
        return false;
    }
    match all_defs.action_alone(action.eid()) {
        Some(_) => true,
        None => false,
    }
}

/// The action that an action shadows, or itself where it shadows none.
#[tactic(auto, using(crate::proofs::LookedUp::looked_up))]
fn shadowed_or_itself<'a>(all_defs: &'a AllDefs, action: &'a EntityUID) -> &'a EntityUID
    ensures { uid_in result.now
        ≡ unwrap_or (shadowed_action (names_of all_defs.now).actions (uid_in action.now))
        (uid_in action.now) }
{
    match all_defs.action_alone(action.eid()) {
        Some(shadowed) => shadowed,
        None => action,
    }
}

/// Whether one action comes before another: by the actions that they shadow, then by themselves.
#[tactic(auto, using(crate::proofs::LookedUp::looked_up))]
fn comes_before(all_defs: &AllDefs, action: &EntityUID, other: &EntityUID) -> bool
    ensures { result
        ≡ is_lt (shadowing_action_cmp (names_of all_defs.now).actions (uid_in action.now)
        (uid_in other.now)) }
{
    let shadowed = shadowed_or_itself(all_defs, action);
    match shadowed.cmp(shadowed_or_itself(all_defs, other)) {
        Ordering::Less => true,
        Ordering::Equal => action.cmp(other) == Ordering::Less,
        Ordering::Greater => false,
    }
}

/// The better of the best so far and this action.
fn earlier<'a>(
    all_defs: &AllDefs,
    best: Option<&'a EntityUID>,
    action: &'a EntityUID,
) -> Option<&'a EntityUID>
    ensures least { option_map uid_in (option_copied result)
        ≡ least_shadowing_action (names_of all_defs.now).actions
        (option_map uid_in (option_copied best.entry)) (uid_in action.now ∷ []) }
    ensures held { IfSome (option_copied best.entry) (IsHeldAction all_defs.now)
        → IsHeldAction all_defs.now action.now
        → IfSome (option_copied result) (IsHeldAction all_defs.now) }
{
    if !shadows(all_defs, action) {
        return best;
    }
    match best {
        None => Some(action),
        Some(other) => {
            if comes_before(all_defs, action, other) {
                Some(action)
            } else {
                best
            }
        }
    }
}

/// The least action that shadows another, if there is one.
#[tactic(auto, using(crate::proofs::KeptPairs::picks_actions))]
pub(crate) fn least_action(all_defs: &AllDefs) -> Option<&EntityUID>
    ensures least { option_map uid_in (option_copied result)
        ≡ least_shadowing_action (names_of all_defs.now).actions None
        (names_of all_defs.now).actions }
    ensures held { IfSome (option_copied result) (IsHeldAction all_defs.now) }
{
    let mut least = None;
    for action in all_defs.actions() {
        least = earlier(all_defs, least, action);
    }
    least
}

/// The error that the least action that shadows another shadows it.
#[tactic(auto, using(crate::proofs::LookedUp::looked_up))]
pub(crate) fn action_shadowing(
    alloc: Global,
    all_defs: &AllDefs,
    shadowing: &EntityUID,
) -> Mem<SchemaError>
    requires { least_shadowing_action (names_of all_defs.now).actions None
        (names_of all_defs.now).actions
        ≡ Some (uid_in shadowing.now) }
    ensures told { IfOk result (λ e. ShadowRefuses (names_of all_defs.now) ActionShadows
        (told e)) }
    ensures kept { IsHeldAction all_defs.now shadowing.now
        → IfOk result (KeepsAmong (types_at all_defs.now) (actions_at all_defs.now)) }
{
    match all_defs.action_alone(shadowing.eid()) {
        None => unreachable!(),
        Some(shadowed) => {
            let shadowed_def = shadowed.dup(alloc)?;
            let shadowing_def = shadowing.dup(alloc)?;
            Ok(SchemaError::ActionShadowing(ActionShadowingError {
                shadowed_def,
                shadowing_def,
            }))
        }
    }
}
