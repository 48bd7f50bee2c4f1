// SPDX-License-Identifier: Apache-2.0
ghost use Rattle.std.specs.Prelude.{◌≡◌, ◌∷◌, ◌++◌, [], None, cond, IfOk, OnOk};
ghost use Rattle.std.specs.BTreeMap.{is_at};
ghost use Rattle.cedar_data.specs.Maps.{get};
ghost use Rattle.cedar_resolved.specs.Ancestors.{noted_of, one_where};
ghost use Rattle.cedar_resolved.specs.Queries.{action_is_above, actions_above};
ghost use Rattle.cedar_resolved.specs.Schemas.{action_types, uid_cmp};

use crate::action::ValidatorActionId;
use crate::schema::ValidatorSchema;
use cedar_data::{Dup, Items, Mem};
use cedar_names::EntityUID;
use std::alloc::Global;
use std::collections::BTreeMap;

/// The ancestors of each action that has some, in order.
pub(crate) type ActionAncestors = BTreeMap<EntityUID, Items<EntityUID>>;

impl ValidatorSchema {
    /// The ancestors of each action that has some. Each action is looked at once.
    pub(crate) fn action_ancestors(&self, alloc: Global) -> Mem<ActionAncestors>
        ensures { IfOk result (λ noted. (uid : EntityUID)
            → noted_of noted.entries uid ≡ actions_above uid (action_types self.now)) }
    {
        let mut noted = BTreeMap::new(alloc);
        for (name, action) in self.by_action().iter() {
            note_action(alloc, name, action, &mut noted)?;
        }
        Ok(noted)
    }
}

/// Takes the ancestors of an action out.
pub(crate) fn take_ancestors(
    alloc: Global,
    uid: &EntityUID,
    noted: &mut ActionAncestors,
) -> Items<EntityUID>
    ensures taken { result ≡ noted_of noted.old.entries uid.now }
    ensures others { (other : EntityUID) → get uid_cmp noted.new.entries other
        ≡ cond (is_at (uid_cmp uid.now) other) None (get uid_cmp noted.old.entries other) }
{
    match noted.remove(uid) {
        Some(ancestors) => ancestors,
        None => Items::new(alloc),
    }
}

/// Puts an action behind the ancestors of each of its descendants.
fn note_action(
    alloc: Global,
    name: &EntityUID,
    action: &ValidatorActionId,
    noted: &mut ActionAncestors,
) -> Mem<()>
    ensures { OnOk result ((uid : EntityUID) → noted_of noted.new.entries uid
        ≡ noted_of noted.old.entries uid
        ++ one_where (action_is_above uid (name.now, action.now)) name.now) }
{
    for descendant in action.descendants() {
        let descendant = descendant.dup(alloc)?;
        let name = name.dup(alloc)?;
        note_ancestor(alloc, descendant, name, noted)?;
    }
    Ok(())
}

/// Puts an ancestor behind the other ancestors of an action.
fn note_ancestor(
    alloc: Global,
    uid: EntityUID,
    ancestor: EntityUID,
    noted: &mut ActionAncestors,
) -> Mem<()>
    ensures { OnOk result ((other : EntityUID) → noted_of noted.new.entries other
        ≡ noted_of noted.old.entries other ++ one_where (is_at (uid_cmp other) uid) ancestor) }
{
    let mut ancestors = take_ancestors(alloc, &uid, noted);
    ancestors.push(ancestor)?;
    noted.insert(uid, ancestors)?;
    Ok(())
}
