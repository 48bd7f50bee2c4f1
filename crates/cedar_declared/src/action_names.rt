// SPDX-License-Identifier: Apache-2.0
//! Actions, with an index of those whose type has no namespace.
ghost use Rattle.std.specs.Prelude.{◌≡◌, [], map, IfOk, IfSome};
ghost use Rattle.std.specs.Option.{option_copied, option_map};
ghost use Rattle.cedar_data.specs.Sets.{contains};
ghost use Rattle.cedar_names.specs.EntityUids.{eid_text};
ghost use Rattle.cedar_schema_error.specs.FullNames.{is_qualified, uid_in};
ghost use Rattle.cedar_schema_error.specs.KeptDeclarations.{IsAmong};
ghost use Rattle.cedar_declared.specs.Alone.{IndexesActions, improves, least_alone};
ghost use Rattle.cedar_declared.specs.Gathering.{action_cmp};

use cedar_data::{Dup, Map, Mem, Set, SetIter};
use cedar_names::{Eid, EntityUID};
use std::alloc::Global;
use std::cmp::Ordering;
use std::marker::Model;

/// Actions. Contracts see them as the list of them, in order. The least of each id whose type has no namespace is kept
/// by its id, so that it can be looked up without an action.
#[derive(Debug, Drop)]
pub(crate) struct ActionNames {
    uids: Set<EntityUID>,
    alone: Map<Eid, EntityUID>,
}

impl Model for ActionNames {
    ghost use Rattle.std.specs.Prelude.{List};
    ghost use Rattle.cedar_names.specs.declared.entity_uid.EntityUID.{EntityUID};

    ghost Value = { List EntityUID };

    ghost use Rattle.cedar_declared.specs.Alone.{IndexesActions};

    ghost view = { λ a. a.uids };

    ghost invariant = { λ a. IndexesActions a.uids a.alone };
}

impl ActionNames {
    /// These actions.
    pub(crate) fn new(alloc: Global, uids: Set<EntityUID>) -> Mem<ActionNames>
        ensures { IfOk result (λ a. a ≡ uids) }
    {
        let alone = index_alone(alloc, uids.iter())?;
        Ok(ActionNames { uids, alone })
    }

    /// Whether the action is one of them.
    pub(crate) fn contains(&self, uid: &EntityUID) -> bool
        ensures { result ≡ contains action_cmp self.now uid.now }
    {
        self.uids.contains(uid)
    }

    /// The actions, in order.
    pub(crate) fn iter(&self) -> SetIter<'_, EntityUID>
        ensures { result ≡ self.now }
    {
        self.uids.iter()
    }

    /// The actions as a set.
    pub(crate) fn into_uids(self) -> Set<EntityUID>
        ensures { result ≡ self }
    {
        self.uids
    }

    /// The least of this id whose type has no namespace.
    pub(crate) fn alone(&self, id: &Eid) -> Option<&EntityUID>
        ensures least { option_map uid_in (option_copied result)
            ≡ least_alone (map uid_in self.now) (eid_text id.now) }
        ensures held { IfSome (option_copied result) (IsAmong self.now) }
    {
        self.alone.get(id)
    }
}

/// Whether the type of the action has a namespace.
fn is_qualified(action: &EntityUID) -> bool
    ensures { result ≡ is_qualified (uid_in action.now).ty }
{
    !action.entity_type().name().as_internal().is_unqualified()
}

/// Whether the action, whose type has no namespace, comes before that of its id in the index.
fn improves(index: &Map<Eid, EntityUID>, action: &EntityUID) -> bool
    ensures { result ≡ improves index.now action.now }
{
    if is_qualified(action) {
        return false;
    }
    match index.get(action.eid()) {
        None => true,
        Some(other) => action.cmp(other) == Ordering::Less,
    }
}

/// The least action of each id whose type has no namespace.
#[tactic(auto, using(crate::proofs::Indexed::index_loop))]
fn index_alone(alloc: Global, actions: SetIter<'_, EntityUID>) -> Mem<Map<Eid, EntityUID>>
    ensures { IfOk result (IndexesActions actions.entry) }
{
    let mut index = Map::new(alloc);
    for action in actions {
        if improves(&index, action) {
            let id = action.eid().dup(alloc)?;
            let copy = action.dup(alloc)?;
            index.put(id, copy)?;
        }
    }
    Ok(index)
}

impl Dup for ActionNames {
    fn dup(&self, alloc: Global) -> Mem<ActionNames> {
        let uids = self.uids.dup(alloc)?;
        let alone = self.alone.dup(alloc)?;
        Ok(ActionNames { uids, alone })
    }
}
