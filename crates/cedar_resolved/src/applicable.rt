// SPDX-License-Identifier: Apache-2.0
ghost use Rattle.std.specs.Prelude.{◌≡◌, [], ◌∷◌, ◌++◌, MatchOption};
ghost use Rattle.std.specs.Iterator.{YieldsFirstRef, item_count};
ghost use Rattle.cedar_resolved.specs.Queries.{principals_left, principals_of, resources_left, resources_of};

use crate::schema::ActionIter;
use cedar_data::SetIter;
use cedar_names::EntityType;

/// The entity types of the principals of actions, for each action in order, so that a type may come again.
#[derive(Debug, Drop)]
pub struct PrincipalIter<'a> {
    current: Option<SetIter<'a, EntityType>>,
    actions: ActionIter<'a>,
}

/// The entity types of the resources of actions, for each action in order, so that a type may come again.
#[derive(Debug, Drop)]
pub struct ResourceIter<'a> {
    current: Option<SetIter<'a, EntityType>>,
    actions: ActionIter<'a>,
}

impl<'a> PrincipalIter<'a> {
    /// Those of these actions.
    pub(crate) fn of(actions: ActionIter<'a>) -> PrincipalIter<'a>
        ensures { principals_left result ≡ principals_of actions.entry }
    {
        PrincipalIter {
            current: None,
            actions,
        }
    }
}

impl<'a> ResourceIter<'a> {
    /// Those of these actions.
    pub(crate) fn of(actions: ActionIter<'a>) -> ResourceIter<'a>
        ensures { resources_left result ≡ resources_of actions.entry }
    {
        ResourceIter {
            current: None,
            actions,
        }
    }
}

/// The first principal of the first action that has one, with the other principals of the action.
fn first_principal<'a>(
    actions: &mut ActionIter<'a>,
) -> Option<(&'a EntityType, SetIter<'a, EntityType>)>
    ensures { MatchOption result ((principals_of actions.old ≡ []) × (actions.new ≡ []))
        (λ found. principals_of actions.old
        ≡ found.0.now ∷ (found.1 ++ principals_of actions.new)) }
{
    while let Some(action) = actions.next() {
        let mut principals = action.principals();
        if let Some(first) = principals.next() {
            return Some((first, principals));
        }
    }
    None
}

/// The first resource of the first action that has one, with the other resources of the action.
fn first_resource<'a>(
    actions: &mut ActionIter<'a>,
) -> Option<(&'a EntityType, SetIter<'a, EntityType>)>
    ensures { MatchOption result ((resources_of actions.old ≡ []) × (actions.new ≡ []))
        (λ found. resources_of actions.old ≡ found.0.now ∷ (found.1 ++ resources_of actions.new)) }
{
    while let Some(action) = actions.next() {
        let mut resources = action.resources();
        if let Some(first) = resources.next() {
            return Some((first, resources));
        }
    }
    None
}

impl<'a> Iterator for PrincipalIter<'a> {
    type Item = &'a EntityType;

    ghost next_gives = { YieldsFirstRef principals_left };

    ghost remaining = { item_count principals_left };

    fn next(&mut self) -> Option<&'a EntityType> {
        if let Some(current) = &mut self.current {
            if let Some(ty) = current.next() {
                return Some(ty);
            }
        }
        match first_principal(&mut self.actions) {
            Some((ty, others)) => {
                self.current = Some(others);
                Some(ty)
            }
            None => None,
        }
    }
}

impl<'a> Iterator for ResourceIter<'a> {
    type Item = &'a EntityType;

    ghost next_gives = { YieldsFirstRef resources_left };

    ghost remaining = { item_count resources_left };

    fn next(&mut self) -> Option<&'a EntityType> {
        if let Some(current) = &mut self.current {
            if let Some(ty) = current.next() {
                return Some(ty);
            }
        }
        match first_resource(&mut self.actions) {
            Some((ty, others)) => {
                self.current = Some(others);
                Some(ty)
            }
            None => None,
        }
    }
}
