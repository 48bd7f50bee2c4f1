// SPDX-License-Identifier: Apache-2.0
ghost use Rattle.std.specs.Prelude.{◌≡◌};
ghost use Rattle.std.specs.Iterator.{YieldsFirstRef, item_count};
ghost use Rattle.cedar_resolved.specs.Queries.{ancestors_left, groups_left, groups_of, types_above};

use crate::action::ValidatorActionId;
use crate::entity_type::ValidatorEntityType;
use cedar_data::MapIter;
use cedar_names::{EntityType, EntityUID};

/// The names of the entity types that have a type among their descendants, in order.
#[derive(Debug, Drop)]
pub struct AncestorIter<'a> {
    ty: &'a EntityType,
    types: MapIter<'a, EntityType, ValidatorEntityType>,
}

/// The names of the actions that have descendants, in order.
#[derive(Debug, Drop)]
pub struct GroupIter<'a> {
    actions: MapIter<'a, EntityUID, ValidatorActionId>,
}

impl<'a> AncestorIter<'a> {
    /// Those of these entity types that have the type among their descendants.
    pub(crate) fn of(
        ty: &'a EntityType,
        types: MapIter<'a, EntityType, ValidatorEntityType>,
    ) -> AncestorIter<'a>
        ensures { ancestors_left result ≡ types_above ty.now types.entry }
    {
        AncestorIter { ty, types }
    }
}

impl<'a> GroupIter<'a> {
    /// Those of these actions that have descendants.
    pub(crate) fn of(actions: MapIter<'a, EntityUID, ValidatorActionId>) -> GroupIter<'a>
        ensures { groups_left result ≡ groups_of actions.entry }
    {
        GroupIter { actions }
    }
}

impl<'a> Iterator for AncestorIter<'a> {
    type Item = &'a EntityType;

    ghost next_gives = { YieldsFirstRef ancestors_left };

    ghost remaining = { item_count ancestors_left };

    fn next(&mut self) -> Option<&'a EntityType> {
        while let Some((name, found)) = self.types.next() {
            if found.has_descendant_entity_type(self.ty) {
                return Some(name);
            }
        }
        None
    }
}

impl<'a> Iterator for GroupIter<'a> {
    type Item = &'a EntityUID;

    ghost next_gives = { YieldsFirstRef groups_left };

    ghost remaining = { item_count groups_left };

    fn next(&mut self) -> Option<&'a EntityUID> {
        while let Some((name, action)) = self.actions.next() {
            if action.descendants().next().is_some() {
                return Some(name);
            }
        }
        None
    }
}
