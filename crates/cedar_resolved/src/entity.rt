// SPDX-License-Identifier: Apache-2.0
ghost use Rattle.std.specs.Prelude.{◌≡◌, map, IfOk};
ghost use Rattle.std.specs.List.Sorted.{IsStrictlySortedBy};
ghost use Rattle.cedar_resolved.specs.Queries.{entity_of_action};
ghost use Rattle.cedar_resolved.specs.Schemas.{action_attributes, action_types, uid_cmp};

use crate::action::ValidatorActionId;
use crate::action_ancestors::take_ancestors;
use crate::schema::ValidatorSchema;
use cedar_data::{Dup, Items, Mem, Set, dup_three};
use cedar_names::EntityUID;
use cedar_types::ValueMap;
use std::alloc::Global;

/// An action as an entity.
#[derive(Debug, Drop)]
pub struct Entity {
    /// Its name.
    pub uid: EntityUID,
    /// Its attributes with their values.
    pub attributes: ValueMap,
    /// The actions that have it among their descendants.
    pub ancestors: Set<EntityUID>,
}

impl ValidatorSchema {
    /// Each action as an entity, in order, with its attributes and all its ancestors. It fails only for want of memory.
    pub fn action_entities(&self, alloc: Global) -> Mem<Vec<Entity>>
        ensures { IfOk result (λ entities. entities.items
            ≡ map (entity_of_action self.now) (action_types self.now)) }
    {
        let mut noted = self.action_ancestors(alloc)?;
        let mut entities = Vec::new(alloc);
        for (name, action) in self.by_action().iter() {
            let ancestors = take_ancestors(alloc, name, &mut noted);
            let entity = action_entity(alloc, name, action, ancestors)?;
            entities.push(entity)?;
        }
        Ok(entities)
    }
}

/// An action as an entity, with these ancestors.
fn action_entity(
    alloc: Global,
    name: &EntityUID,
    action: &ValidatorActionId,
    ancestors: Items<EntityUID>,
) -> Mem<Entity>
    requires { IsStrictlySortedBy uid_cmp ancestors }
    ensures { IfOk result (λ entity. entity
        ≡ record {
          uid = name.now;
          attributes = action_attributes action.now;
          ancestors = ancestors;
        }) }
{
    let uid = name.dup(alloc)?;
    let attributes = action.attribute_values().dup(alloc)?;
    let ancestors = Set::from_sorted(alloc, ancestors.into_vec())?;
    Ok(Entity {
        uid,
        attributes,
        ancestors,
    })
}

impl Dup for Entity {
    fn dup(&self, alloc: Global) -> Mem<Entity> {
        let (uid, attributes, ancestors) = dup_three(
            alloc,
            &self.uid,
            &self.attributes,
            &self.ancestors,
        )?;
        Ok(Entity {
            uid,
            attributes,
            ancestors,
        })
    }
}
