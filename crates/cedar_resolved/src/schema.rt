// SPDX-License-Identifier: Apache-2.0
ghost use Rattle.std.specs.Prelude.{◌≡◌, [], map, IfOk};
ghost use Rattle.std.specs.Map.{keys_of, values_of};
ghost use Rattle.cedar_data.specs.Maps.{map_of};
ghost use Rattle.cedar_names.specs.Names.{entity_cmp};
ghost use Rattle.cedar_resolved.specs.Schemas.{action_entry, action_types, type_entry, types, uid_cmp};

use crate::action::ValidatorActionId;
use crate::entity_type::ValidatorEntityType;
use cedar_data::{Dup, Map, MapKeys, MapValues, Mem, dup_two};
use cedar_names::{EntityType, EntityUID};
use cedar_types::{TcKey, TcNode};
use std::alloc::Global;

/// A resolved schema.
#[derive(Debug, Drop)]
pub struct ValidatorSchema {
    entity_types: Map<EntityType, ValidatorEntityType>,
    action_ids: Map<EntityUID, ValidatorActionId>,
}

/// Entity types, in the order of their names.
pub type EntityIter<'a> = MapValues<'a, EntityType, ValidatorEntityType>;

/// The names of entity types, in order.
pub type EntityKeyIter<'a> = MapKeys<'a, EntityType, ValidatorEntityType>;

/// Actions, in the order of their names.
pub type ActionIter<'a> = MapValues<'a, EntityUID, ValidatorActionId>;

/// The names of actions, in order.
pub type ActionKeyIter<'a> = MapKeys<'a, EntityUID, ValidatorActionId>;

/// The nodes by their names. Of several of one name the last stays.
fn by_name<K: TcKey, V: TcNode<K>>(alloc: Global, nodes: Vec<V>) -> Mem<Map<K, V>>
    ensures { IfOk result (λ made. made
        ≡ map_of K.cmp (map (λ node. (V.key node, node)) nodes.items)) }
{
    let mut pairs = Vec::new(alloc);
    for node in nodes {
        let name = node.get_key().dup(alloc)?;
        pairs.push((name, node))?;
    }
    Map::from_pairs(alloc, pairs)
}

impl ValidatorSchema {
    /// The schema of these entity types and actions. Of several of one name the last stays. It fails only for want of
    /// memory.
    pub fn new(
        alloc: Global,
        entity_types: Vec<ValidatorEntityType>,
        action_ids: Vec<ValidatorActionId>,
    ) -> Mem<ValidatorSchema>
        ensures types { IfOk result (λ schema. types schema
            ≡ map_of entity_cmp (map type_entry entity_types.items)) }
        ensures actions { IfOk result (λ schema. action_types schema
            ≡ map_of uid_cmp (map action_entry action_ids.items)) }
    {
        let entity_types = by_name(alloc, entity_types)?;
        let action_ids = by_name(alloc, action_ids)?;
        Ok(ValidatorSchema::from_parts(entity_types, action_ids))
    }

    /// The schema without entity types and actions.
    pub fn empty(alloc: Global) -> ValidatorSchema
        ensures types { types result ≡ [] }
        ensures actions { action_types result ≡ [] }
    {
        ValidatorSchema::from_parts(Map::new(alloc), Map::new(alloc))
    }

    /// The schema of these entity types and actions by their names.
    pub fn from_parts(
        entity_types: Map<EntityType, ValidatorEntityType>,
        action_ids: Map<EntityUID, ValidatorActionId>,
    ) -> ValidatorSchema
        ensures types { types result ≡ entity_types }
        ensures actions { action_types result ≡ action_ids }
    {
        ValidatorSchema {
            entity_types,
            action_ids,
        }
    }

    /// The entity types by their names.
    pub(crate) fn by_type(&self) -> &Map<EntityType, ValidatorEntityType>
        ensures { result.now ≡ types self.now }
    {
        &self.entity_types
    }

    /// The actions by their names.
    pub fn by_action(&self) -> &Map<EntityUID, ValidatorActionId>
        ensures { result.now ≡ action_types self.now }
    {
        &self.action_ids
    }

    /// The entity types, in the order of their names.
    pub fn entity_types(&self) -> EntityIter<'_>
        ensures { result ≡ values_of (types self.now) }
    {
        self.entity_types.values()
    }

    /// The names of the entity types, in order.
    pub fn entity_type_names(&self) -> EntityKeyIter<'_>
        ensures { result ≡ keys_of (types self.now) }
    {
        self.entity_types.keys()
    }

    /// The actions, in the order of their names.
    pub fn action_ids(&self) -> ActionIter<'_>
        ensures { result ≡ values_of (action_types self.now) }
    {
        self.action_ids.values()
    }

    /// The names of the actions, in order.
    pub fn actions(&self) -> ActionKeyIter<'_>
        ensures { result ≡ keys_of (action_types self.now) }
    {
        self.action_ids.keys()
    }
}

impl Dup for ValidatorSchema {
    fn dup(&self, alloc: Global) -> Mem<ValidatorSchema> {
        let (entity_types, action_ids) = dup_two(alloc, &self.entity_types, &self.action_ids)?;
        Ok(ValidatorSchema::from_parts(entity_types, action_ids))
    }
}
