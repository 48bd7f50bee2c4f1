// SPDX-License-Identifier: Apache-2.0
ghost use Rattle.std.specs.Prelude.{◌≡◌, IfOk};
ghost use Rattle.std.specs.List.Sorted.{IsStrictlySortedBy};
ghost use Rattle.std.specs.Option.{option_copied};
ghost use Rattle.cedar_data.specs.Sets.{contains, set_of};
ghost use Rattle.cedar_names.specs.Names.{entity_cmp};
ghost use Rattle.cedar_resolved.specs.Schemas.{action_attribute_types, action_attributes, action_context, action_descendants, action_loc, action_name, action_principals, action_resources, uid_cmp};
ghost use Rattle.cedar_types.specs.Values.{members};

use crate::sets::three_sets;
use cedar_data::{Dup, Mem, Set, SetIter, dup_four};
use cedar_names::{EntityType, EntityUID, Loc};
use cedar_types::{Attributes, TcNode, Type, ValueMap, ValueMapIter};
use std::alloc::Global;

/// An action of a schema.
#[derive(Debug, Drop)]
pub struct ValidatorActionId {
    name: EntityUID,
    principals: Set<EntityType>,
    resources: Set<EntityType>,
    descendants: Set<EntityUID>,
    context: Type,
    attribute_types: Attributes,
    attributes: ValueMap,
    loc: Option<Loc>,
}

impl ValidatorActionId {
    /// The action of this name, which applies to principals and resources of these entity types in this context, with
    /// these descendants and these attributes of these types. It fails only for want of memory.
    pub fn new(
        alloc: Global,
        name: EntityUID,
        principal_entity_types: Vec<EntityType>,
        resource_entity_types: Vec<EntityType>,
        descendants: Vec<EntityUID>,
        context: Type,
        attribute_types: Attributes,
        attributes: ValueMap,
        loc: Option<Loc>,
    ) -> Mem<ValidatorActionId>
        ensures name { IfOk result (λ action. action_name action ≡ name) }
        ensures principals { IfOk result (λ action. action_principals action
            ≡ set_of entity_cmp principal_entity_types.items) }
        ensures resources { IfOk result (λ action. action_resources action
            ≡ set_of entity_cmp resource_entity_types.items) }
        ensures descendants { IfOk result (λ action. action_descendants action
            ≡ set_of uid_cmp descendants.items) }
        ensures context { IfOk result (λ action. action_context action ≡ context) }
        ensures attribute_types { IfOk result (λ action. action_attribute_types action
            ≡ attribute_types) }
        ensures attributes { IfOk result (λ action. action_attributes action ≡ attributes) }
        ensures loc { IfOk result (λ action. action_loc action ≡ loc) }
    {
        let (principals, resources, descendants) = three_sets(
            alloc,
            principal_entity_types,
            resource_entity_types,
            descendants,
        )?;
        Ok(ValidatorActionId::from_parts(
            name,
            principals,
            resources,
            descendants,
            context,
            attribute_types,
            attributes,
            loc,
        ))
    }

    /// The action of these parts.
    pub fn from_parts(
        name: EntityUID,
        principals: Set<EntityType>,
        resources: Set<EntityType>,
        descendants: Set<EntityUID>,
        context: Type,
        attribute_types: Attributes,
        attributes: ValueMap,
        loc: Option<Loc>,
    ) -> ValidatorActionId
        ensures name { action_name result ≡ name }
        ensures principals { action_principals result ≡ principals }
        ensures resources { action_resources result ≡ resources }
        ensures descendants { action_descendants result ≡ descendants }
        ensures context { action_context result ≡ context }
        ensures attribute_types { action_attribute_types result ≡ attribute_types }
        ensures attributes { action_attributes result ≡ attributes }
        ensures loc { action_loc result ≡ loc }
    {
        ValidatorActionId {
            name,
            principals,
            resources,
            descendants,
            context,
            attribute_types,
            attributes,
            loc,
        }
    }

    /// The action as an entity.
    pub fn name(&self) -> &EntityUID
        ensures { result.now ≡ action_name self.now }
    {
        &self.name
    }

    /// Where it is declared.
    pub fn loc(&self) -> Option<&Loc>
        ensures { option_copied result ≡ action_loc self.now }
    {
        self.loc.as_ref()
    }

    /// The actions that descend from it, in order.
    pub fn descendants(&self) -> SetIter<'_, EntityUID>
        ensures all { result ≡ action_descendants self.now }
        ensures ordered { IsStrictlySortedBy uid_cmp (action_descendants self.now) }
    {
        self.descendants.iter()
    }

    /// The type of its context, a record.
    pub fn context(&self) -> &Type
        ensures { result.now ≡ action_context self.now }
    {
        &self.context
    }

    /// The same as `context`.
    pub fn context_type(&self) -> &Type
        ensures { result.now ≡ action_context self.now }
    {
        &self.context
    }

    /// The entity types of its principals, in order.
    pub fn principals(&self) -> SetIter<'_, EntityType>
        ensures all { result ≡ action_principals self.now }
        ensures ordered { IsStrictlySortedBy entity_cmp (action_principals self.now) }
    {
        self.principals.iter()
    }

    /// The entity types of its resources, in order.
    pub fn resources(&self) -> SetIter<'_, EntityType>
        ensures all { result ≡ action_resources self.now }
        ensures ordered { IsStrictlySortedBy entity_cmp (action_resources self.now) }
    {
        self.resources.iter()
    }

    /// The same as `principals`.
    pub fn applies_to_principals(&self) -> SetIter<'_, EntityType>
        ensures all { result ≡ action_principals self.now }
        ensures ordered { IsStrictlySortedBy entity_cmp (action_principals self.now) }
    {
        self.principals.iter()
    }

    /// The same as `resources`.
    pub fn applies_to_resources(&self) -> SetIter<'_, EntityType>
        ensures all { result ≡ action_resources self.now }
        ensures ordered { IsStrictlySortedBy entity_cmp (action_resources self.now) }
    {
        self.resources.iter()
    }

    /// Whether principals of this entity type may take it.
    pub fn is_applicable_principal_type(&self, ty: &EntityType) -> bool
        ensures { result ≡ contains entity_cmp (action_principals self.now) ty.now }
    {
        self.principals.contains(ty)
    }

    /// Whether it may be taken on resources of this entity type.
    pub fn is_applicable_resource_type(&self, ty: &EntityType) -> bool
        ensures { result ≡ contains entity_cmp (action_resources self.now) ty.now }
    {
        self.resources.contains(ty)
    }

    /// The types of its attributes.
    pub fn attribute_types(&self) -> &Attributes
        ensures { result.now ≡ action_attribute_types self.now }
    {
        &self.attribute_types
    }

    /// Its attributes with their values.
    pub(crate) fn attribute_values(&self) -> &ValueMap
        ensures { result.now ≡ action_attributes self.now }
    {
        &self.attributes
    }

    /// Its attributes with their values, in the order of their names.
    pub fn attributes(&self) -> ValueMapIter<'_>
        ensures { result ≡ members (action_attributes self.now) }
    {
        self.attributes.iter()
    }
}

impl TcNode<EntityUID> for ValidatorActionId {
    ghost use Rattle.std.specs.Prelude.{[]};
    ghost use Rattle.cedar_resolved.specs.NodeLaws.{action_whole};
    ghost use Rattle.cedar_resolved.specs.Schemas.{action_descendants, action_name, action_with};

    ghost key = { action_name };

    ghost edges = { action_descendants };

    ghost rest = { action_with [] };

    ghost whole = { action_whole };

    fn get_key(&self) -> &EntityUID {
        &self.name
    }

    fn add_edge_to(&mut self, k: EntityUID) -> Mem<()> {
        self.descendants.insert(k)?;
        Ok(())
    }

    fn has_edge_to(&self, k: &EntityUID) -> bool {
        self.descendants.contains(k)
    }

    fn out_edges(&self) -> SetIter<'_, EntityUID> {
        self.descendants.iter()
    }
}

impl Dup for ValidatorActionId {
    fn dup(&self, alloc: Global) -> Mem<ValidatorActionId> {
        let (name, principals, resources, descendants) = dup_four(
            alloc,
            &self.name,
            &self.principals,
            &self.resources,
            &self.descendants,
        )?;
        let (context, attribute_types, attributes, loc) = dup_four(
            alloc,
            &self.context,
            &self.attribute_types,
            &self.attributes,
            &self.loc,
        )?;
        Ok(ValidatorActionId {
            name,
            principals,
            resources,
            descendants,
            context,
            attribute_types,
            attributes,
            loc,
        })
    }
}
