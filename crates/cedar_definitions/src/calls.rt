// SPDX-License-Identifier: Apache-2.0
ghost use Rattle.std.specs.Prelude.{◌≡◌, []};
ghost use Rattle.std.specs.Map.{keys_of};
ghost use Rattle.std.specs.Option.{option_copied};
ghost use Rattle.cedar_written.specs.of_data.Sets.{contains};
ghost use Rattle.cedar_written.specs.of_names.Names.{entity_cmp};
ghost use Rattle.cedar_definitions.specs.Structures.{definitions_of};

use crate::structures::{
    ActionFragment, ActionsDef, EntityTypeFragment, EntityTypesDef, ValidatorApplySpec,
    ValidatorNamespaceDef, ValidatorSchemaFragment,
};
use cedar_fragment::{RefName, SchemaType};
use cedar_written::{EntityType, EntityUID, InternalName, Items, Map, MapKeys, Set, SetIter};
use std::alloc::Global;

/// The full names of entity types, in order.
pub type EntityNameIter<'a, N> = MapKeys<'a, EntityType, EntityTypeFragment<N>>;

/// The full names of common types, in order.
pub type CommonNameIter<'a, N> = MapKeys<'a, InternalName, SchemaType<N>>;

/// The ids of actions, in order.
pub type ActionNameIter<'a, N, A> = MapKeys<'a, EntityUID, ActionFragment<N, A>>;

impl<N: RefName + Ord, A: Ord> ValidatorSchemaFragment<N, A> {
    /// These definitions, as they are given. It takes no memory.
    pub fn from_namespaces(list: Vec<ValidatorNamespaceDef<N, A>>) -> ValidatorSchemaFragment<N, A>
        ensures { definitions_of result ≡ list.items }
    {
        ValidatorSchemaFragment(Items::from_vec(list))
    }

    /// The definitions, in order.
    pub fn definitions(&self) -> &[ValidatorNamespaceDef<N, A>]
        ensures { result.now ≡ definitions_of self.now }
    {
        self.0.as_slice()
    }

    /// The definitions, in order, as a vector. It takes no memory.
    pub fn into_definitions(self) -> Vec<ValidatorNamespaceDef<N, A>>
        ensures { result.items ≡ definitions_of self }
    {
        let ValidatorSchemaFragment(definitions) = self;
        definitions.into_vec()
    }
}

impl<N: RefName + Ord, A: Ord> ValidatorNamespaceDef<N, A> {
    /// The namespace, none for the unnamed one.
    pub fn namespace(&self) -> Option<&InternalName>
        ensures { option_copied result ≡ self.now.namespace }
    {
        self.namespace.as_ref()
    }

    /// The full names of its entity types, in order. It takes no memory.
    pub fn all_declared_entity_type_names(&self) -> EntityNameIter<'_, N>
        ensures { result ≡ keys_of self.now.entity_types.defs }
    {
        self.entity_types.defs.keys()
    }

    /// The full names of its common types, in order. It takes no memory.
    pub fn all_declared_common_type_names(&self) -> CommonNameIter<'_, N>
        ensures { result ≡ keys_of self.now.common_types.defs }
    {
        self.common_types.defs.keys()
    }

    /// The ids of its actions, in order. It takes no memory.
    pub fn all_declared_action_names(&self) -> ActionNameIter<'_, N, A>
        ensures { result ≡ keys_of self.now.actions.actions }
    {
        self.actions.actions.keys()
    }
}

impl<N: Ord> EntityTypesDef<N> {
    /// No entity types. It takes no memory.
    pub fn new(alloc: Global) -> EntityTypesDef<N>
        ensures defs { result.defs ≡ [] }
        ensures locs { result.locs ≡ [] }
    {
        EntityTypesDef {
            defs: Map::new(alloc),
            locs: Map::new(alloc),
        }
    }
}

impl<N: RefName + Ord, A: Ord> ActionsDef<N, A> {
    /// No actions. It takes no memory.
    pub fn new(alloc: Global) -> ActionsDef<N, A>
        ensures { result.actions ≡ [] }
    {
        ActionsDef {
            actions: Map::new(alloc),
        }
    }
}

impl<N: Ord> ValidatorApplySpec<N> {
    /// An action applies to principals of the types `p` and to resources of the types `r`. It takes no memory.
    pub fn new(p: Set<N>, r: Set<N>) -> ValidatorApplySpec<N>
        ensures { result ≡ record { principal_apply_spec = p; resource_apply_spec = r } }
    {
        ValidatorApplySpec {
            principal_apply_spec: p,
            resource_apply_spec: r,
        }
    }
}

impl ValidatorApplySpec<EntityType> {
    /// Whether the action applies to principals of this type.
    pub fn is_applicable_principal_type(&self, ty: &EntityType) -> bool
        ensures { result ≡ contains entity_cmp self.now.principal_apply_spec ty.now }
    {
        self.principal_apply_spec.contains(ty)
    }

    /// Whether the action applies to resources of this type.
    pub fn is_applicable_resource_type(&self, ty: &EntityType) -> bool
        ensures { result ≡ contains entity_cmp self.now.resource_apply_spec ty.now }
    {
        self.resource_apply_spec.contains(ty)
    }

    /// The types of principals, in order.
    pub fn applicable_principal_types(&self) -> SetIter<'_, EntityType>
        ensures { result ≡ self.now.principal_apply_spec }
    {
        self.principal_apply_spec.iter()
    }

    /// The types of resources, in order.
    pub fn applicable_resource_types(&self) -> SetIter<'_, EntityType>
        ensures { result ≡ self.now.resource_apply_spec }
    {
        self.resource_apply_spec.iter()
    }
}
