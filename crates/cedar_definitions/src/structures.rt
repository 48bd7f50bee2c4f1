// SPDX-License-Identifier: Apache-2.0
use cedar_fragment::{
    ActionEntityUID, Attributes, AttributesOrContext, RefName, SchemaType, ValueMap,
};
use cedar_written::{EntityType, EntityUID, InternalName, Items, Loc, Map, NonEmpty, Set, Text};

/// A list of namespace definitions, over names `N`, where actions apply to names `A`.
#[derive(Debug, Drop)]
pub struct ValidatorSchemaFragment<N: RefName + Ord, A: Ord>(
    pub(crate) Items<ValidatorNamespaceDef<N, A>>,
);

/// The definitions of a namespace, under their full names. Several may be of one namespace.
#[derive(Debug, Drop)]
pub struct ValidatorNamespaceDef<N: RefName + Ord, A: Ord> {
    /// The namespace, none for the unnamed one.
    pub namespace: Option<InternalName>,
    /// The common types.
    pub common_types: CommonTypeDefs<N>,
    /// The entity types.
    pub entity_types: EntityTypesDef<N>,
    /// The actions.
    pub actions: ActionsDef<N, A>,
}

/// Common types by name.
#[derive(Debug, Drop)]
pub struct CommonTypeDefs<N> {
    /// What each name stands for.
    pub defs: Map<InternalName, SchemaType<N>>,
}

/// Entity types by name.
#[derive(Debug, Drop)]
pub struct EntityTypesDef<N: Ord> {
    /// What each of them is.
    pub defs: Map<EntityType, EntityTypeFragment<N>>,
    /// The place of each declaration that has one. A name that is not in `defs` means nothing.
    pub locs: Map<EntityType, Loc>,
}

/// An entity type.
#[derive(Debug, Drop)]
pub enum EntityTypeFragment<N: Ord> {
    /// One whose entities have attributes, and any ids.
    Standard {
        /// The attributes of an entity.
        attributes: AttributesOrContext<N>,
        /// The types of which its entities may be members.
        parents: Set<N>,
        /// The type of the tags of an entity, if it may have some.
        tags: Option<SchemaType<N>>,
    },
    /// One whose entities are listed by their ids.
    Enum(NonEmpty<Text>),
}

/// Actions by id.
#[derive(Debug, Drop)]
pub struct ActionsDef<N: RefName + Ord, A: Ord> {
    /// What each of them is.
    pub actions: Map<EntityUID, ActionFragment<N, A>>,
}

/// An action.
#[derive(Debug, Drop)]
pub struct ActionFragment<N: RefName + Ord, A: Ord> {
    /// The context of a request.
    pub context: SchemaType<N>,
    /// The entity types to which it applies.
    pub applies_to: ValidatorApplySpec<A>,
    /// The actions of which it is a member.
    pub parents: Set<ActionEntityUID<N>>,
    /// The types of its attributes.
    pub attribute_types: Attributes,
    /// The values of its attributes.
    pub attributes: ValueMap,
    /// Where it is declared.
    pub loc: Option<Loc>,
}

/// The entity types to which an action applies.
#[derive(Debug, Drop)]
pub struct ValidatorApplySpec<N: Ord> {
    /// The types of principals.
    pub principal_apply_spec: Set<N>,
    /// The types of resources.
    pub resource_apply_spec: Set<N>,
}
