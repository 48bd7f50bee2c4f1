// SPDX-License-Identifier: Apache-2.0
use crate::action_uid::ActionEntityUID;
use crate::attributes_or_context::AttributesOrContext;
use cedar_json_fault::{CommonTypeId, RefName, SchemaType};
use cedar_types::{Annotations, Items, Loc, Map, Name, NonEmpty, Text, UnreservedId, ValueMap};

/// A schema over names `N`: the definitions of its namespaces, those of the unnamed one first.
#[derive(Debug, Drop, PartialEq, Eq)]
pub struct Fragment<N: RefName>(pub Map<Option<Name>, NamespaceDefinition<N>>);

/// The definitions of a namespace.
#[derive(Debug, Drop, PartialEq, Eq)]
pub struct NamespaceDefinition<N: RefName> {
    /// The common types.
    pub common_types: Map<CommonTypeId, CommonType<N>>,
    /// The entity types.
    pub entity_types: Map<UnreservedId, EntityType<N>>,
    /// The actions.
    pub actions: Map<Text, ActionType<N>>,
    /// What is said of the namespace.
    pub annotations: Annotations,
}

/// A common type. Comparisons leave its place out, as on all structures here.
#[derive(Debug, Drop)]
#[derive_where(PartialEq, Eq; N)]
pub struct CommonType<N> {
    /// The type that its name stands for.
    pub ty: SchemaType<N>,
    /// What is said of it.
    pub annotations: Annotations,
    /// Where it is declared.
    #[derive_where(skip(EqHashOrd))]
    pub loc: Option<Loc>,
}

/// An entity type.
#[derive(Debug, Drop)]
#[derive_where(PartialEq, Eq; N)]
pub struct EntityType<N> {
    /// Of what kind it is.
    pub kind: EntityTypeKind<N>,
    /// What is said of it.
    pub annotations: Annotations,
    /// Where it is declared.
    #[derive_where(skip(EqHashOrd))]
    pub loc: Option<Loc>,
}

/// What kind of entity type it is.
#[derive(Debug, Drop, PartialEq, Eq)]
pub enum EntityTypeKind<N> {
    /// One whose entities have attributes, and any ids.
    Standard(StandardEntityType<N>),
    /// One whose entities are listed.
    Enum {
        /// The ids of the entities.
        choices: NonEmpty<Text>,
    },
}

/// An entity type whose entities have attributes.
#[derive(Debug, Drop, PartialEq, Eq)]
pub struct StandardEntityType<N> {
    /// The types of which its entities may be members.
    pub member_of_types: Items<N>,
    /// The attributes of an entity.
    pub shape: AttributesOrContext<N>,
    /// The type of the tags of an entity, if it may have some.
    pub tags: Option<SchemaType<N>>,
}

/// An action.
#[derive(Debug, Drop)]
#[derive_where(PartialEq, Eq; N)]
pub struct ActionType<N: RefName> {
    /// The attributes of the action.
    pub attributes: Option<ValueMap>,
    /// What it applies to.
    pub applies_to: Option<ApplySpec<N>>,
    /// The actions of which it is a member.
    pub member_of: Option<Items<ActionEntityUID<N>>>,
    /// What is said of it.
    pub annotations: Annotations,
    /// Where it is declared.
    #[derive_where(skip(EqHashOrd))]
    pub loc: Option<Loc>,
}

/// What an action applies to.
#[derive(Debug, Drop, PartialEq, Eq)]
pub struct ApplySpec<N> {
    /// The entity types of the resources.
    pub resource_types: Items<N>,
    /// The entity types of the principals.
    pub principal_types: Items<N>,
    /// The context of a request.
    pub context: AttributesOrContext<N>,
}
