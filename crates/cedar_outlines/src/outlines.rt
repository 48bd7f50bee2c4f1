// SPDX-License-Identifier: Apache-2.0
use cedar_data::{Map, Set, Text};
use cedar_declared::{ActionEntityUID, UsePlace, ValidatorApplySpec};
use cedar_names::{EntityType, EntityUID, InternalName};
use cedar_text::{Loc, NonEmpty};
use cedar_types::{Attributes, ValueMap};
use cedar_written::{ConditionalName, SchemaType};

/// An entity type without its types.
#[derive(Debug, Drop)]
pub struct EntityOutline {
    /// The types of which its entities may be members.
    pub parents: Set<ConditionalName>,
    /// The ids of its entities, where they are listed.
    pub choices: Option<NonEmpty<Text>>,
    /// Where it is declared.
    pub loc: Option<Loc>,
}

/// An action without the type of its context.
#[derive(Debug, Drop)]
pub struct ActionOutline {
    /// The actions of which it is a member.
    pub parents: Set<ActionEntityUID<ConditionalName>>,
    /// The entity types to which it applies.
    pub applies_to: ValidatorApplySpec<ConditionalName>,
    /// The types of its attributes.
    pub attribute_types: Attributes,
    /// The values of its attributes.
    pub attributes: ValueMap,
    /// Where it is declared.
    pub loc: Option<Loc>,
}

/// Definitions taken apart: the types by themselves, and what is left without them.
#[derive(Debug, Drop)]
pub struct Tables {
    /// The common types by name.
    pub common_types: Map<InternalName, SchemaType<ConditionalName>>,
    /// The types of shapes, of tags and of contexts, by where they are used.
    pub uses: Map<UsePlace, SchemaType<ConditionalName>>,
    /// The entity types by name.
    pub entity_types: Map<EntityType, EntityOutline>,
    /// The actions by id.
    pub actions: Map<EntityUID, ActionOutline>,
}
