// SPDX-License-Identifier: Apache-2.0
ghost use Rattle.std.specs.Prelude.{◌≡◌, None, IfOk};
ghost use Rattle.std.specs.Option.{option_copied};
ghost use Rattle.cedar_data.specs.Sets.{contains, set_of};
ghost use Rattle.cedar_names.specs.Names.{entity_cmp};
ghost use Rattle.cedar_data.specs.Maps.{get_text};
ghost use Rattle.cedar_types.specs.Types.{entries};
ghost use Rattle.cedar_resolved.specs.Kinds.{enum_kind, kind_open, kind_tags, standard_kind};
ghost use Rattle.cedar_resolved.specs.Schemas.{no_attributes, type_attributes, type_name};

use crate::kind::{StandardValidatorEntityType, ValidatorEntityTypeKind};
use crate::sets::set_of;
use cedar_data::{Dup, Mem, Set, SetIter, Text, dup_three, dup_two};
use cedar_names::{EntityType, Loc, NonEmpty};
use cedar_types::{AttributeType, Attributes, OpenTag, TcNode, Type};
use std::alloc::Global;

/// An entity type of a schema.
#[derive(Debug, Drop)]
pub struct ValidatorEntityType {
    name: EntityType,
    /// The entity types that descend from it.
    pub descendants: Set<EntityType>,
    attributes: Attributes,
    /// Whether it lists its entities, or gives them attributes and tags.
    pub kind: ValidatorEntityTypeKind,
    /// Where it is declared.
    pub loc: Option<Loc>,
}

impl ValidatorEntityType {
    /// The entity type of this name with these descendants, whose entities have these attributes and tags. It fails
    /// only for want of memory.
    pub fn new_standard(
        alloc: Global,
        name: EntityType,
        descendants: Vec<EntityType>,
        attributes: Attributes,
        open_attributes: OpenTag,
        tags: Option<Type>,
        loc: Option<Loc>,
    ) -> Mem<ValidatorEntityType>
        ensures name { IfOk result (λ ty. type_name ty ≡ name) }
        ensures descendants { IfOk result (λ ty. ty.descendants
            ≡ set_of entity_cmp descendants.items) }
        ensures attributes { IfOk result (λ ty. type_attributes ty ≡ attributes) }
        ensures kind { IfOk result (λ ty. ty.kind ≡ standard_kind open_attributes tags) }
        ensures loc { IfOk result (λ ty. ty.loc ≡ loc) }
    {
        let descendants = set_of(alloc, descendants)?;
        let kind = ValidatorEntityTypeKind::Standard(StandardValidatorEntityType::of(
            open_attributes,
            tags,
        ));
        Ok(ValidatorEntityType::from_parts(name, descendants, attributes, kind, loc))
    }

    /// The entity type of this name with these descendants, whose entities are those of these ids. It fails only for
    /// want of memory.
    pub fn new_enum(
        alloc: Global,
        name: EntityType,
        descendants: Vec<EntityType>,
        values: NonEmpty<Text>,
        loc: Option<Loc>,
    ) -> Mem<ValidatorEntityType>
        ensures name { IfOk result (λ ty. type_name ty ≡ name) }
        ensures descendants { IfOk result (λ ty. ty.descendants
            ≡ set_of entity_cmp descendants.items) }
        ensures attributes { IfOk result (λ ty. type_attributes ty ≡ no_attributes) }
        ensures kind { IfOk result (λ ty. ty.kind ≡ enum_kind values) }
        ensures loc { IfOk result (λ ty. ty.loc ≡ loc) }
    {
        let descendants = set_of(alloc, descendants)?;
        let attributes = Attributes::none(alloc)?;
        let kind = ValidatorEntityTypeKind::Enum(values);
        Ok(ValidatorEntityType::from_parts(name, descendants, attributes, kind, loc))
    }

    /// The entity type of these parts.
    pub fn from_parts(
        name: EntityType,
        descendants: Set<EntityType>,
        attributes: Attributes,
        kind: ValidatorEntityTypeKind,
        loc: Option<Loc>,
    ) -> ValidatorEntityType
        ensures name { type_name result ≡ name }
        ensures descendants { result.descendants ≡ descendants }
        ensures attributes { type_attributes result ≡ attributes }
        ensures kind { result.kind ≡ kind }
        ensures loc { result.loc ≡ loc }
    {
        ValidatorEntityType {
            name,
            descendants,
            attributes,
            kind,
            loc,
        }
    }

    /// The name of the entity type.
    pub fn name(&self) -> &EntityType
        ensures { result.now ≡ type_name self.now }
    {
        &self.name
    }

    /// The attributes that it was made with, whatever its `kind` is now. One made by `new_enum` has none.
    pub fn attributes(&self) -> &Attributes
        ensures { result.now ≡ type_attributes self.now }
    {
        &self.attributes
    }

    /// The attribute of this name, if there is one.
    pub fn attr(&self, attr: &str) -> Option<&AttributeType>
        ensures { option_copied result ≡ get_text (entries (type_attributes self.now)) attr.now }
    {
        self.attributes.get_attr(attr)
    }

    /// Whether the entity type descends from it.
    pub fn has_descendant_entity_type(&self, ety: &EntityType) -> bool
        ensures { result ≡ contains entity_cmp self.now.descendants ety.now }
    {
        self.descendants.contains(ety)
    }

    /// Whether its entities may have attributes beyond those listed; never where it lists its entities.
    pub fn open_attributes(&self) -> OpenTag
        ensures { result ≡ kind_open self.now.kind }
    {
        match &self.kind {
            ValidatorEntityTypeKind::Standard(standard) => standard.open_attributes(),
            ValidatorEntityTypeKind::Enum(_) => OpenTag::ClosedAttributes,
        }
    }

    /// The type of the tags of its entities, if they may have any; none where it lists its entities.
    pub fn tag_type(&self) -> Option<&Type>
        ensures { option_copied result ≡ kind_tags self.now.kind }
    {
        match &self.kind {
            ValidatorEntityTypeKind::Standard(standard) => standard.tag_type(),
            ValidatorEntityTypeKind::Enum(_) => None,
        }
    }
}

impl TcNode<EntityType> for ValidatorEntityType {
    ghost use Rattle.std.specs.Prelude.{[]};
    ghost use Rattle.cedar_resolved.specs.NodeLaws.{type_whole};
    ghost use Rattle.cedar_resolved.specs.Schemas.{type_name, type_with};

    ghost key = { type_name };

    ghost edges = { λ ty. ty.descendants };

    ghost rest = { type_with [] };

    ghost whole = { type_whole };

    fn get_key(&self) -> &EntityType {
        &self.name
    }

    fn add_edge_to(&mut self, k: EntityType) -> Mem<()> {
        self.descendants.insert(k)?;
        Ok(())
    }

    fn has_edge_to(&self, k: &EntityType) -> bool {
        self.descendants.contains(k)
    }

    fn out_edges(&self) -> SetIter<'_, EntityType> {
        self.descendants.iter()
    }
}

impl Dup for ValidatorEntityType {
    fn dup(&self, alloc: Global) -> Mem<ValidatorEntityType> {
        let (name, descendants) = dup_two(alloc, &self.name, &self.descendants)?;
        let (attributes, kind, loc) = dup_three(alloc, &self.attributes, &self.kind, &self.loc)?;
        Ok(ValidatorEntityType::from_parts(name, descendants, attributes, kind, loc))
    }
}
