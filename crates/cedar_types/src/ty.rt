// SPDX-License-Identifier: Apache-2.0
ghost use Rattle.std.specs.Prelude.{◌≡◌, [], ℕ, List, length, IfOk};
ghost use Rattle.std.specs.Option.{option_copied};
ghost use Rattle.std.specs.Cmp.Lexicographic.{slice_cmp};
ghost use Rattle.std.specs.Ordering.{nat_cmp};
ghost use Rattle.cedar_closure.specs.of_data.Maps.{get_text, is_text, last_value, map_values, IsSortedMap};
ghost use Rattle.cedar_types.specs.Types.{bool_type, long_type, string_type, set_type, record_type, entity_type, extension_type, entries, attributes_of, required, layer, lent};
ghost use Rattle.cedar_types.specs.declared.ty.OpenTag.TheVariants.{OpenAttributes};

use cedar_closure::{Dup, EntityType, Map, MapIter, Mem, Name, Shared, Text};
use std::alloc::Global;

/// A resolved type. Its parts are shared, so that a copy takes no memory but for its names.
#[cycle(ty)]
#[derive(Debug, Drop, PartialEq, Eq)]
pub struct ResolvedType {
    node: TypeNode,
}

#[cycle(ty)]
#[derive(Debug, Drop, PartialEq, Eq)]
enum TypeNode {
    Bool,
    Long,
    String,
    Set(Shared<ResolvedType>),
    Record(Attributes, OpenTag),
    Entity(EntityType),
    Extension(Name),
}

/// The type of an attribute, and whether each record or entity has it.
#[cycle(ty)]
#[derive(Debug, Drop, PartialEq, Eq)]
pub struct AttributeType {
    /// The type of its values.
    pub attr_type: ResolvedType,
    /// Whether each record or entity has it.
    pub is_required: bool,
}

/// The attributes of a record type, in the order of their names. They are shared, so that a copy takes no memory.
#[cycle(ty)]
#[derive(Debug, Drop, PartialEq, Eq)]
pub struct Attributes {
    map: Shared<Map<Text, AttributeType>>,
}

/// Whether a record may have attributes beyond those that its type lists.
#[derive(Clone, Copy, Debug, PartialEq, Eq)]
pub enum OpenTag {
    /// It may have others beside those listed.
    OpenAttributes,
    /// It has only those listed.
    ClosedAttributes,
}

/// Attributes by name, in the order of the names.
pub type AttrIter<'a> = MapIter<'a, Text, AttributeType>;

/// A resolved type with its parts lent.
#[derive(Clone, Copy, Debug)]
pub enum TypeView<'a> {
    /// The type `Bool`.
    Bool,
    /// The type `Long`.
    Long,
    /// The type `String`.
    String,
    /// Sets of elements of this type.
    Set(&'a ResolvedType),
    /// Records with these attributes, and whether they may have others.
    Record(&'a Attributes, OpenTag),
    /// Entities of this entity type.
    Entity(&'a EntityType),
    /// Values of the extension type of this name.
    Extension(&'a Name),
}

impl ResolvedType {
    /// The type `Bool`.
    pub fn primitive_boolean() -> ResolvedType
        ensures { result ≡ bool_type }
    {
        ResolvedType {
            node: TypeNode::Bool,
        }
    }

    /// The type `Long`.
    pub fn primitive_long() -> ResolvedType
        ensures { result ≡ long_type }
    {
        ResolvedType {
            node: TypeNode::Long,
        }
    }

    /// The type `String`.
    pub fn primitive_string() -> ResolvedType
        ensures { result ≡ string_type }
    {
        ResolvedType {
            node: TypeNode::String,
        }
    }

    /// Sets of `element`. It fails only for want of memory, as do the other calls that take an allocator.
    pub fn set(alloc: Global, element: ResolvedType) -> Mem<ResolvedType>
        ensures { IfOk result (λ t. t ≡ set_type element) }
    {
        let element = Shared::new(alloc, element)?;
        Ok(ResolvedType {
            node: TypeNode::Set(element),
        })
    }

    /// Records of the attributes `attrs`, and of others too where `tag` says that they are open.
    pub fn record_with_attributes(
        _alloc: Global,
        attrs: Attributes,
        tag: OpenTag,
    ) -> Mem<ResolvedType>
        ensures { IfOk result (λ t. t ≡ record_type attrs tag) }
    {
        Ok(ResolvedType {
            node: TypeNode::Record(attrs, tag),
        })
    }

    /// Records of any attributes.
    pub fn any_record(alloc: Global) -> Mem<ResolvedType>
        ensures { IfOk result (λ t. t ≡ record_type (attributes_of []) OpenAttributes) }
    {
        let attrs = Attributes::none(alloc)?;
        ResolvedType::record_with_attributes(alloc, attrs, OpenTag::OpenAttributes)
    }

    /// The entities of the type `ty`.
    pub fn named_entity_reference(ty: EntityType) -> ResolvedType
        ensures { result ≡ entity_type ty }
    {
        ResolvedType {
            node: TypeNode::Entity(ty),
        }
    }

    /// The extension type `name`.
    pub fn extension(name: Name) -> ResolvedType
        ensures { result ≡ extension_type name }
    {
        ResolvedType {
            node: TypeNode::Extension(name),
        }
    }

    /// What kind of type it is, with its parts lent.
    pub fn view(&self) -> TypeView<'_>
        ensures { lent result ≡ layer self.now }
    {
        match &self.node {
            TypeNode::Bool => TypeView::Bool,
            TypeNode::Long => TypeView::Long,
            TypeNode::String => TypeView::String,
            TypeNode::Set(element) => TypeView::Set(element.get()),
            TypeNode::Record(attrs, tag) => TypeView::Record(attrs, *tag),
            TypeNode::Entity(ty) => TypeView::Entity(ty),
            TypeNode::Extension(name) => TypeView::Extension(name),
        }
    }
}

impl Attributes {
    /// The attributes of the list. Of several pairs of one name, the last counts. It fails only for want of memory.
    pub fn with_attributes(alloc: Global, list: Vec<(Text, AttributeType)>) -> Mem<Attributes>
        ensures values { IfOk result (λ attrs. (name : List ℕ) → get_text (entries attrs) name
            ≡ last_value (is_text name) list.items) }
        ensures ordered { IfOk result (λ attrs. IsSortedMap (slice_cmp nat_cmp) (entries attrs)) }
    {
        let map = Map::from_pairs(alloc, list)?;
        Attributes::from_map(alloc, map)
    }

    /// The attributes of the list, all of them required. Of several pairs of one name, the last counts. It fails only
    /// for want of memory.
    pub fn with_required_attributes(
        alloc: Global,
        list: Vec<(Text, ResolvedType)>,
    ) -> Mem<Attributes>
        ensures values { IfOk result (λ attrs. (name : List ℕ) → get_text (entries attrs) name
            ≡ last_value (is_text name) (map_values required list.items)) }
        ensures ordered { IfOk result (λ attrs. IsSortedMap (slice_cmp nat_cmp) (entries attrs)) }
    {
        let mut map = Map::new(alloc);
        for (name, attr_type) in list {
            let attribute = AttributeType {
                attr_type,
                is_required: true,
            };
            map.put(name, attribute)?;
        }
        Attributes::from_map(alloc, map)
    }

    /// No attributes. It fails only for want of memory.
    pub fn none(alloc: Global) -> Mem<Attributes>
        ensures { IfOk result (λ attrs. attrs ≡ attributes_of []) }
    {
        Attributes::from_map(alloc, Map::new(alloc))
    }

    /// The attributes of a map. It fails only for want of memory.
    pub fn from_map(alloc: Global, map: Map<Text, AttributeType>) -> Mem<Attributes>
        ensures { IfOk result (λ attrs. attrs ≡ attributes_of map) }
    {
        let map = Shared::new(alloc, map)?;
        Ok(Attributes { map })
    }

    /// The attribute with the bytes of `name`, if there is one.
    pub fn get_attr(&self, name: &str) -> Option<&AttributeType>
        ensures { option_copied result ≡ get_text (entries self.now) name.now }
    {
        self.map.get().get_text(name)
    }

    /// The attribute of this name, if there is one, found by a search in the order of the names.
    pub fn find(&self, name: &Text) -> Option<&AttributeType>
        ensures { option_copied result ≡ get_text (entries self.now) name.now }
    {
        self.map.get().get(name)
    }

    /// How many attributes there are.
    pub fn len(&self) -> usize
        ensures { result ≡ length (entries self.now) }
    {
        self.map.get().len()
    }

    /// The attributes by name, in the order of the names.
    pub fn iter(&self) -> AttrIter<'_>
        ensures rest { result ≡ entries self.now }
        ensures ordered { IsSortedMap (slice_cmp nat_cmp) (entries self.now) }
    {
        self.map.get().iter()
    }
}

impl Dup for OpenTag {
    fn dup(&self, _alloc: Global) -> Mem<OpenTag> {
        Ok(*self)
    }
}

impl Dup for TypeNode {
    fn dup(&self, alloc: Global) -> Mem<TypeNode> {
        match self {
            TypeNode::Bool => Ok(TypeNode::Bool),
            TypeNode::Long => Ok(TypeNode::Long),
            TypeNode::String => Ok(TypeNode::String),
            TypeNode::Set(element) => Ok(TypeNode::Set(element.dup(alloc)?)),
            TypeNode::Record(attrs, tag) => Ok(TypeNode::Record(attrs.dup(alloc)?, *tag)),
            TypeNode::Entity(ty) => Ok(TypeNode::Entity(ty.dup(alloc)?)),
            TypeNode::Extension(name) => Ok(TypeNode::Extension(name.dup(alloc)?)),
        }
    }
}

impl Dup for ResolvedType {
    fn dup(&self, alloc: Global) -> Mem<ResolvedType> {
        let node = self.node.dup(alloc)?;
        Ok(ResolvedType { node })
    }
}

impl Dup for AttributeType {
    fn dup(&self, alloc: Global) -> Mem<AttributeType> {
        let attr_type = self.attr_type.dup(alloc)?;
        Ok(AttributeType {
            attr_type,
            is_required: self.is_required,
        })
    }
}

impl Dup for Attributes {
    fn dup(&self, alloc: Global) -> Mem<Attributes> {
        let map = self.map.dup(alloc)?;
        Ok(Attributes { map })
    }
}
