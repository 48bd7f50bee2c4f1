// SPDX-License-Identifier: Apache-2.0
use cedar_print::{Annotations, Boxed, Loc, Map, Text, UnreservedId};

/// A type over names `N`. Comparisons leave the place out.
#[cycle(ty)]
#[derive(Debug, Drop)]
#[derive_where(PartialEq, Eq, PartialOrd, Ord; N)]
pub enum SchemaType<N> {
    /// A type that is written out.
    Variant {
        /// What kind of type it is.
        ty: TypeVariant<N>,
        /// Where it stands.
        #[derive_where(skip(EqHashOrd))]
        loc: Option<Loc>,
    },
    /// A common type, by its name.
    CommonTypeRef {
        /// The name.
        type_name: N,
        /// Where it stands.
        #[derive_where(skip(EqHashOrd))]
        loc: Option<Loc>,
    },
}

/// What kind of type it is.
#[cycle(ty)]
#[derive(Debug, Drop, PartialEq, Eq, PartialOrd, Ord)]
pub enum TypeVariant<N> {
    /// Texts.
    String,
    /// Whole numbers of 64 bits, with a sign.
    Long,
    /// True or false.
    Boolean,
    /// Sets.
    Set {
        /// The type of the elements.
        element: Boxed<SchemaType<N>>,
    },
    /// Records.
    Record(RecordType<N>),
    /// Entities of a type.
    Entity {
        /// The name of the entity type.
        name: N,
    },
    /// Entities of a type, or a common type.
    EntityOrCommon {
        /// The name of the type.
        type_name: N,
    },
    /// Values of an extension type.
    Extension {
        /// The name of the extension type.
        name: UnreservedId,
    },
}

/// The type of records.
#[cycle(ty)]
#[derive(Debug, Drop, PartialEq, Eq, PartialOrd, Ord)]
pub struct RecordType<N> {
    /// The attributes, in the order of their names.
    pub attributes: Map<Text, TypeOfAttribute<N>>,
    /// Whether a record may have others.
    pub additional_attributes: bool,
}

/// The type of an attribute.
#[cycle(ty)]
#[derive(Debug, Drop, PartialEq, Eq, PartialOrd, Ord)]
pub struct TypeOfAttribute<N> {
    /// The type of its values.
    pub ty: SchemaType<N>,
    /// What is said of it.
    pub annotations: Annotations,
    /// Whether each record has it.
    pub required: bool,
}
