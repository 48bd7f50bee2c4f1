// SPDX-License-Identifier: Apache-2.0
ghost use Rattle.std.specs.Prelude.{◌≡◌, ◌↔◌, None, IsTrue};
ghost use Rattle.std.specs.Option.{option_copied};
ghost use Rattle.cedar_fragment.specs.Shapes.{shape_of, type_of_shape};
ghost use Rattle.cedar_written.specs.WrittenTypes.{IsEmptyType, empty_record, place_of_type};
ghost use Rattle.cedar_written.specs.declared.ty.SchemaType.TheVariants as type;
ghost use Rattle.cedar_written.specs.declared.ty.TypeVariant.TheVariants as variant;

use cedar_json_fault::{RecordType, SchemaType, TypeVariant};
use cedar_types::{Dup, Loc, Mem};
use std::alloc::Global;

/// The shape of an entity type, or the context of an action: a type, which has to be one of records in the end.
#[derive(Debug, Drop, PartialEq, Eq, PartialOrd, Ord)]
pub struct AttributesOrContext<N>(pub SchemaType<N>);

impl<N> AttributesOrContext<N> {
    /// The type, by value. It takes no memory.
    pub fn into_inner(self) -> SchemaType<N>
        ensures { result ≡ type_of_shape self }
    {
        let AttributesOrContext(ty) = self;
        ty
    }

    /// Whether it is a closed record without attributes.
    pub fn is_empty_record(&self) -> bool
        ensures { IsTrue result ↔ IsEmptyType (type_of_shape self.now) }
    {
        self.0.is_empty_record()
    }

    /// Where it stands.
    pub fn loc(&self) -> Option<&Loc>
        ensures { option_copied result ≡ place_of_type (type_of_shape self.now) }
    {
        self.0.loc()
    }

    /// The closed record without attributes, with no place.
    pub fn empty(alloc: Global) -> AttributesOrContext<N>
        ensures { result ≡ shape_of (type.Variant (variant.Record empty_record) None) }
    {
        AttributesOrContext::from_record(RecordType::empty(alloc))
    }

    /// The record, with no place.
    pub fn from_record(r: RecordType<N>) -> AttributesOrContext<N>
        ensures { result ≡ shape_of (type.Variant (variant.Record r) None) }
    {
        AttributesOrContext(SchemaType::from_variant(TypeVariant::Record(r)))
    }
}

impl<N: Dup + Drop> Dup for AttributesOrContext<N> {
    fn dup(&self, alloc: Global) -> Mem<AttributesOrContext<N>> {
        let ty = self.0.dup(alloc)?;
        Ok(AttributesOrContext(ty))
    }
}
