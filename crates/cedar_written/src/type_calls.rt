// SPDX-License-Identifier: Apache-2.0
ghost use Rattle.std.specs.Prelude.{◌≡◌, ◌↔◌, None, IsTrue};
ghost use Rattle.std.specs.Option.{option_copied};
ghost use Rattle.cedar_print.specs.of_data.Maps.{map_values};
ghost use Rattle.cedar_written.specs.WrittenTypes.{IsEmptyRecord, IsEmptyType, any_extension, attribute_extension, empty_record, place_of_type, record_extension, type_at, type_extension, variant_extension};
ghost use Rattle.cedar_written.specs.declared.ty.SchemaType.TheVariants as type;

use crate::ty::{RecordType, SchemaType, TypeOfAttribute, TypeVariant};
use cedar_print::{Loc, Map, Text};
use std::alloc::Global;

impl<N> RecordType<N> {
    /// The type of records without attributes.
    pub fn empty(alloc: Global) -> RecordType<N>
        ensures { result ≡ empty_record }
    {
        RecordType {
            attributes: Map::new(alloc),
            additional_attributes: false,
        }
    }

    /// Whether it is closed and has no attribute.
    pub fn is_empty_record(&self) -> bool
        ensures { IsTrue result ↔ IsEmptyRecord self.now }
    {
        self.attributes.is_empty() && !self.additional_attributes
    }
}

impl<N> SchemaType<N> {
    /// The type of this kind, with no place.
    pub fn from_variant(ty: TypeVariant<N>) -> SchemaType<N>
        ensures { result ≡ type.Variant ty None }
    {
        SchemaType::Variant { ty, loc: None }
    }

    /// Whether it is a closed record without attributes.
    pub fn is_empty_record(&self) -> bool
        ensures { IsTrue result ↔ IsEmptyType self.now }
    {
        match self {
            SchemaType::Variant {
                ty: TypeVariant::Record(fields),
                loc: _,
            } => fields.is_empty_record(),
            _ => false,
        }
    }

    /// Whether it is an extension type, a set of one, or a record with one. None where that hangs on what a name in it
    /// stands for.
    pub fn is_extension(&self) -> Option<bool>
        ensures { result ≡ type_extension self.now }
    {
        type_is_extension(self)
    }

    /// Where it stands.
    pub fn loc(&self) -> Option<&Loc>
        ensures { option_copied result ≡ place_of_type self.now }
    {
        match self {
            SchemaType::Variant { ty: _, loc } => loc.as_ref(),
            SchemaType::CommonTypeRef { type_name: _, loc } => loc.as_ref(),
        }
    }
}

impl<N: Drop> SchemaType<N> {
    /// The same type at another place.
    pub fn with_loc(self, new_loc: Option<Loc>) -> SchemaType<N>
        ensures { result ≡ type_at self new_loc }
    {
        match self {
            SchemaType::Variant { ty, loc: _ } => SchemaType::Variant { ty, loc: new_loc },
            SchemaType::CommonTypeRef { type_name, loc: _ } => SchemaType::CommonTypeRef {
                type_name,
                loc: new_loc,
            },
        }
    }
}

/// Whether it is an extension type, as far as that is known.
#[cycle(extension)]
fn type_is_extension<N>(ty: &SchemaType<N>) -> Option<bool>
    ensures { result ≡ type_extension ty.now }
{
    match ty {
        SchemaType::Variant { ty, loc: _ } => variant_is_extension(ty),
        SchemaType::CommonTypeRef {
            type_name: _,
            loc: _,
        } => None,
    }
}

/// The same of what kind of type it is.
#[cycle(extension)]
fn variant_is_extension<N>(ty: &TypeVariant<N>) -> Option<bool>
    ensures { result ≡ variant_extension ty.now }
{
    match ty {
        TypeVariant::String => Some(false),
        TypeVariant::Long => Some(false),
        TypeVariant::Boolean => Some(false),
        TypeVariant::Set { element } => type_is_extension(element.get()),
        TypeVariant::Record(fields) => record_is_extension(fields),
        TypeVariant::Entity { name: _ } => Some(false),
        TypeVariant::EntityOrCommon { type_name: _ } => None,
        TypeVariant::Extension { name: _ } => Some(true),
    }
}

/// The same of a record type.
#[cycle(extension)]
fn record_is_extension<N>(fields: &RecordType<N>) -> Option<bool>
    ensures { result ≡ record_extension fields.now }
{
    some_are_extensions(&fields.attributes)
}

/// Whether one of the attributes is an extension type. None where one of them gives none.
#[cycle(extension)]
#[tactic(auto, using(crate::proofs::Found::found))]
fn some_are_extensions<N>(attributes: &Map<Text, TypeOfAttribute<N>>) -> Option<bool>
    ensures { result ≡ any_extension (map_values attribute_extension attributes.now) }
{
    let mut found = false;
    for (_, attribute) in attributes.iter() {
        let is_one = attribute_is_extension(attribute)?;
        found = found || is_one;
    }
    Some(found)
}

/// The same of an attribute.
#[cycle(extension)]
fn attribute_is_extension<N>(attribute: &TypeOfAttribute<N>) -> Option<bool>
    ensures { result ≡ attribute_extension attribute.now }
{
    type_is_extension(&attribute.ty)
}
