// SPDX-License-Identifier: Apache-2.0
ghost use Rattle.std.specs.Prelude.{◌≡◌, IfOk};

use crate::ty::{RecordType, SchemaType, TypeOfAttribute, TypeVariant};
use cedar_print::{Boxed, Dup, Map, Mem, Text};
use std::alloc::Global;

impl<N: Dup + Drop> Dup for SchemaType<N> {
    #[cycle(dup)]
    fn dup(&self, alloc: Global) -> Mem<SchemaType<N>> {
        match self {
            SchemaType::Variant { ty, loc } => {
                let ty = ty.dup(alloc)?;
                let loc = loc.dup(alloc)?;
                Ok(SchemaType::Variant { ty, loc })
            }
            SchemaType::CommonTypeRef { type_name, loc } => {
                let type_name = type_name.dup(alloc)?;
                let loc = loc.dup(alloc)?;
                Ok(SchemaType::CommonTypeRef { type_name, loc })
            }
        }
    }
}

impl<N: Dup + Drop> Dup for TypeVariant<N> {
    #[cycle(dup)]
    fn dup(&self, alloc: Global) -> Mem<TypeVariant<N>> {
        match self {
            TypeVariant::String => Ok(TypeVariant::String),
            TypeVariant::Long => Ok(TypeVariant::Long),
            TypeVariant::Boolean => Ok(TypeVariant::Boolean),
            TypeVariant::Set { element } => {
                let element = element.get().dup(alloc)?;
                let element = Boxed::new(alloc, element)?;
                Ok(TypeVariant::Set { element })
            }
            TypeVariant::Record(fields) => {
                let fields = fields.dup(alloc)?;
                Ok(TypeVariant::Record(fields))
            }
            TypeVariant::Entity { name } => {
                let name = name.dup(alloc)?;
                Ok(TypeVariant::Entity { name })
            }
            TypeVariant::EntityOrCommon { type_name } => {
                let type_name = type_name.dup(alloc)?;
                Ok(TypeVariant::EntityOrCommon { type_name })
            }
            TypeVariant::Extension { name } => {
                let name = name.dup(alloc)?;
                Ok(TypeVariant::Extension { name })
            }
        }
    }
}

impl<N: Dup + Drop> Dup for RecordType<N> {
    #[cycle(dup)]
    fn dup(&self, alloc: Global) -> Mem<RecordType<N>> {
        let attributes = dup_attributes(alloc, &self.attributes)?;
        Ok(RecordType {
            attributes,
            additional_attributes: self.additional_attributes,
        })
    }
}

impl<N: Dup + Drop> Dup for TypeOfAttribute<N> {
    #[cycle(dup)]
    fn dup(&self, alloc: Global) -> Mem<TypeOfAttribute<N>> {
        let ty = self.ty.dup(alloc)?;
        let annotations = self.annotations.dup(alloc)?;
        Ok(TypeOfAttribute {
            ty,
            annotations,
            required: self.required,
        })
    }
}

/// A copy of attributes by name.
#[cycle(dup)]
fn dup_attributes<N: Dup + Drop>(
    alloc: Global,
    attributes: &Map<Text, TypeOfAttribute<N>>,
) -> Mem<Map<Text, TypeOfAttribute<N>>>
    ensures { IfOk result (λ copy. copy ≡ attributes.now) }
{
    let mut copies = Map::with_room(alloc, attributes.len())?;
    for (name, attribute) in attributes.iter() {
        let name = name.dup(alloc)?;
        let attribute = attribute.dup(alloc)?;
        copies.push_last(name, attribute)?;
    }
    Ok(copies)
}
