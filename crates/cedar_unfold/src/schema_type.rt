// SPDX-License-Identifier: Apache-2.0
use crate::entries::next_entry;
use crate::node::{Looked, TypeNode};
use crate::steps::Steps;
use cedar_data::{Near, Text};
use cedar_names::InternalName;
use cedar_schema_error::{SchemaType, TypeVariant};
use std::sync::ledger::Ledger;

impl TypeNode for SchemaType<InternalName> {
    ghost use Rattle.cedar_names.specs.Components.{components};
    ghost use Rattle.cedar_unfolding.specs.WrittenViews.{written_type};

    ghost written = { written_type components };

    fn look<L: Ledger>(&self, steps: &mut Steps<L>) -> Looked<'_, SchemaType<InternalName>> {
        steps.tick();
        match self {
            SchemaType::CommonTypeRef { type_name, .. } => Looked::Common(type_name),
            SchemaType::Variant { ty, .. } => match ty {
                TypeVariant::String => Looked::String,
                TypeVariant::Long => Looked::Long,
                TypeVariant::Boolean => Looked::Bool,
                TypeVariant::Set { element } => Looked::Set(element.get()),
                TypeVariant::Record(fields) => Looked::Record {
                    is_open: fields.additional_attributes,
                },
                TypeVariant::Entity { name } => Looked::Entity(name),
                TypeVariant::EntityOrCommon { type_name } => Looked::EntityOrCommon(type_name),
                TypeVariant::Extension { name } => Looked::Extension(name),
            },
        }
    }

    fn next_attribute(
        &self,
        near: &mut Near,
        after: Option<&Text>,
    ) -> Option<(&Text, &SchemaType<InternalName>, bool)> {
        let SchemaType::Variant { ty, .. } = self else {
            unreachable!()
        };
        let TypeVariant::Record(fields) = ty else {
            unreachable!()
        };
        match next_entry(&fields.attributes, near, after) {
            Some((name, attribute)) => Some((name, &attribute.ty, attribute.required)),
            None => None,
        }
    }

    fn room(&self) -> usize {
        match self {
            SchemaType::Variant { ty, .. } => match ty {
                TypeVariant::Record(fields) => fields.attributes.len(),
                _ => 0,
            },
            SchemaType::CommonTypeRef { .. } => 0,
        }
    }
}
