// SPDX-License-Identifier: Apache-2.0
ghost use Rattle.cedar_written.specs.Answers.{Answers};
ghost use Rattle.cedar_written.specs.Through.{through_type, through_variant, through_record, through_attribute, through_attributes};

use crate::reference_type::ReferenceType;
use crate::step::Step;
use crate::ty::{RecordType, SchemaType, TypeOfAttribute, TypeVariant};
use cedar_print::{Boxed, Map, Out, Text};
use std::alloc::Global;

/// The type with what comes of each name in its place, or the first refusal.
#[cycle(walk)]
#[tactic(auto, using(crate::proofs::Goes::goes))]
pub(crate) fn walk_type<N: Drop, S: Step<N>>(
    alloc: Global,
    step: &S,
    ty: SchemaType<N>,
) -> Out<SchemaType<S::Made>, S::Refusal>
    ensures { Answers result (through_type (S.step step.now) ty) }
{
    match ty {
        SchemaType::Variant { ty, loc } => {
            let ty = walk_variant(alloc, step, ty)?;
            Ok(SchemaType::Variant { ty, loc })
        }
        SchemaType::CommonTypeRef { type_name, loc } => {
            let type_name = step.go(alloc, ReferenceType::Common, type_name)?;
            Ok(SchemaType::CommonTypeRef { type_name, loc })
        }
    }
}

/// The same of what kind of type it is.
#[cycle(walk)]
#[tactic(auto, using(crate::proofs::Goes::goes))]
pub(crate) fn walk_variant<N: Drop, S: Step<N>>(
    alloc: Global,
    step: &S,
    ty: TypeVariant<N>,
) -> Out<TypeVariant<S::Made>, S::Refusal>
    ensures { Answers result (through_variant (S.step step.now) ty) }
{
    match ty {
        TypeVariant::String => Ok(TypeVariant::String),
        TypeVariant::Long => Ok(TypeVariant::Long),
        TypeVariant::Boolean => Ok(TypeVariant::Boolean),
        TypeVariant::Set { element } => {
            let element = walk_type(alloc, step, element.into_inner())?;
            let element = Boxed::new(alloc, element)?;
            Ok(TypeVariant::Set { element })
        }
        TypeVariant::Record(fields) => {
            let fields = walk_record(alloc, step, fields)?;
            Ok(TypeVariant::Record(fields))
        }
        TypeVariant::Entity { name } => {
            let name = step.go(alloc, ReferenceType::Entity, name)?;
            Ok(TypeVariant::Entity { name })
        }
        TypeVariant::EntityOrCommon { type_name } => {
            let type_name = step.go(alloc, ReferenceType::CommonOrEntity, type_name)?;
            Ok(TypeVariant::EntityOrCommon { type_name })
        }
        TypeVariant::Extension { name } => Ok(TypeVariant::Extension { name }),
    }
}

/// The same of a record type.
#[cycle(walk)]
#[tactic(auto, using(crate::proofs::Goes::goes))]
pub(crate) fn walk_record<N: Drop, S: Step<N>>(
    alloc: Global,
    step: &S,
    fields: RecordType<N>,
) -> Out<RecordType<S::Made>, S::Refusal>
    ensures { Answers result (through_record (S.step step.now) fields) }
{
    let RecordType {
        attributes,
        additional_attributes,
    } = fields;
    let attributes = walk_attributes(alloc, step, attributes)?;
    Ok(RecordType {
        attributes,
        additional_attributes,
    })
}

/// The same of attributes by name.
#[cycle(walk)]
#[tactic(auto, using(crate::proofs::Goes::goes))]
fn walk_attributes<N: Drop, S: Step<N>>(
    alloc: Global,
    step: &S,
    attributes: Map<Text, TypeOfAttribute<N>>,
) -> Out<Map<Text, TypeOfAttribute<S::Made>>, S::Refusal>
    ensures { Answers result (through_attributes (S.step step.now) attributes) }
{
    let mut made = Map::with_room(alloc, attributes.len())?;
    for (name, attribute) in attributes.into_entries() {
        let attribute = walk_attribute(alloc, step, attribute)?;
        made.push_last(name, attribute)?;
    }
    Ok(made)
}

/// The same of an attribute.
#[cycle(walk)]
#[tactic(auto, using(crate::proofs::Goes::goes))]
pub(crate) fn walk_attribute<N: Drop, S: Step<N>>(
    alloc: Global,
    step: &S,
    attribute: TypeOfAttribute<N>,
) -> Out<TypeOfAttribute<S::Made>, S::Refusal>
    ensures { Answers result (through_attribute (S.step step.now) attribute) }
{
    let TypeOfAttribute {
        ty,
        annotations,
        required,
    } = attribute;
    let ty = walk_type(alloc, step, ty)?;
    Ok(TypeOfAttribute {
        ty,
        annotations,
        required,
    })
}
