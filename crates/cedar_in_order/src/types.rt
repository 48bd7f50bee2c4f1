// SPDX-License-Identifier: Apache-2.0
ghost use Rattle.cedar_data.specs.Maps.{IsSortedMap, map_values};
ghost use Rattle.cedar_names.specs.Order.{word_cmp};
ghost use Rattle.cedar_tree.specs.Meanings.{annotations_tree};
ghost use Rattle.cedar_convert_fragment.specs.Fragments.{fields};
ghost use Rattle.cedar_convert_fragment.specs.Views.{attribute_seen, form_seen, type_seen};
ghost use Rattle.cedar_in_order.specs.InOrder.{FieldsInOrder, FormInOrder, InOrder, TypeInOrder};

use cedar_data::{Map, Text};
use cedar_fragment::{RawName, SchemaType, TypeOfAttribute, TypeVariant};
use cedar_names::Annotations;

/// A law: annotations stand in the order of their keys. It changes nothing when it runs.
#[tactic(auto, using(crate::proofs::TypesSeen::notes_in_order))]
pub(crate) fn annotations_in_order(annotations: &Annotations)
    ensures { InOrder (annotations_tree annotations.now) }
{
    let _entries = annotations.iter();
}

/// A law: in each record in the type the attributes stand in the order of their names, and the annotations of each in
/// that of their keys. It changes nothing when it runs.
#[cycle(types)]
#[tactic(auto, using(crate::proofs::TypesSeen::type_layers))]
pub(crate) fn type_in_order(ty: &SchemaType<RawName>)
    ensures { TypeInOrder (type_seen ty.now) }
{
    match ty {
        SchemaType::Variant { ty, loc: _ } => form_in_order(ty),
        SchemaType::CommonTypeRef {
            type_name: _,
            loc: _,
        } => (),
    }
}

/// The same of a type that is written out.
#[cycle(types)]
#[tactic(auto, using(crate::proofs::TypesSeen::type_layers))]
fn form_in_order(variant: &TypeVariant<RawName>)
    ensures { FormInOrder (form_seen variant.now) }
{
    match variant {
        TypeVariant::Set { element } => type_in_order(element.get()),
        TypeVariant::Record(fields) => attributes_in_order(&fields.attributes),
        _ => (),
    }
}

/// The same of attributes.
#[cycle(types)]
#[tactic(auto, using(crate::proofs::TypesSeen::each_attribute))]
fn attributes_in_order(attributes: &Map<Text, TypeOfAttribute<RawName>>)
    ensures names { IsSortedMap word_cmp attributes.now }
    ensures each { FieldsInOrder (fields (map_values attribute_seen attributes.now)) }
{
    for (_, attribute) in attributes.iter() {
        attribute_in_order(attribute);
    }
}

/// The same of an attribute.
#[cycle(types)]
#[tactic(auto, using(crate::proofs::TypesSeen::type_layers))]
fn attribute_in_order(attribute: &TypeOfAttribute<RawName>)
    ensures annotations { InOrder (attribute_seen attribute.now).annotations }
    ensures ty { TypeInOrder (attribute_seen attribute.now).ty }
{
    annotations_in_order(&attribute.annotations);
    type_in_order(&attribute.ty);
}
