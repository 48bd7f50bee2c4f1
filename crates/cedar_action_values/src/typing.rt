// SPDX-License-Identifier: Apache-2.0
ghost use Rattle.cedar_written.specs.Answers.{Answers};
ghost use Rattle.cedar_action_values.specs.ActionValues.{typed, typed_attribute, typed_attributes, typed_elements, typed_set};

use crate::value_fault::ValueFault;
use cedar_data::{Dup, Failure, Map, Out, Text};
use cedar_types::{AttributeType, Attributes, CedarValueJson, OpenTag, Type, ValueList, ValueMap};
use std::alloc::Global;

/// The type of a value: that of a set by its first element, and that of a record as closed, with each field required.
/// Refused with the first fault, depth first, in the order of elements and of the names of fields.
#[cycle(typing)]
#[tactic(auto, using(cedar_written::proofs::Goes::goes))]
pub fn type_of_value(alloc: Global, value: &CedarValueJson) -> Out<Type, ValueFault>
    ensures { Answers result (typed value.now) }
{
    match value {
        CedarValueJson::Bool(_) => Ok(Type::primitive_boolean()),
        CedarValueJson::Long(_) => Ok(Type::primitive_long()),
        CedarValueJson::String(_) => Ok(Type::primitive_string()),
        CedarValueJson::Set(elements) => type_of_set(alloc, elements),
        CedarValueJson::Record(fields) => {
            let attributes = attribute_types(alloc, fields)?;
            let ty = Type::record_with_attributes(alloc, attributes, OpenTag::ClosedAttributes)?;
            Ok(ty)
        }
        CedarValueJson::Null => Err(Failure::Refused(ValueFault::Null)),
        CedarValueJson::EntityEscape(_) => Err(Failure::Refused(ValueFault::EntityEscape)),
        CedarValueJson::ExprEscape(_) => Err(Failure::Refused(ValueFault::ExprEscape)),
        CedarValueJson::ExtnEscape(_) => Err(Failure::Refused(ValueFault::ExtnEscape)),
    }
}

/// The types of values by name, each of them required. Refused as a value is.
#[cycle(typing)]
#[tactic(auto, using(cedar_written::proofs::Goes::goes, crate::proofs::Fields::attributes_refused))]
pub fn attribute_types(alloc: Global, fields: &ValueMap) -> Out<Attributes, ValueFault>
    ensures { Answers result (typed_attributes fields.now) }
{
    let mut types = Map::new(alloc);
    for (name, value) in fields.iter() {
        let attribute = required_type(alloc, value)?;
        let name = name.dup(alloc)?;
        types.push_last(name, attribute)?;
    }
    let attributes = Attributes::from_map(alloc, types)?;
    Ok(attributes)
}

/// The type of a value, as that of an attribute that is always there.
#[cycle(typing)]
#[tactic(auto, using(cedar_written::proofs::Goes::goes))]
fn required_type(alloc: Global, value: &CedarValueJson) -> Out<AttributeType, ValueFault>
    ensures { Answers result (typed_attribute value.now) }
{
    let attr_type = type_of_value(alloc, value)?;
    Ok(AttributeType {
        attr_type,
        is_required: true,
    })
}

/// The type of a set.
#[cycle(typing)]
#[tactic(auto, using(cedar_written::proofs::Goes::goes, crate::proofs::Checking::checking))]
fn type_of_set(alloc: Global, elements: &ValueList) -> Out<Type, ValueFault>
    ensures { Answers result (typed_set (typed_elements elements.now)) }
{
    let mut rest = elements.iter();
    let Some(first) = rest.next() else {
        return Err(Failure::Refused(ValueFault::EmptySet));
    };
    let element = type_of_value(alloc, first)?;
    for other in rest {
        type_of_value(alloc, other)?;
    }
    let ty = Type::set(alloc, element)?;
    Ok(ty)
}
