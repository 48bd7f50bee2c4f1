// SPDX-License-Identifier: Apache-2.0
use crate::holding::{all_hold, are_equal, is_copied};
use crate::making::{entity_type, text};
use cedar_data::{Dup, Text};
use cedar_names::EntityType;
use cedar_types::{AttributeType, Attributes, OpenTag, Type, TypeView};
use std::alloc::Global;
use std::test::Fail;

/// The set of `Long`.
fn set(alloc: Global) -> Option<Type> {
    Type::set(alloc, Type::primitive_long()).ok()
}

/// The set of sets of `Long`.
fn sets(alloc: Global) -> Option<Type> {
    Type::set(alloc, set(alloc)?).ok()
}

/// The element of a set.
fn element(alloc: Global, made: Option<Type>) -> Option<Type> {
    match made {
        Some(ty) => element_of(alloc, &ty),
        None => None,
    }
}

fn element_of(alloc: Global, ty: &Type) -> Option<Type> {
    match ty.view() {
        TypeView::Set(element) => element.dup(alloc).ok(),
        _ => None,
    }
}

/// The type of a reference to an entity type.
fn referred(alloc: Global, ty: Option<EntityType>) -> Option<EntityType> {
    match ty {
        Some(ty) => referred_by(alloc, &Type::named_entity_reference(ty)),
        None => None,
    }
}

fn referred_by(alloc: Global, ty: &Type) -> Option<EntityType> {
    match ty.view() {
        TypeView::Entity(found) => found.dup(alloc).ok(),
        _ => None,
    }
}

/// How many attributes a record lists, and whether it is open.
fn listed(made: Option<Type>) -> Option<(usize, OpenTag)> {
    match made {
        Some(ty) => listed_of(&ty),
        None => None,
    }
}

fn listed_of(ty: &Type) -> Option<(usize, OpenTag)> {
    match ty.view() {
        TypeView::Record(attributes, tag) => Some((attributes.len(), tag)),
        _ => None,
    }
}

/// An attribute of sets that may be absent.
fn optional(alloc: Global) -> Option<AttributeType> {
    Some(AttributeType {
        attr_type: sets(alloc)?,
        is_required: false,
    })
}

/// The list of that attribute, under the name `a`.
fn attribute_list(alloc: Global) -> Option<Vec<(Text, AttributeType)>> {
    let name = text(alloc, "a")?;
    let attribute = optional(alloc)?;
    vec![in alloc; (name, attribute)].ok()
}

/// These attributes.
fn attributes(alloc: Global) -> Option<Attributes> {
    Attributes::with_attributes(alloc, attribute_list(alloc)?).ok()
}

/// The record of these attributes.
fn record(alloc: Global, tag: OpenTag) -> Option<Type> {
    Type::record_with_attributes(alloc, attributes(alloc)?, tag).ok()
}

/// The record type that has any attributes.
fn any_record(alloc: Global) -> Option<Type> {
    Type::any_record(alloc).ok()
}

/// Adds a type under a name.
fn add(alloc: Global, list: &mut Vec<(Text, Type)>, name: &str, ty: Type) -> Option<()> {
    let name = text(alloc, name)?;
    list.push((name, ty)).ok()
}

/// The list of `b`, `a` and `b` again, whose types are `String`, then `Long`, then a set.
fn required_list(alloc: Global) -> Option<Vec<(Text, Type)>> {
    let mut list = Vec::new(alloc);
    add(alloc, &mut list, "b", Type::primitive_string())?;
    add(alloc, &mut list, "a", Type::primitive_long())?;
    add(alloc, &mut list, "b", set(alloc)?)?;
    Some(list)
}

/// These attributes, all of them required.
fn required(alloc: Global) -> Option<Attributes> {
    Attributes::with_required_attributes(alloc, required_list(alloc)?).ok()
}

/// How many attributes there are; and of one of them, whether it is required, and whether it is a set.
fn found(made: Option<Attributes>, name: &str) -> Option<(usize, bool, bool)> {
    match made {
        Some(attributes) => found_in(&attributes, name),
        None => None,
    }
}

fn found_in(attributes: &Attributes, name: &str) -> Option<(usize, bool, bool)> {
    let found = attributes.get_attr(name)?;
    let is_set = matches!(found.attr_type.view(), TypeView::Set(_));
    Some((attributes.len(), found.is_required, is_set))
}

/// `Long`.
fn long() -> Option<Type> {
    Some(Type::primitive_long())
}

#[test]
fn of_sets_and_entities(rt: HostRuntime) -> Result<(), Fail> {
    let alloc = rt.alloc();
    let same = Some(true);
    let ty = referred(alloc, entity_type(alloc));
    all_hold(&[
        (
            "sets have their element",
            are_equal(element(alloc, sets(alloc)), set(alloc)) == same,
        ),
        (
            "a set has its element",
            are_equal(element(alloc, set(alloc)), long()) == same,
        ),
        ("sets are copied", is_copied(alloc, sets(alloc))),
        (
            "a reference has its type",
            are_equal(ty, entity_type(alloc)) == same,
        ),
    ])
}

#[test]
fn of_records(rt: HostRuntime) -> Result<(), Fail> {
    let alloc = rt.alloc();
    let (open, closed) = (OpenTag::OpenAttributes, OpenTag::ClosedAttributes);
    let are_same = are_equal(record(alloc, open), record(alloc, closed));
    all_hold(&[
        (
            "an open record is copied",
            is_copied(alloc, record(alloc, open)),
        ),
        (
            "a closed record is copied",
            is_copied(alloc, record(alloc, closed)),
        ),
        ("they differ", are_same == Some(false)),
        (
            "a record keeps its list",
            listed(record(alloc, closed)) == Some((1, closed)),
        ),
        (
            "any record lists nothing",
            listed(any_record(alloc)) == Some((0, open)),
        ),
        ("any record is copied", is_copied(alloc, any_record(alloc))),
        ("open is copied", is_copied(alloc, Some(open))),
        ("closed is copied", is_copied(alloc, Some(closed))),
    ])
}

#[test]
fn of_attributes(rt: HostRuntime) -> Result<(), Fail> {
    let alloc = rt.alloc();
    all_hold(&[
        (
            "the second `b` stays",
            found(required(alloc), "b") == Some((2, true, true)),
        ),
        (
            "`a` is required",
            found(required(alloc), "a") == Some((2, true, false)),
        ),
        ("attributes are copied", is_copied(alloc, required(alloc))),
        (
            "`a` may be absent",
            found(attributes(alloc), "a") == Some((1, false, true)),
        ),
    ])
}
