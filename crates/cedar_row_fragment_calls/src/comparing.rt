// SPDX-License-Identifier: Apache-2.0
use cedar_convert_text::parse_cedar_schema_fragment;
use cedar_data::{Dup, Failure, Mem, NoMemory, Out};
use cedar_fragment::{
    ActionType, CommonType, EntityType, EntityTypeKind, Fragment, NamespaceDefinition, RawName,
};
use cedar_names::Extensions;
use cedar_row_fragments::Writing;
use std::alloc::Global;
use std::cmp::Ordering;

/// `compare-fragments`: whether the fragments of the two texts are equal, which a line `---` keeps
/// apart, or that of a single text and its copy; and how what both declare under one name is
/// ordered: the types of common types, the shapes of entity types, the parents of actions.
pub fn compare_fragments(alloc: Global, input: &str) -> Mem<String> {
    let extensions = Extensions::all_available(alloc)?;
    match input.split_once("---\n") {
        Some((first, second)) => {
            let first = declared(alloc, first, &extensions)?;
            let second = declared(alloc, second, &extensions)?;
            both_told(alloc, &first, &second)
        }
        None => copy_told(alloc, &declared(alloc, input, &extensions)?),
    }
}

/// The fragment that the text declares, if it declares one.
fn declared(alloc: Global, text: &str, extensions: &Extensions) -> Mem<Option<Fragment<RawName>>> {
    first_made(parse_cedar_schema_fragment(alloc, text, extensions))
}

/// The first of what was made, where nothing was refused.
fn first_made<T: Drop, U: Drop, E: Drop>(made: Out<(T, U), E>) -> Mem<Option<T>> {
    match made {
        Ok((first, _)) => Ok(Some(first)),
        Err(Failure::Refused(_)) => Ok(None),
        Err(Failure::NoMemory) => Err(NoMemory),
    }
}

fn both_told(
    alloc: Global,
    first: &Option<Fragment<RawName>>,
    second: &Option<Fragment<RawName>>,
) -> Mem<String> {
    match (first, second) {
        (Some(first), Some(second)) => compared(alloc, first, second),
        _ => Ok(String::from_str(alloc, "no fragment\n")?),
    }
}

fn copy_told(alloc: Global, fragment: &Option<Fragment<RawName>>) -> Mem<String> {
    let copy = fragment.dup(alloc)?;
    both_told(alloc, fragment, &copy)
}

fn compared(alloc: Global, first: &Fragment<RawName>, second: &Fragment<RawName>) -> Mem<String> {
    let mut writing = Writing::new(alloc, false);
    let word = if first == second {
        "equal\n"
    } else {
        "different\n"
    };
    writing.add(word)?;
    for (name, definition) in first.0.iter() {
        if let Some(other) = second.0.get(name) {
            add_orders(&mut writing, definition, other)?;
        }
    }
    Ok(writing.into_text())
}

fn add_orders(
    writing: &mut Writing,
    first: &NamespaceDefinition<RawName>,
    second: &NamespaceDefinition<RawName>,
) -> Mem<()> {
    for (id, common) in first.common_types.iter() {
        if let Some(other) = second.common_types.get(id) {
            add_order(
                writing,
                "type",
                id.as_ref().as_ref(),
                of_types(common, other),
            )?;
        }
    }
    for (id, entity) in first.entity_types.iter() {
        if let Some(other) = second.entity_types.get(id) {
            add_order(writing, "shape of", id.as_ref(), of_shapes(entity, other))?;
        }
    }
    for (id, action) in first.actions.iter() {
        if let Some(other) = second.actions.get(id) {
            add_order(
                writing,
                "parents of",
                id.as_str(),
                of_parents(action, other),
            )?;
        }
    }
    Ok(())
}

/// A line of how what both declare under one name is ordered.
fn add_order(writing: &mut Writing, what: &str, id: &str, order: &str) -> Mem<()> {
    let line = format!(in writing.alloc; "  {what} {id} {order}\n")?;
    writing.add(line.as_str())
}

fn of_types(first: &CommonType<RawName>, second: &CommonType<RawName>) -> &'static str {
    word_of(first.ty.cmp(&second.ty))
}

/// How shapes are ordered, where both have one.
fn of_shapes(first: &EntityType<RawName>, second: &EntityType<RawName>) -> &'static str {
    match (&first.kind, &second.kind) {
        (EntityTypeKind::Standard(first), EntityTypeKind::Standard(second)) => {
            word_of(first.shape.cmp(&second.shape))
        }
        _ => "none",
    }
}

fn of_parents(first: &ActionType<RawName>, second: &ActionType<RawName>) -> &'static str {
    word_of(first.member_of.cmp(&second.member_of))
}

fn word_of(order: Ordering) -> &'static str {
    match order {
        Ordering::Less => "less",
        Ordering::Equal => "equal",
        Ordering::Greater => "greater",
    }
}
