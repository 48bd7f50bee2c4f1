// SPDX-License-Identifier: Apache-2.0
use crate::printing::{Made, refused};
use cedar_convert_text::parse_cedar_schema_fragment;
use cedar_data::{Dup, Failure, Map, Mem, NoMemory, Out};
use cedar_fragment::{
    CommonTypeId, Fragment, NamespaceDefinition, RawName, ReservedCommonTypeBasenameError,
};
use cedar_names::{Extensions, UnreservedId};
use cedar_row_fragments::Writing;
use std::alloc::Global;

/// `unchecked-id ID`: what is said of ID as that of a common type; then the unnamed namespace that the input
/// declares, with ID in place of that of its common type, unchecked, as it is printed, and what is said of this
/// text as it is read.
pub fn unchecked_id(alloc: Global, words: &[&str], input: &str) -> Mem<String> {
    let word = words.first().copied().unwrap_or("");
    match UnreservedId::from_normalized_str(alloc, word) {
        Ok(id) => with_id(alloc, &id, input),
        Err(Failure::Refused(fault)) => Ok(format!(in alloc; "no id: {fault}\n")?),
        Err(Failure::NoMemory) => Err(NoMemory),
    }
}

fn with_id(alloc: Global, id: &UnreservedId, input: &str) -> Mem<String> {
    let mut writing = Writing::new(alloc, false);
    add_checked(&mut writing, id)?;
    let extensions = Extensions::all_available(alloc)?;
    let declared = first_made(parse_cedar_schema_fragment(alloc, input, &extensions))?;
    match &declared {
        Some(fragment) => add_renamed(&mut writing, id, fragment, &extensions)?,
        None => writing.add("no fragment\n")?,
    }
    Ok(writing.into_text())
}

/// The first of what was made, where nothing was refused.
fn first_made<T: Drop, U: Drop, E: Drop>(made: Out<(T, U), E>) -> Mem<Option<T>> {
    match made {
        Ok((first, _)) => Ok(Some(first)),
        Err(Failure::Refused(_)) => Ok(None),
        Err(Failure::NoMemory) => Err(NoMemory),
    }
}

/// Adds what is said of the id as that of a common type.
fn add_checked(writing: &mut Writing, id: &UnreservedId) -> Mem<()> {
    match CommonTypeId::new(id.dup(writing.alloc)?) {
        Ok(_) => writing.add("an id\n"),
        Err(error) => add_error(writing, &error),
    }
}

/// Adds what the calls of the error answer, and whether a copy of it equals it.
fn add_error(writing: &mut Writing, error: &ReservedCommonTypeBasenameError) -> Mem<()> {
    let line = format!(in writing.alloc; "refused: {error}\n")?;
    writing.add(line.as_str())?;
    let copy = error.dup(writing.alloc)?;
    let is_same = copy == *error;
    drop(copy);
    writing.add(if is_same { "the same\n" } else { "another\n" })?;
    let help = error.help(writing.alloc)?;
    writing.add(if help.is_none() {
        "no help\n"
    } else {
        "help\n"
    })?;
    let places = error.spans(writing.alloc)?;
    writing.add(if places.is_empty() {
        "no places\n"
    } else {
        "places\n"
    })
}

/// Adds the unnamed namespace of the fragment with the id, and what is said of it as it is read again.
fn add_renamed(
    writing: &mut Writing,
    id: &UnreservedId,
    fragment: &Fragment<RawName>,
    extensions: &Extensions,
) -> Mem<()> {
    let Some(definition) = fragment.0.get(&None) else {
        return writing.add("no unnamed namespace\n");
    };
    let renamed = renamed(writing.alloc, id, definition)?;
    let text = format!(in writing.alloc; "{renamed}")?;
    writing.add(text.as_str())?;
    let read = read_again(writing.alloc, text.as_str(), extensions)?;
    writing.add(read.as_str())
}

/// The definitions with the id in place of that of their common type, and of the last of them where there are more.
fn renamed(
    alloc: Global,
    id: &UnreservedId,
    definition: &NamespaceDefinition<RawName>,
) -> Mem<NamespaceDefinition<RawName>> {
    let mut types = Map::new(alloc);
    for (_, common) in definition.common_types.iter() {
        types.put(CommonTypeId::unchecked(id.dup(alloc)?), common.dup(alloc)?)?;
    }
    Ok(NamespaceDefinition {
        common_types: types,
        entity_types: definition.entity_types.dup(alloc)?,
        actions: definition.actions.dup(alloc)?,
        annotations: definition.annotations.dup(alloc)?,
    })
}

/// What is said of the text as it is read.
fn read_again(alloc: Global, text: &str, extensions: &Extensions) -> Mem<String> {
    let made = parse_cedar_schema_fragment(alloc, text, extensions);
    let told = reading_told(alloc, &made);
    drop(made);
    told
}

fn reading_told(alloc: Global, made: &Made) -> Mem<String> {
    match made {
        Ok(_) => Ok(String::from_str(alloc, "read again\n")?),
        Err(Failure::Refused(errors)) => refused(alloc, errors),
        Err(Failure::NoMemory) => Err(NoMemory),
    }
}
