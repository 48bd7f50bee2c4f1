// SPDX-License-Identifier: Apache-2.0
use cedar_data::{Dup, Mem, Text};
use cedar_names::{Id, InternalName, Loc};
use cedar_row_trees::{Lines, line_of};
use cedar_syntax::Path;
use std::alloc::Global;

/// What the calls of the path of these identifiers say, at the place where its text first stands in the input.
pub fn path(alloc: Global, words: &[&str], input: &str) -> Mem<String> {
    match path_of(alloc, words, input)? {
        Some(path) => path_told(alloc, &path),
        None => line_of(alloc, "no path"),
    }
}

/// The path of these identifiers.
fn path_of(alloc: Global, words: &[&str], input: &str) -> Mem<Option<Path>> {
    let Some((last, before)) = words.split_last() else {
        return Ok(None);
    };
    let loc = place_of(alloc, words, input)?;
    if before.is_empty() {
        return single(alloc, last, loc);
    }
    match ids_of(alloc, before)? {
        Some(namespace) => within(alloc, namespace, last, loc),
        None => Ok(None),
    }
}

/// The path of one identifier.
fn single(alloc: Global, word: &str, loc: Loc) -> Mem<Option<Path>> {
    match Id::new(alloc, word)? {
        Some(id) => Ok(Some(Path::single(alloc, id, loc))),
        None => Ok(None),
    }
}

/// The path of an identifier in this namespace.
fn within(alloc: Global, namespace: Vec<Id>, word: &str, loc: Loc) -> Mem<Option<Path>> {
    match Id::new(alloc, word)? {
        Some(basename) => Ok(Some(Path::new(basename, namespace, loc))),
        None => Ok(None),
    }
}

fn ids_of(alloc: Global, words: &[&str]) -> Mem<Option<Vec<Id>>> {
    let mut ids = Vec::new(alloc);
    for word in words {
        match Id::new(alloc, word)? {
            Some(id) => ids.push(id)?,
            None => return Ok(None),
        }
    }
    Ok(Some(ids))
}

/// Where the words, joined by `::`, first stand in the input, or else its start.
fn place_of(alloc: Global, words: &[&str], input: &str) -> Mem<Loc> {
    let written = words.join(alloc, "::")?;
    let start = input.find(written.as_str()).unwrap_or(0);
    let end = start.saturating_add(written.len());
    Ok(Loc::new(start, end, Text::new(alloc, input)?))
}

fn path_told(alloc: Global, path: &Path) -> Mem<String> {
    let mut lines = Lines::new(alloc);
    add_path(&mut lines, path)?;
    Ok(lines.into_text())
}

fn add_path(lines: &mut Lines, path: &Path) -> Mem<()> {
    add_name(lines, path, InternalName::from(path.dup(lines.alloc)?))?;
    let cedar = if path.is_in_cedar() { "in" } else { "not in" };
    lines.add_line(format!(in lines.alloc; "{cedar} the namespace __cedar")?)?;
    add_ids(lines, path)?;
    add_split(lines, path.dup(lines.alloc)?)?;
    add_placed(lines, path.dup(lines.alloc)?)
}

/// Adds a path and the name that it is.
fn add_name(lines: &mut Lines, path: &Path, name: InternalName) -> Mem<()> {
    let line = format!(in lines.alloc; "path {path}, name {name}")?;
    lines.add(line.as_str())
}

fn add_ids(lines: &mut Lines, path: &Path) -> Mem<()> {
    for id in path.iter() {
        lines.add_line(format!(in lines.alloc; "identifier {id}")?)?;
    }
    Ok(())
}

fn add_split(lines: &mut Lines, path: Path) -> Mem<()> {
    let (namespace, basename) = path.split_last();
    for id in namespace.iter() {
        lines.add_line(format!(in lines.alloc; "namespace {id}")?)?;
    }
    lines.add_line(format!(in lines.alloc; "basename {basename}")?)
}

fn add_placed(lines: &mut Lines, path: Path) -> Mem<()> {
    for id in path.into_iter(lines.alloc)? {
        lines.add_at(0, &id.loc, id.node.as_ref())?;
    }
    Ok(())
}
