// SPDX-License-Identifier: Apache-2.0
use cedar_data::{Dup, Failure, Mem, NoMemory, Text};
use cedar_names::{AnyId, Loc, Node};
use cedar_row_trees::{Lines, add_annotations, line_of, rule_told};
use cedar_syntax::{Annotated, UserError, deduplicate_annotations};
use std::alloc::Global;

/// The value of an annotation with its place, where it has one.
type Value = Option<Node<Text>>;

/// An annotation with its places, as the parser hands it on.
type Written = Node<(Node<AnyId>, Value)>;

/// What `deduplicate_annotations` answers to the annotations of the input: its words `@KEY` and `@KEY("VALUE")`, of
/// those that blanks part.
pub fn annotations(alloc: Global, input: &str) -> Mem<String> {
    let written = written(alloc, input)?;
    match deduplicate_annotations(alloc, input.len(), written) {
        Ok(annotated) => annotated_told(alloc, &annotated),
        Err(Failure::Refused(error)) => rule_line(alloc, &error),
        Err(Failure::NoMemory) => Err(NoMemory),
    }
}

fn annotated_told(alloc: Global, annotated: &Annotated<usize>) -> Mem<String> {
    let mut lines = Lines::new(alloc);
    lines.add_line(format!(in alloc; "item {}", annotated.item)?)?;
    add_annotations(&mut lines, 0, &annotated.annotations)?;
    Ok(lines.into_text())
}

fn rule_line(alloc: Global, error: &UserError) -> Mem<String> {
    let told = rule_told(alloc, error)?;
    line_of(alloc, told.as_str())
}

fn written(alloc: Global, input: &str) -> Mem<Vec<Written>> {
    let src = Text::new(alloc, input)?;
    let mut annotations = Vec::new(alloc);
    let mut start = 0usize;
    for word in input.split(' ') {
        if let Some(annotation) = annotation_of(alloc, &src, start, word)? {
            annotations.push(annotation)?;
        }
        start = start.saturating_add(word.len()).saturating_add(1);
    }
    Ok(annotations)
}

/// The annotation that a word is, if it is one. It starts here in the source.
fn annotation_of(alloc: Global, src: &Text, start: usize, word: &str) -> Mem<Option<Written>> {
    let Some(inside) = word.strip_prefix('@') else {
        return Ok(None);
    };
    let (key, value) = match inside.split_once('(') {
        Some((key, value)) => (key, value.strip_suffix(')')),
        None => (inside, None),
    };
    let key_start = start.saturating_add(1);
    let value_start = key_start.saturating_add(key.len()).saturating_add(1);
    let value = value_of(alloc, src, value_start, value)?;
    let loc = place_of(alloc, src, start, word)?;
    match key_of(alloc, src, key_start, key)? {
        Some(key) => Ok(Some(Node::with_source_loc((key, value), loc))),
        None => Ok(None),
    }
}

/// The key that a word is, if it is one, which starts here in the source.
fn key_of(alloc: Global, src: &Text, start: usize, word: &str) -> Mem<Option<Node<AnyId>>> {
    let loc = place_of(alloc, src, start, word)?;
    match AnyId::new(alloc, word)? {
        Some(id) => Ok(Some(Node::with_source_loc(id, loc))),
        None => Ok(None),
    }
}

/// The value that a literal is, where there is one, which starts here in the source.
fn value_of(alloc: Global, src: &Text, start: usize, literal: Option<&str>) -> Mem<Value> {
    let Some(literal) = literal else {
        return Ok(None);
    };
    let loc = place_of(alloc, src, start, literal)?;
    let value = Text::new(alloc, literal.trim_matches('"'))?;
    Ok(Some(Node::with_source_loc(value, loc)))
}

/// The place of a piece that starts here in the source.
fn place_of(alloc: Global, src: &Text, start: usize, piece: &str) -> Mem<Loc> {
    let end = start.saturating_add(piece.len());
    Ok(Loc::new(start, end, src.dup(alloc)?))
}
