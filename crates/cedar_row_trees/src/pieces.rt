// SPDX-License-Identifier: Apache-2.0
use crate::lines::Lines;
use cedar_data::{Mem, Text};
use cedar_names::{Annotations, Id, Loc, Node, NonEmpty};
use cedar_syntax::Path;

/// Adds annotations in the order of their keys, each with its value.
pub fn add_annotations(lines: &mut Lines, depth: usize, annotations: &Annotations) -> Mem<()> {
    for (key, annotation) in annotations.iter() {
        let value = match annotations.get(key.as_ref()) {
            Some(found) => found.val.as_str(),
            None => "not found",
        };
        let what = format!(in lines.alloc; "@{key} {value:?}")?;
        match &annotation.loc {
            Some(loc) => lines.add_at(depth, loc, what.as_str())?,
            None => lines.add_deep(depth, what.as_str())?,
        }
    }
    Ok(())
}

/// Adds what a word or a literal stands for.
pub fn add_word(lines: &mut Lines, depth: usize, loc: &Loc, word: &str) -> Mem<()> {
    let what = format!(in lines.alloc; "{word:?}")?;
    lines.add_at(depth, loc, what.as_str())
}

/// Adds words.
pub fn add_ids(lines: &mut Lines, depth: usize, ids: &NonEmpty<Node<Id>>) -> Mem<()> {
    for id in ids.iter() {
        add_word(lines, depth, &id.loc, id.node.as_ref())?;
    }
    Ok(())
}

/// Adds what words or literals stand for.
pub fn add_texts(lines: &mut Lines, depth: usize, texts: &NonEmpty<Node<Text>>) -> Mem<()> {
    for text in texts.iter() {
        add_word(lines, depth, &text.loc, text.node.as_str())?;
    }
    Ok(())
}

/// Adds a path.
pub fn add_path(lines: &mut Lines, depth: usize, path: &Path) -> Mem<()> {
    let what = format!(in lines.alloc; "{path}")?;
    lines.add_at(depth, path.loc(), what.as_str())
}
