// SPDX-License-Identifier: Apache-2.0
use cedar_convert_faults::{Repeat, repeat_is_first};
use cedar_data::{Dup, Items, Mem, Text};
use cedar_text::{Loc, Node};
use std::alloc::Global;

/// `first-repeat`: the first of the names on the lines of the input that stands a second time, with
/// the places of the first two; or `none`.
pub fn first_repeat(alloc: Global, input: &str) -> Mem<String> {
    let names = names_of(alloc, input)?;
    let repeat = repeat_is_first(alloc, &names)?;
    repeat_told(alloc, &repeat)
}

/// The names on the lines, with their places.
fn names_of(alloc: Global, input: &str) -> Mem<Items<Node<Text>>> {
    let source = Text::new(alloc, input)?;
    let mut names = Items::new(alloc);
    let mut start = 0usize;
    for line in input.lines() {
        let end = start.saturating_add(line.len());
        let name = name_at(alloc, line, Loc::new(start, end, source.dup(alloc)?))?;
        names.push(name)?;
        start = end.saturating_add(1);
    }
    Ok(names)
}

fn name_at(alloc: Global, line: &str, loc: Loc) -> Mem<Node<Text>> {
    let node = Text::new(alloc, line)?;
    Ok(Node { node, loc })
}

fn repeat_told(alloc: Global, repeat: &Option<Repeat>) -> Mem<String> {
    match repeat {
        Some(repeat) => repeat_line(alloc, repeat),
        None => Ok(String::from_str(alloc, "none\n")?),
    }
}

fn repeat_line(alloc: Global, repeat: &Repeat) -> Mem<String> {
    let Repeat {
        name,
        first,
        second,
    } = repeat;
    Ok(format!(in alloc;
        "{name} {}..{} {}..{}\n",
        first.start, first.end, second.start, second.end
    )?)
}
