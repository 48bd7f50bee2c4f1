// SPDX-License-Identifier: Apache-2.0
use cedar_data::{Mem, Text};
use cedar_text::Loc;
use std::alloc::Global;

/// `snippet END`: each place below END that is a piece of the input, with the piece, by its start and then by its end.
pub fn snippet(alloc: Global, words: &[&str], input: &str) -> Mem<String> {
    let Some(end) = words.first().and_then(|word| word.parse::<usize>().ok()) else {
        return Ok(format!(in alloc; "no end\n")?);
    };
    let mut lines = String::new(alloc);
    for start in 0..end {
        let pieces = pieces_from(alloc, start, end, input)?;
        lines.push_str(pieces.as_str())?;
    }
    Ok(lines)
}

fn pieces_from(alloc: Global, start: usize, end: usize, input: &str) -> Mem<String> {
    let mut lines = String::new(alloc);
    for stop in 0..end {
        let loc = Loc::new(start, stop, Text::new(alloc, input)?);
        if let Some(piece) = loc.snippet() {
            let line = format!(in alloc; "{start}..{stop} \"{piece}\"\n")?;
            lines.push_str(line.as_str())?;
        }
    }
    Ok(lines)
}
