// SPDX-License-Identifier: Apache-2.0
use crate::lines::Lines;
use crate::telling::kind_told;
use cedar_data::{Failure, Mem, NoMemory};
use cedar_syntax::{ParseError, Token, tokens};
use std::alloc::Global;

/// The tokens of a text as the parser sees them, each with its place, kind and text; or why it has none.
pub fn syntax_tokens(alloc: Global, input: &str) -> Mem<String> {
    match tokens(alloc, input) {
        Ok(found) => tokens_told(alloc, input, found.as_slice()),
        Err(Failure::Refused(error)) => refusal_told(alloc, input, &error),
        Err(Failure::NoMemory) => Err(NoMemory),
    }
}

fn tokens_told(alloc: Global, input: &str, found: &[Token]) -> Mem<String> {
    let mut lines = Lines::new(alloc);
    for token in found {
        add_token(&mut lines, input, token)?;
    }
    Ok(lines.into_text())
}

fn add_token(lines: &mut Lines, input: &str, token: &Token) -> Mem<()> {
    let piece = input.get(token.start..token.end).unwrap_or("no text");
    let kind = token.kind;
    lines.add_line(format!(in lines.alloc; "{}..{} {kind:?} {piece}", token.start, token.end)?)
}

fn refusal_told(alloc: Global, input: &str, error: &ParseError) -> Mem<String> {
    let mut lines = Lines::new(alloc);
    lines.add_line(kind_told(alloc, &error.kind)?)?;
    if error.src.as_str() != input {
        lines.add("of another text")?;
    }
    Ok(lines.into_text())
}
