// SPDX-License-Identifier: Apache-2.0
use cedar_data::{Failure, Mem, NoMemory};
use cedar_row_trees::{Lines, line_of};
use cedar_syntax::{ParseError, ParseErrorKind, ParseErrors, UserError, parse_schema};
use std::alloc::Global;

/// What the calls of the errors of a text say: of all, of each, and of the rule that each breaks.
pub fn errors(alloc: Global, input: &str) -> Mem<String> {
    match parse_schema(alloc, input).err() {
        None => line_of(alloc, "a schema"),
        Some(Failure::Refused(errors)) => errors_told(alloc, input, &errors),
        Some(Failure::NoMemory) => Err(NoMemory),
    }
}

fn errors_told(alloc: Global, input: &str, errors: &ParseErrors) -> Mem<String> {
    let mut lines = Lines::new(alloc);
    add_errors(&mut lines, input, errors)?;
    Ok(lines.into_text())
}

fn add_errors(lines: &mut Lines, input: &str, errors: &ParseErrors) -> Mem<()> {
    lines.add_line(errors.to_string(lines.alloc)?)?;
    lines.add_help(errors.help(lines.alloc)?)?;
    lines.add_all_places(errors.spans(lines.alloc)?)?;
    for error in errors.iter() {
        add_error(lines, input, error)?;
    }
    Ok(())
}

fn add_error(lines: &mut Lines, input: &str, error: &ParseError) -> Mem<()> {
    let same = if error.src.as_str() == input {
        "an error of the text"
    } else {
        "an error of another text"
    };
    lines.add_places(same, &[error.primary_source_span()])?;
    lines.add_line(error.to_string(lines.alloc)?)?;
    lines.add_help(error.help(lines.alloc)?)?;
    lines.add_all_places(error.spans(lines.alloc)?)?;
    match &error.kind {
        ParseErrorKind::User(rule) => add_rule(lines, rule),
        _ => Ok(()),
    }
}

fn add_rule(lines: &mut Lines, rule: &UserError) -> Mem<()> {
    lines.add("a broken rule")?;
    lines.add_line(rule.to_string(lines.alloc)?)?;
    lines.add_help(rule.help(lines.alloc)?)?;
    lines.add_all_places(rule.spans(lines.alloc)?)
}
