// SPDX-License-Identifier: Apache-2.0
use cedar_convert_text::{
    CedarSchemaParseErrors, SchemaWarning, ToJsonSchemaError, ToJsonSchemaErrors,
    parse_cedar_schema_fragment,
};
use cedar_data::{Dup, Failure, Mem, NoMemory, Out};
use cedar_fragment::{Fragment, RawName};
use cedar_names::Extensions;
use cedar_row_fragments::{Writing, add_fragment};
use cedar_text::Span;
use std::alloc::Global;

/// What a text declares, or why it declares nothing.
type Made = Out<(Fragment<RawName>, Vec<SchemaWarning>), CedarSchemaParseErrors>;

/// The fragment that the input declares, with all places where the word `places` is given; or all
/// that is wrong with it, each fault with its places and its help.
pub fn fragment(alloc: Global, words: &[&str], input: &str) -> Mem<String> {
    let places = words.iter().any(|word| *word == "places");
    let extensions = Extensions::all_available(alloc)?;
    let made = parse_cedar_schema_fragment(alloc, input, &extensions);
    let told = fragment_told(alloc, places, &made);
    drop(made);
    told
}

/// The warnings of the names of the input, each with its places, with its help where it has one, and with a line
/// where a copy of it is another; or all that is wrong with the input.
pub fn warnings(alloc: Global, input: &str) -> Mem<String> {
    let extensions = Extensions::all_available(alloc)?;
    let made = parse_cedar_schema_fragment(alloc, input, &extensions);
    let told = warnings_told(alloc, &made);
    drop(made);
    told
}

fn fragment_told(alloc: Global, places: bool, made: &Made) -> Mem<String> {
    match made {
        Ok((fragment, _warnings)) => fragment_lines(alloc, places, fragment),
        Err(Failure::Refused(errors)) => error_lines(alloc, errors),
        Err(Failure::NoMemory) => Err(NoMemory),
    }
}

fn warnings_told(alloc: Global, made: &Made) -> Mem<String> {
    match made {
        Ok((_fragment, warnings)) => warning_lines(alloc, warnings.as_slice()),
        Err(Failure::Refused(errors)) => error_lines(alloc, errors),
        Err(Failure::NoMemory) => Err(NoMemory),
    }
}

fn fragment_lines(alloc: Global, places: bool, fragment: &Fragment<RawName>) -> Mem<String> {
    let mut writing = Writing::new(alloc, places);
    add_fragment(&mut writing, fragment)?;
    Ok(writing.into_text())
}

fn warning_lines(alloc: Global, warnings: &[SchemaWarning]) -> Mem<String> {
    let mut writing = Writing::new(alloc, true);
    for warning in warnings {
        add_warning(&mut writing, warning)?;
    }
    writing.add("end of warnings\n")?;
    Ok(writing.into_text())
}

fn error_lines(alloc: Global, errors: &CedarSchemaParseErrors) -> Mem<String> {
    let mut writing = Writing::new(alloc, true);
    add_errors(&mut writing, errors)?;
    Ok(writing.into_text())
}

fn add_errors(writing: &mut Writing, errors: &CedarSchemaParseErrors) -> Mem<()> {
    match errors {
        CedarSchemaParseErrors::SyntaxError(_) => {
            let line = format!(in writing.alloc; "no schema: {errors}\n")?;
            writing.add(line.as_str())
        }
        CedarSchemaParseErrors::JsonError(faults) => add_faults(writing, faults),
    }
}

/// Adds faults, each with its places and its help.
pub(crate) fn add_faults(writing: &mut Writing, faults: &ToJsonSchemaErrors) -> Mem<()> {
    for fault in faults.iter() {
        add_fault(writing, fault)?;
    }
    Ok(())
}

fn add_fault(writing: &mut Writing, fault: &ToJsonSchemaError) -> Mem<()> {
    let line = format!(in writing.alloc; "{fault}\n")?;
    writing.add(line.as_str())?;
    let spans = fault.spans(writing.alloc)?;
    add_spans(writing, spans.as_slice())?;
    if let Some(help) = fault.help(writing.alloc)? {
        let line = format!(in writing.alloc; "  help: {help}\n")?;
        writing.add(line.as_str())?;
    }
    Ok(())
}

fn add_warning(writing: &mut Writing, warning: &SchemaWarning) -> Mem<()> {
    let line = format!(in writing.alloc; "{warning}\n")?;
    writing.add(line.as_str())?;
    let spans = warning.spans(writing.alloc)?;
    add_spans(writing, spans.as_slice())?;
    if let Some(help) = warning.help(writing.alloc)? {
        let line = format!(in writing.alloc; "  help: {help}\n")?;
        writing.add(line.as_str())?;
    }
    add_copied(writing, warning)
}

/// Adds a line where a copy of the warning is another.
fn add_copied(writing: &mut Writing, warning: &SchemaWarning) -> Mem<()> {
    let copy = warning.dup(writing.alloc)?;
    let is_same = copy == *warning;
    drop(copy);
    writing.add(if is_same { "" } else { "  copied as another\n" })
}

fn add_spans(writing: &mut Writing, spans: &[Span]) -> Mem<()> {
    writing.add("  at")?;
    for span in spans {
        let place = format!(in writing.alloc; " {}..{}", span.start, span.end)?;
        writing.add(place.as_str())?;
    }
    writing.add("\n")
}
