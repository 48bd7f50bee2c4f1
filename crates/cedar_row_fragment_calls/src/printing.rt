// SPDX-License-Identifier: Apache-2.0
use cedar_convert_text::{CedarSchemaParseErrors, SchemaWarning, parse_cedar_schema_fragment};
use cedar_data::{Dup, Failure, Mem, NoMemory, Out};
use cedar_fmt::{ToCedarSchema, ToCedarSchemaSyntaxError};
use cedar_fragment::{Fragment, RawName};
use cedar_names::{Extensions, Span};
use std::alloc::Global;

/// What a text declares, or why it declares nothing.
pub(crate) type Made = Out<(Fragment<RawName>, Vec<SchemaWarning>), CedarSchemaParseErrors>;

/// `print`: the fragment that the input declares, in the human syntax, or why it can't be written;
/// or what is said of an input that declares none.
pub fn print(alloc: Global, input: &str) -> Mem<String> {
    let extensions = Extensions::all_available(alloc)?;
    let made = parse_cedar_schema_fragment(alloc, input, &extensions);
    let told = print_told(alloc, &made);
    drop(made);
    told
}

fn print_told(alloc: Global, made: &Made) -> Mem<String> {
    match made {
        Ok((fragment, _warnings)) => printed(alloc, fragment),
        Err(Failure::Refused(errors)) => refused(alloc, errors),
        Err(Failure::NoMemory) => Err(NoMemory),
    }
}

/// The fragment in the human syntax, or why it can't be written.
fn printed(alloc: Global, fragment: &Fragment<RawName>) -> Mem<String> {
    match fragment.to_cedarschema(alloc) {
        Ok(text) => Ok(text),
        Err(Failure::Refused(error)) => collisions_told(alloc, &error),
        Err(Failure::NoMemory) => Err(NoMemory),
    }
}

/// What is said of a text that declares nothing.
pub(crate) fn refused(alloc: Global, errors: &CedarSchemaParseErrors) -> Mem<String> {
    Ok(format!(in alloc; "refused: {errors}\n")?)
}

/// Why a fragment can't be written: what the calls of the error answer, and whether those of its copy, and of the
/// names that it keeps, answer the same.
fn collisions_told(alloc: Global, error: &ToCedarSchemaSyntaxError) -> Mem<String> {
    let told = error_told(
        alloc,
        error.to_string(alloc)?,
        error.help(alloc)?,
        error.spans(alloc)?,
    )?;
    let copied = copy_told(alloc, error)?;
    let kept = kept_told(alloc, error)?;
    let copy = if copied == told {
        "the same"
    } else {
        "another"
    };
    let names = if kept == told { "the same" } else { "another" };
    Ok(format!(in alloc; "refused: {told}copy: {copy}\nnames: {names}\n")?)
}

fn copy_told(alloc: Global, error: &ToCedarSchemaSyntaxError) -> Mem<String> {
    let copy = error.dup(alloc)?;
    error_told(
        alloc,
        copy.to_string(alloc)?,
        copy.help(alloc)?,
        copy.spans(alloc)?,
    )
}

fn kept_told(alloc: Global, error: &ToCedarSchemaSyntaxError) -> Mem<String> {
    let ToCedarSchemaSyntaxError::NameCollisions(kept) = error;
    error_told(
        alloc,
        kept.to_string(alloc)?,
        kept.help(alloc)?,
        kept.spans(alloc)?,
    )
}

/// The lines of what an error says, of its help and of its places.
fn error_told(alloc: Global, text: String, help: Option<String>, places: Vec<Span>) -> Mem<String> {
    let help = help.unwrap_or(String::from_str(alloc, "no help")?);
    let mut lines = format!(in alloc; "{text}\n{help}\nplaces")?;
    for place in places.as_slice() {
        let piece = format!(in alloc; " {}..{}", place.start, place.end)?;
        lines.push_str(piece.as_str())?;
    }
    lines.push_str("\n")?;
    Ok(lines)
}
