// SPDX-License-Identifier: Apache-2.0
use crate::lines::{Lines, line_of};
use crate::schema_pieces::add_schema;
use cedar_data::{Failure, Mem, NoMemory};
use cedar_syntax::{ParseErrorKind, ParseErrors, Schema, UserError, parse_schema};
use std::alloc::Global;

/// Whether a text is a schema, or else why it is none, with the place.
pub fn tell(alloc: Global, input: &str) -> Mem<String> {
    let told = told(alloc, input)?;
    line_of(alloc, told.as_str())
}

/// The pieces of a schema with their places, or else why the text is none.
pub fn tree(alloc: Global, input: &str) -> Mem<String> {
    match parse_schema(alloc, input) {
        Ok(schema) => pieces_told(alloc, &schema),
        Err(failure) => refusal_line(alloc, failure),
    }
}

fn pieces_told(alloc: Global, schema: &Schema) -> Mem<String> {
    let mut lines = Lines::new(alloc);
    add_schema(&mut lines, schema)?;
    Ok(lines.into_text())
}

/// What is said of a text: that it is a schema, or why it is none, with the place.
pub fn told(alloc: Global, text: &str) -> Mem<String> {
    match parse_schema(alloc, text).err() {
        None => Ok(String::from_str(alloc, "a schema")?),
        Some(failure) => refusal_told(alloc, failure),
    }
}

/// What is said of the first of the errors with which a text is refused, as a line.
pub fn refusal_line(alloc: Global, failure: Failure<ParseErrors>) -> Mem<String> {
    let told = refusal_told(alloc, failure)?;
    line_of(alloc, told.as_str())
}

/// What is said of the first of the errors with which a text is refused.
fn refusal_told(alloc: Global, failure: Failure<ParseErrors>) -> Mem<String> {
    match failure {
        Failure::Refused(errors) => kind_told(alloc, &errors.into_inner().head.kind),
        Failure::NoMemory => Err(NoMemory),
    }
}

/// What is said of an error.
pub fn kind_told(alloc: Global, kind: &ParseErrorKind) -> Mem<String> {
    match kind {
        ParseErrorKind::InvalidToken { location } => {
            Ok(format!(in alloc; "no token at {location}")?)
        }
        ParseErrorKind::UnrecognizedEof { location } => Ok(format!(in alloc;
            "ends at {location}"
        )?),
        ParseErrorKind::UnrecognizedToken { span, token } => {
            Ok(format!(in alloc; "{}..{} strays `{token}`", span.start, span.end)?)
        }
        ParseErrorKind::ExtraToken { span, token } => {
            Ok(format!(in alloc; "{}..{} extra `{token}`", span.start, span.end)?)
        }
        ParseErrorKind::User(error) => rule_told(alloc, error),
        ParseErrorKind::TooDeep { span } => {
            Ok(format!(in alloc; "{}..{} too deep", span.start, span.end)?)
        }
    }
}

/// What is said of a rule that is broken.
pub fn rule_told(alloc: Global, error: &UserError) -> Mem<String> {
    match error {
        UserError::EmptyList(span) => {
            Ok(format!(in alloc; "{}..{} empty list", span.start, span.end)?)
        }
        UserError::StringEscape(span, bad) => {
            Ok(format!(in alloc; "{}..{} bad escape at {}", span.start, span.end, bad.at)?)
        }
        UserError::ReservedIdentifierUsed(word) => {
            let loc = &word.loc;
            let word = &word.node;
            Ok(format!(in alloc; "{}..{} reserved `{word}`", loc.start, loc.end)?)
        }
        UserError::DuplicateAnnotations(key, first, second) => Ok(format!(in alloc;
            "{}..{} repeats `{key}` of {}..{}",
            second.start, second.end, first.start, first.end
        )?),
    }
}
