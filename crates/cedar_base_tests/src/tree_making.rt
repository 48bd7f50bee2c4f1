// SPDX-License-Identifier: Apache-2.0
use crate::making::{id, text};
use cedar_names::Id;
use cedar_text::{Loc, Span};
use cedar_tree::{ParseError, ParseErrorKind, Path};
use std::alloc::Global;

/// Two places of the examples.
pub const FIRST: Span = Span { start: 1, end: 2 };

pub const SECOND: Span = Span { start: 4, end: 5 };

/// A token that strays in `{}` at this place.
fn stray_kind(alloc: Global, span: Span, token: &str) -> Option<ParseErrorKind> {
    let token = text(alloc, token)?;
    Some(ParseErrorKind::UnrecognizedToken { span, token })
}

/// The error of that token.
pub fn stray(alloc: Global, span: Span, token: &str) -> Option<ParseError> {
    let src = text(alloc, "{}")?;
    let kind = stray_kind(alloc, span, token)?;
    Some(ParseError { kind, src })
}

/// A token too many.
pub fn extra(alloc: Global) -> Option<ParseErrorKind> {
    let token = text(alloc, ";")?;
    Some(ParseErrorKind::ExtraToken {
        span: SECOND,
        token,
    })
}

/// The place of `A::B`.
pub fn place(alloc: Global) -> Option<Loc> {
    Some(Loc::new(1, 5, text(alloc, " A::B")?))
}

/// The path `A::B`.
pub fn path(alloc: Global) -> Option<Path> {
    let loc = place(alloc)?;
    within(alloc, namespace(alloc)?, loc)
}

fn namespace(alloc: Global) -> Option<Vec<Id>> {
    let id = id(alloc, "A")?;
    vec![in alloc; id].ok()
}

fn within(alloc: Global, namespace: Vec<Id>, loc: Loc) -> Option<Path> {
    Some(Path::new(id(alloc, "B")?, namespace, loc))
}
