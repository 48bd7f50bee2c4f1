// SPDX-License-Identifier: Apache-2.0
use crate::holding::{all_hold, is_copied, is_copied_in_place};
use crate::making::{eid, entity_type, id, place, placed_name, text, uid, unreserved_name};
use cedar_data::Dup;
use cedar_names::{Annotation, AnyId, Extensions, NonEmpty, UnreservedId};
use cedar_text::{EscapedByte, Loc, Span};
use cedar_tokens::{Lexeme, NoToken, Token, TokenKind};
use std::alloc::Global;
use std::test::Fail;

/// Whether a place has this span.
fn has_span(made: Option<Loc>, span: Span) -> bool {
    match made {
        Some(loc) => loc.span() == span,
        None => false,
    }
}

/// The identifier `A`, which isn't reserved.
fn unreserved(alloc: Global) -> Option<UnreservedId> {
    UnreservedId::from_normalized_str(alloc, "A").ok()
}

/// The word `in`.
fn word(alloc: Global) -> Option<AnyId> {
    AnyId::new(alloc, "in").ok()?
}

/// The annotation of a value at that place.
fn annotation(alloc: Global) -> Option<Annotation> {
    let val = text(alloc, "value")?;
    Some(Annotation {
        val,
        loc: place(alloc),
    })
}

/// The numbers 1 and 2, if these are two.
fn list(alloc: Global) -> Option<NonEmpty<u32>> {
    let mut list = NonEmpty::singleton(alloc, 1u32);
    list.push(2).ok()?;
    if list.len() == 2 { Some(list) } else { None }
}

/// Whether the escape of a byte that needs one is copied.
fn is_escape_copied(alloc: Global) -> bool {
    match EscapedByte::of(7).dup(alloc) {
        Ok(copy) => copy.as_bytes() == b"\\u{7}".as_slice(),
        Err(_) => false,
    }
}

/// Whether a kind of tokens, and a token of it, are copied.
fn is_kind_copied(alloc: Global, kind: TokenKind) -> bool {
    let (start, end) = (1, 3);
    is_copied(alloc, Some(kind)) && is_copied(alloc, Some(Token { kind, start, end }))
}

/// Whether a token with its text is copied.
fn is_lexeme_copied(alloc: Global) -> bool {
    let (kind, start, end) = (TokenKind::Str, 1, 3);
    let lexeme = Lexeme {
        kind,
        text: "ab",
        start,
        end,
    };
    match lexeme.dup(alloc) {
        Ok(copy) => copy.kind == kind && copy.text == "ab" && (copy.start, copy.end) == (1, 3),
        Err(_) => false,
    }
}

#[test]
fn of_values_with_places(rt: HostRuntime) -> Result<(), Fail> {
    let alloc = rt.alloc();
    let span = Span { start: 1, end: 4 };
    all_hold(&[
        ("a place", is_copied(alloc, place(alloc))),
        ("the span of a place", has_span(place(alloc), span)),
        ("a span", is_copied(alloc, Some(span))),
        ("a name", is_copied_in_place(alloc, placed_name(alloc))),
        (
            "an unreserved name",
            is_copied_in_place(alloc, unreserved_name(alloc)),
        ),
        (
            "an entity type",
            is_copied_in_place(alloc, entity_type(alloc)),
        ),
        ("an entity", is_copied_in_place(alloc, uid(alloc))),
        ("an annotation", is_copied(alloc, annotation(alloc))),
    ])
}

#[test]
fn of_words_and_lists(rt: HostRuntime) -> Result<(), Fail> {
    let alloc = rt.alloc();
    all_hold(&[
        (
            "an unreserved identifier",
            is_copied(alloc, unreserved(alloc)),
        ),
        ("an identifier", is_copied(alloc, id(alloc, "a"))),
        ("a word", is_copied(alloc, word(alloc))),
        ("an id", is_copied(alloc, eid(alloc))),
        ("a list", is_copied(alloc, list(alloc))),
        (
            "extensions",
            is_copied(alloc, Extensions::all_available(alloc).ok()),
        ),
        ("an escape", is_escape_copied(alloc)),
    ])
}

#[test]
fn of_tokens(rt: HostRuntime) -> Result<(), Fail> {
    let alloc = rt.alloc();
    all_hold(&[
        ("words", is_kind_copied(alloc, TokenKind::Word)),
        ("literals", is_kind_copied(alloc, TokenKind::Str)),
        ("marks", is_kind_copied(alloc, TokenKind::Punct)),
        ("no token", is_copied(alloc, Some(NoToken { location: 7 }))),
        ("a token with its text", is_lexeme_copied(alloc)),
    ])
}
