// SPDX-License-Identifier: Apache-2.0
use crate::holding::{all_hold, are_equal, has_no_help, is_copied, is_written};
use crate::tree_making::{FIRST, SECOND, extra, stray};
use cedar_text::Span;
use cedar_tree::{ParseError, ParseErrors};
use std::alloc::Global;
use std::test::Fail;

/// Two errors, in a list.
fn list(alloc: Global) -> Option<Vec<ParseError>> {
    let mut list = Vec::new(alloc);
    list.push(stray(alloc, FIRST, "{")?).ok()?;
    list.push(stray(alloc, SECOND, "}")?).ok()?;
    Some(list)
}

/// The errors of that list.
fn two_errors(alloc: Global) -> Option<ParseErrors> {
    ParseErrors::from_iter(list(alloc)?)
}

/// The same errors, made of the first and of the others.
fn first_and_others(alloc: Global) -> Option<ParseErrors> {
    let second = stray(alloc, SECOND, "}")?;
    let tail = vec![in alloc; second].ok()?;
    before(alloc, tail)
}

fn before(alloc: Global, tail: Vec<ParseError>) -> Option<ParseErrors> {
    let first = stray(alloc, FIRST, "{")?;
    Some(ParseErrors::new(first, tail))
}

/// The places of all errors, as they are told.
fn places(alloc: Global, made: Option<ParseErrors>) -> Option<Vec<Span>> {
    let errors = made?;
    errors.spans(alloc).ok()
}

fn are_in_order(places: Option<Vec<Span>>) -> bool {
    match places {
        Some(places) => places.as_slice() == [FIRST, SECOND].as_slice(),
        None => false,
    }
}

/// Whether there are two errors, at these places in turn.
fn are_iterated(made: Option<ParseErrors>) -> bool {
    match made {
        Some(errors) => are_in_turn(&errors),
        None => false,
    }
}

fn are_in_turn(errors: &ParseErrors) -> bool {
    let mut iterated = errors.iter();
    let places = [place_of(iterated.next()), place_of(iterated.next())];
    let is_end = iterated.next().is_none();
    places == [Some(FIRST), Some(SECOND)] && is_end && errors.iter().count() == 2
}

/// The place of an error, if there is one.
fn place_of(error: Option<&ParseError>) -> Option<Span> {
    match error {
        Some(error) => Some(error.primary_source_span()),
        None => None,
    }
}

#[test]
fn keep_their_order(rt: HostRuntime) -> Result<(), Fail> {
    let alloc = rt.alloc();
    all_hold(&[
        ("errors are copied", is_copied(alloc, two_errors(alloc))),
        ("a token too many is copied", is_copied(alloc, extra(alloc))),
        (
            "their places are told",
            are_in_order(places(alloc, two_errors(alloc))),
        ),
        ("they are iterated", are_iterated(two_errors(alloc))),
    ])
}

/// The first of errors that are taken apart.
fn first_of(made: Option<ParseErrors>) -> Option<ParseError> {
    match made {
        Some(errors) => Some(errors.into_inner().head),
        None => None,
    }
}

/// How many errors stand behind the first.
fn others(made: Option<ParseErrors>) -> Option<usize> {
    match made {
        Some(errors) => Some(errors.into_inner().tail.len()),
        None => None,
    }
}

/// Whether errors have no help.
fn lack_help(alloc: Global, made: Option<ParseErrors>) -> bool {
    match made {
        Some(errors) => has_no_help(errors.help(alloc)),
        None => false,
    }
}

/// Whether no errors are made of none.
fn are_none(alloc: Global) -> bool {
    ParseErrors::from_iter(Vec::new(alloc)).is_none()
}

#[test]
fn are_taken_apart_and_put_together(rt: HostRuntime) -> Result<(), Fail> {
    let alloc = rt.alloc();
    let same = Some(true);
    all_hold(&[
        (
            "they are put together",
            are_equal(first_and_others(alloc), two_errors(alloc)) == same,
        ),
        ("none are made of none", are_none(alloc)),
        (
            "the first is taken",
            are_equal(first_of(two_errors(alloc)), stray(alloc, FIRST, "{")) == same,
        ),
        ("one is left", others(two_errors(alloc)) == Some(1)),
        ("they have no help", lack_help(alloc, two_errors(alloc))),
        (
            "they are told by their first",
            is_written(alloc, two_errors(alloc), "unexpected token `{`"),
        ),
    ])
}
