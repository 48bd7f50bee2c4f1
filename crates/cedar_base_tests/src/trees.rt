// SPDX-License-Identifier: Apache-2.0
use crate::holding::{all_hold, are_equal, is_copied};
use crate::making::text;
use crate::tree_making::{path, place};
use cedar_text::{Loc, Node, Span};
use cedar_tree::{BUILTIN_TYPES, PR, PrimitiveType, QualName};
use std::alloc::Global;
use std::test::Fail;

/// Whether a place is `A::B`.
fn is_a_b(loc: &Loc) -> bool {
    loc.snippet() == Some("A::B")
}

/// Whether the path has its place.
fn is_path_placed(alloc: Global) -> bool {
    match path(alloc) {
        Some(path) => is_a_b(path.loc()),
        None => false,
    }
}

#[test]
fn paths(rt: HostRuntime) -> Result<(), Fail> {
    let alloc = rt.alloc();
    all_hold(&[
        ("a path has its place", is_path_placed(alloc)),
        ("a path is copied", is_copied(alloc, path(alloc))),
    ])
}

/// The reference `A::B::"x"`.
fn qualified(alloc: Global) -> Option<QualName> {
    let eid = text(alloc, "x")?;
    Some(QualName::qualified(path(alloc)?, eid))
}

/// The reference `"x"`.
fn unqualified(alloc: Global) -> Option<QualName> {
    Some(QualName::unqualified(text(alloc, "x")?))
}

/// Whether a reference has a path.
fn has_path(made: Option<QualName>) -> Option<bool> {
    let name = made?;
    Some(name.path.is_some())
}

#[test]
fn references(rt: HostRuntime) -> Result<(), Fail> {
    let alloc = rt.alloc();
    all_hold(&[
        ("one has a path", has_path(qualified(alloc)) == Some(true)),
        ("one has none", has_path(unqualified(alloc)) == Some(false)),
        ("one is copied", is_copied(alloc, qualified(alloc))),
        ("the other is copied", is_copied(alloc, unqualified(alloc))),
        (
            "they differ",
            are_equal(qualified(alloc), unqualified(alloc)) == Some(false),
        ),
    ])
}

#[test]
fn words(rt: HostRuntime) -> Result<(), Fail> {
    let alloc = rt.alloc();
    all_hold(&[
        (
            "the built-in types",
            BUILTIN_TYPES == ["Long", "String", "Bool"],
        ),
        ("principals", is_copied(alloc, Some(PR::Principal))),
        ("resources", is_copied(alloc, Some(PR::Resource))),
        ("`Long`", is_copied(alloc, Some(PrimitiveType::Long))),
        ("`String`", is_copied(alloc, Some(PrimitiveType::String))),
        ("`Bool`", is_copied(alloc, Some(PrimitiveType::Bool))),
    ])
}

/// A span at a place.
fn placed(alloc: Global, span: Span) -> Option<Node<Span>> {
    Some(Node::with_source_loc(span, place(alloc)?))
}

/// Whether it has that place.
fn is_placed(made: Option<Node<Span>>) -> bool {
    match made {
        Some(node) => is_a_b(&node.loc),
        None => false,
    }
}

#[test]
fn spans(rt: HostRuntime) -> Result<(), Fail> {
    let alloc = rt.alloc();
    let span = Span { start: 2, end: 7 };
    all_hold(&[
        ("a span is copied", is_copied(alloc, Some(span))),
        ("a node has its place", is_placed(placed(alloc, span))),
        ("a node is copied", is_copied(alloc, placed(alloc, span))),
    ])
}
