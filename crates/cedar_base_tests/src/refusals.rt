// SPDX-License-Identifier: Apache-2.0
use crate::holding::{all_hold, has_no_help, is_written};
use crate::making::{id, text};
use cedar_data::{Failure, Mem, Text};
use cedar_names::{Extensions, ExtensionsFault, InternalName, ReservedNameError, UnreservedId};
use cedar_text::{BadEscape, Loc, NameFault, Span};
use cedar_types::TcError;
use std::alloc::Global;
use std::test::Fail;

/// Whether there is neither help nor a place.
fn is_bare(help: Mem<Option<String>>, spans: Mem<Vec<Span>>) -> bool {
    has_no_help(help) && has_no_place(spans)
}

fn has_no_place(spans: Mem<Vec<Span>>) -> bool {
    match &spans {
        Ok(spans) => spans.is_empty(),
        Err(_) => false,
    }
}

/// The name `Long`.
fn primitive_name(alloc: Global) -> Option<Vec<Text>> {
    let name = text(alloc, "Long")?;
    vec![in alloc; name].ok()
}

/// What is wrong with it as the name of an extension type.
fn primitive_fault(alloc: Global) -> Option<ExtensionsFault> {
    let names = primitive_name(alloc)?;
    match Extensions::new(alloc, names.as_slice()) {
        Err(Failure::Refused(fault)) => Some(fault),
        _ => None,
    }
}

fn is_primitive_bare(alloc: Global) -> bool {
    match primitive_fault(alloc) {
        Some(fault) => is_bare(fault.help(alloc), fault.spans(alloc)),
        None => false,
    }
}

/// Why `__cedar` is no identifier of a user's.
fn reserved(alloc: Global) -> Option<ReservedNameError> {
    UnreservedId::try_from_id(alloc, id(alloc, "__cedar")?).err()
}

fn is_reserved_bare(alloc: Global) -> bool {
    match reserved(alloc) {
        Some(error) => is_bare(error.help(alloc), error.spans(alloc)),
        None => false,
    }
}

fn is_name_bare(alloc: Global) -> bool {
    let fault = NameFault::Empty;
    is_bare(fault.help(alloc), fault.spans(alloc))
}

fn is_escape_bare(alloc: Global) -> bool {
    let bad = BadEscape { at: 2 };
    is_bare(bad.help(alloc), bad.spans(alloc))
}

fn is_missing_edge_bare(alloc: Global) -> bool {
    let missing: TcError<u32> = TcError::MissingTcEdge { vertex: 3 };
    is_bare(missing.help(alloc), missing.spans(alloc))
}

/// The place from 1 to 8 of ` __cedar`.
fn place(alloc: Global) -> Option<Loc> {
    let src = text(alloc, " __cedar")?;
    Some(Loc::new(1, 8, src))
}

/// `__cedar`, at that place.
fn placed(alloc: Global) -> Option<ReservedNameError> {
    let id = id(alloc, "__cedar")?;
    let name = InternalName::unqualified_name(alloc, id, place(alloc));
    Some(ReservedNameError { name })
}

/// The places of the reserved name that has one.
fn places(alloc: Global) -> Option<Vec<Span>> {
    let error = placed(alloc)?;
    error.spans(alloc).ok()
}

fn is_place_told(alloc: Global) -> bool {
    match places(alloc) {
        Some(spans) => spans.as_slice() == [Span { start: 1, end: 8 }].as_slice(),
        None => false,
    }
}

/// A cycle of closures.
fn cycle() -> Option<TcError<u32>> {
    Some(TcError::HasCycle { vertex: 12 })
}

/// An edge of closures that is missing.
fn missing_edge() -> Option<TcError<u32>> {
    Some(TcError::MissingTcEdge { vertex: 3 })
}

#[test]
fn are_told(rt: HostRuntime) -> Result<(), Fail> {
    let alloc = rt.alloc();
    all_hold(&[
        ("no more of a name", is_name_bare(alloc)),
        ("no more of an escape", is_escape_bare(alloc)),
        ("no more of an extension type", is_primitive_bare(alloc)),
        ("no more of an identifier", is_reserved_bare(alloc)),
        ("no more of a closure", is_missing_edge_bare(alloc)),
        ("the place of a name", is_place_told(alloc)),
        (
            "a cycle",
            is_written(alloc, cycle(), "cycle containing `12`"),
        ),
        (
            "a missing edge",
            is_written(alloc, missing_edge(), "missing edge at `3`"),
        ),
    ])
}
