// SPDX-License-Identifier: Apache-2.0
use crate::holding::{all_hold, is_copied, is_copied_in_place};
use crate::making::{place, text};
use cedar_data::{Failure, NoMemory};
use cedar_names::{ExtensionsFault, Id, InternalName, ReservedNameError};
use cedar_text::{BadEscape, NameFault};
use cedar_types::TcError;
use std::alloc::Global;
use std::test::Fail;

/// A token where none of a name may stand.
fn bad_token(alloc: Global) -> Option<NameFault> {
    let token = text(alloc, "::")?;
    Some(NameFault::BadToken { at: 3, token })
}

/// A word that is reserved.
fn reserved(alloc: Global) -> Option<NameFault> {
    let word = text(alloc, "in")?;
    Some(NameFault::Reserved { word })
}

/// A name of an extension type that is bad.
fn bad_name() -> ExtensionsFault {
    let fault = NameFault::Empty;
    ExtensionsFault::BadName { index: 1, fault }
}

/// A name of an extension type that is repeated.
fn repeated(alloc: Global) -> Option<ExtensionsFault> {
    let name = text(alloc, "a")?;
    Some(ExtensionsFault::RepeatedName { name })
}

/// A name of an extension type that is a primitive type's.
fn primitive(alloc: Global) -> Option<ExtensionsFault> {
    let name = text(alloc, "Long")?;
    Some(ExtensionsFault::PrimitiveName { name })
}

/// A refusal.
fn refused() -> Failure<NameFault> {
    Failure::Refused(NameFault::Empty)
}

/// A failure for want of memory.
fn memory() -> Failure<NameFault> {
    Failure::NoMemory
}

/// `__cedar` is reserved, at that place.
fn reserved_name(alloc: Global) -> Option<ReservedNameError> {
    let cedar = Id::cedar(alloc).ok()?;
    let name = InternalName::unqualified_name(alloc, cedar, place(alloc));
    Some(ReservedNameError { name })
}

#[test]
fn of_names_and_extensions(rt: HostRuntime) -> Result<(), Fail> {
    let alloc = rt.alloc();
    all_hold(&[
        ("an empty name", is_copied(alloc, Some(NameFault::Empty))),
        ("a bad token", is_copied(alloc, bad_token(alloc))),
        ("a reserved word", is_copied(alloc, reserved(alloc))),
        ("a bad escape", is_copied(alloc, Some(BadEscape { at: 2 }))),
        ("a bad name", is_copied(alloc, Some(bad_name()))),
        ("a repeated name", is_copied(alloc, repeated(alloc))),
        ("a primitive name", is_copied(alloc, primitive(alloc))),
        (
            "a reserved name",
            is_copied_in_place(alloc, reserved_name(alloc)),
        ),
    ])
}

/// Whether two errors of closures at one key differ.
fn differ() -> bool {
    let cycle: TcError<u32> = TcError::HasCycle { vertex: 12 };
    cycle != TcError::MissingTcEdge { vertex: 12 }
}

/// A cycle at this key.
fn cycle(vertex: u32) -> Option<TcError<u32>> {
    Some(TcError::HasCycle { vertex })
}

/// A missing edge at this key.
fn missing_edge(vertex: u32) -> Option<TcError<u32>> {
    Some(TcError::MissingTcEdge { vertex })
}

#[test]
fn of_failures_and_closures(rt: HostRuntime) -> Result<(), Fail> {
    let alloc = rt.alloc();
    all_hold(&[
        ("no memory", is_copied(alloc, Some(NoMemory))),
        ("a refusal", is_copied(alloc, Some(refused()))),
        (
            "a failure for want of memory",
            is_copied(alloc, Some(memory())),
        ),
        ("a cycle", is_copied(alloc, cycle(12))),
        ("a missing edge", is_copied(alloc, missing_edge(12))),
        ("they differ", differ()),
    ])
}
