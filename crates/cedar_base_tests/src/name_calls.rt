// SPDX-License-Identifier: Apache-2.0
use crate::holding::{all_hold, are_equal, is_copied, is_written};
use crate::making::{placed_name, shared_name, text, uid};
use cedar_data::{Failure, Out};
use cedar_names::{Annotation, Annotations, AnyId, Id, InternalName, Name, UnreservedId};
use cedar_text::NameFault;
use std::alloc::Global;
use std::test::Fail;

/// A word that is known to be an identifier.
fn known(alloc: Global) -> Option<UnreservedId> {
    UnreservedId::known(alloc, "a_1").ok()
}

/// The name of the words `A` and `B`.
fn of_words(alloc: Global) -> Option<Name> {
    let words = vec![in alloc; text(alloc, "A")?, text(alloc, "B")?].ok()?;
    Name::of_words(alloc, words).ok()
}

/// What is said of the word `in`.
fn reserved(alloc: Global) -> Option<NameFault> {
    let refused: Out<(), NameFault> = cedar_text::reserved(alloc, "in");
    match refused {
        Err(Failure::Refused(fault)) => Some(fault),
        _ => None,
    }
}

/// What it has to be.
fn wanted(alloc: Global) -> Option<NameFault> {
    let word = text(alloc, "in")?;
    Some(NameFault::Reserved { word })
}

/// The annotation of this value, with no place.
fn annotation(alloc: Global, value: &str) -> Option<Annotation> {
    let val = text(alloc, value)?;
    Some(Annotation { val, loc: None })
}

/// The word `in`.
fn key(alloc: Global) -> Option<AnyId> {
    AnyId::new(alloc, "in").ok()?
}

/// Puts an annotation at the key `in`.
fn annotate(alloc: Global, annotations: &mut Annotations, value: &str) -> Option<()> {
    match (key(alloc), annotation(alloc, value)) {
        (Some(key), Some(annotation)) => annotations.insert(key, annotation).ok(),
        _ => None,
    }
}

/// Annotations at the key `in`, of which the second stays.
fn annotations(alloc: Global) -> Option<Annotations> {
    let mut annotations = Annotations::new(alloc);
    annotate(alloc, &mut annotations, "first")?;
    annotate(alloc, &mut annotations, "second")?;
    Some(annotations)
}

/// Whether the second annotation stays, and is the only one.
fn is_second(made: Option<Annotations>) -> bool {
    match made {
        Some(annotations) => has_second(&annotations),
        None => false,
    }
}

fn has_second(annotations: &Annotations) -> bool {
    is_value(annotations.get("in"), "second")
        && annotations.get("is").is_none()
        && annotations.iter().count() == 1
}

/// Whether an annotation is there, and has this value.
fn is_value(found: Option<&Annotation>, value: &str) -> bool {
    match found {
        Some(annotation) => annotation.val.as_str() == value,
        None => false,
    }
}

/// Whether there are no annotations before one is put.
fn is_empty_at_first(alloc: Global) -> bool {
    Annotations::new(alloc).is_empty()
}

#[test]
fn of_names(rt: HostRuntime) -> Result<(), Fail> {
    let alloc = rt.alloc();
    all_hold(&[
        (
            "a known word is kept",
            is_written(alloc, known(alloc), "a_1"),
        ),
        (
            "words make a name",
            is_written(alloc, of_words(alloc), "A::B"),
        ),
        (
            "a name is written",
            is_written(alloc, placed_name(alloc), "A::B"),
        ),
        (
            "`__cedar` is written",
            is_written(alloc, Id::cedar(alloc).ok(), "__cedar"),
        ),
        (
            "`__cedar` is a name",
            is_written(alloc, InternalName::cedar(alloc).ok(), "__cedar"),
        ),
        (
            "`in` is refused",
            are_equal(reserved(alloc), wanted(alloc)) == Some(true),
        ),
    ])
}

#[test]
fn of_shared_names(rt: HostRuntime) -> Result<(), Fail> {
    let alloc = rt.alloc();
    all_hold(&[
        (
            "a name is written",
            is_written(alloc, shared_name(alloc), "A::B"),
        ),
        ("a name is copied", is_copied(alloc, shared_name(alloc))),
        (
            "they are equal",
            are_equal(shared_name(alloc), placed_name(alloc)) == Some(true),
        ),
    ])
}

#[test]
fn of_entities_and_annotations(rt: HostRuntime) -> Result<(), Fail> {
    let alloc = rt.alloc();
    all_hold(&[
        (
            "an entity is written",
            is_written(alloc, uid(alloc), "A::B::\"x\\'y\""),
        ),
        ("no annotations", is_empty_at_first(alloc)),
        ("the second stays", is_second(annotations(alloc))),
        (
            "annotations are copied",
            is_copied(alloc, annotations(alloc)),
        ),
    ])
}
