// SPDX-License-Identifier: Apache-2.0
ghost use Rattle.std.specs.Prelude.{◌≡◌, IfOk};
ghost use Rattle.cedar_merge.specs.Joining.{clash_error, clash_place, conflict_error, conflict_place, lesser};
ghost use Rattle.cedar_merge.specs.Texts.{note_told, place_told};

use crate::errors::{DeclKind, MergeError};
use cedar_data::{Dup, Mem, Text, dup_two};
use cedar_names::{AnyId, Name};
use std::alloc::Global;
use std::cmp::Ordering;

/// Where fragments may declare something. Places are ordered by namespace, in it by kind, and then by name.
#[derive(Drop, PartialEq, Eq, PartialOrd, Ord)]
pub(crate) struct ClashPlace {
    namespace: Option<Name>,
    kind: DeclKind,
    name: Text,
}

impl ClashPlace {
    /// The place of this kind and name in a namespace.
    pub(crate) fn of(
        alloc: Global,
        namespace: &Option<Name>,
        kind: DeclKind,
        name: &Text,
    ) -> Mem<ClashPlace>
        ensures told { IfOk result (λ place. clash_place place
            ≡ place_told kind namespace.now name.now) }
        ensures kept { IfOk result (λ place. place.namespace ≡ namespace.now) }
    {
        let (namespace, name) = dup_two(alloc, namespace, name)?;
        Ok(ClashPlace {
            namespace,
            kind,
            name,
        })
    }

    /// The error that two fragments declare something there.
    pub(crate) fn into_error(self) -> MergeError
        ensures { result ≡ clash_error self }
    {
        let ClashPlace {
            namespace,
            kind,
            name,
        } = self;
        MergeError::DuplicateDeclaration {
            kind,
            namespace,
            name,
        }
    }
}

/// Where they may annotate a namespace. These are ordered by namespace, and then by key.
#[derive(Drop, PartialEq, Eq, PartialOrd, Ord)]
pub(crate) struct ConflictPlace {
    namespace: Name,
    key: AnyId,
}

impl ConflictPlace {
    /// The place of this key in a namespace.
    pub(crate) fn of(alloc: Global, namespace: &Name, key: AnyId) -> Mem<ConflictPlace>
        ensures told { IfOk result (λ place. conflict_place place ≡ note_told namespace.now key) }
        ensures kept { IfOk result (λ place. place.namespace ≡ namespace.now) }
    {
        let namespace = namespace.dup(alloc)?;
        Ok(ConflictPlace { namespace, key })
    }

    /// The error that two fragments give it different texts.
    pub(crate) fn into_error(self) -> MergeError
        ensures { result ≡ conflict_error self }
    {
        let ConflictPlace { namespace, key } = self;
        MergeError::AnnotationConflict { namespace, key }
    }
}

/// The lesser of two, or the one that is there.
pub(crate) fn lesser<T: Ord + Drop>(first: Option<T>, second: Option<T>) -> Option<T>
    ensures { result ≡ lesser T.cmp first second }
{
    let Some(first) = first else { return second };
    let Some(second) = second else {
        return Some(first);
    };
    match second.cmp(&first) {
        Ordering::Less => Some(second),
        Ordering::Equal | Ordering::Greater => Some(first),
    }
}
