// SPDX-License-Identifier: Apache-2.0
ghost use Rattle.std.specs.Prelude.{◌≡◌, None, Some, IfOk};
ghost use Rattle.std.specs.Fmt.{WritesOnOk};
ghost use Rattle.std.specs.Option.{option_copied, option_map_or};
ghost use Rattle.cedar_merge.specs.ErrorPlaces.{error_spans};
ghost use Rattle.cedar_merge.specs.Texts.{conflict_text, duplicate_text, error_text, full_text, within_text};
ghost use Rattle.cedar_places.specs.Places.{name_place};

use cedar_data::{Dup, Mem, Text, dup_two};
use cedar_names::{AnyId, Name};
use cedar_places::range_of;
use cedar_text::{Escaped, Loc, Span};
use std::alloc::Global;
use std::error::Error;
use std::fmt;

/// What a fragment declares. The kinds are ordered as they stand here.
#[derive(Clone, Copy, Debug, PartialEq, Eq, PartialOrd, Ord)]
pub enum DeclKind {
    /// A common type.
    Common,
    /// An entity type.
    Entity,
    /// An action.
    Action,
}

/// Why fragments can't be merged.
#[derive(Debug, Drop, PartialEq, Eq)]
pub enum MergeError {
    /// Two fragments declare the same.
    DuplicateDeclaration {
        /// What they declare.
        kind: DeclKind,
        /// The namespace, if it has a name.
        namespace: Option<Name>,
        /// The name in the namespace; of an action its id.
        name: Text,
    },
    /// Two fragments give an annotation of a namespace different texts.
    AnnotationConflict {
        /// The namespace.
        namespace: Name,
        /// The key of the annotation.
        key: AnyId,
    },
}

/// Writes the components of a namespace, each with `::` behind it.
fn write_within<W: fmt::Write>(namespace: &Option<Name>, f: &mut fmt::Formatter<W>) -> fmt::Result
    ensures { WritesOnOk W.write_str_gives f.old result (within_text namespace.now) f.new }
{
    match namespace {
        None => Ok(()),
        Some(namespace) => write!(f, "{namespace}::"),
    }
}

/// Writes a full name.
fn write_full_name<W: fmt::Write>(
    kind: DeclKind,
    namespace: &Option<Name>,
    name: &Text,
    f: &mut fmt::Formatter<W>,
) -> fmt::Result
    ensures { WritesOnOk W.write_str_gives f.old result
        (full_text kind namespace.now name.now) f.new }
{
    write_within(namespace, f)?;
    match kind {
        DeclKind::Common | DeclKind::Entity => write!(f, "{name}"),
        DeclKind::Action => {
            let id = Escaped(name.as_str());
            write!(f, "Action::\"{id}\"")
        }
    }
}

/// Writes that two fragments declare something.
fn write_duplicate<W: fmt::Write>(
    kind: DeclKind,
    namespace: &Option<Name>,
    name: &Text,
    f: &mut fmt::Formatter<W>,
) -> fmt::Result
    ensures { WritesOnOk W.write_str_gives f.old result
        (duplicate_text kind namespace.now name.now) f.new }
{
    write!(f, "`")?;
    write_full_name(kind, namespace, name, f)?;
    write!(f, "` is declared in more than one fragment")
}

/// Writes that two fragments give an annotation different texts.
fn write_conflict<W: fmt::Write>(
    namespace: &Name,
    key: &AnyId,
    f: &mut fmt::Formatter<W>,
) -> fmt::Result
    ensures { WritesOnOk W.write_str_gives f.old result (conflict_text namespace.now key.now)
        f.new }
{
    write!(f, "annotation `{key}` of namespace `{namespace}` differs")
}

impl fmt::Display for MergeError {
    ghost output = { λ e. Some (error_text e) };

    fn fmt<W: fmt::Write>(&self, f: &mut fmt::Formatter<W>) -> fmt::Result {
        match self {
            MergeError::DuplicateDeclaration {
                kind,
                namespace,
                name,
            } => write_duplicate(*kind, namespace, name, f),
            MergeError::AnnotationConflict { namespace, key } => write_conflict(namespace, key, f),
        }
    }
}

impl Error for MergeError {}

/// The place of a namespace, if it has a name and that a place.
fn place_of(namespace: &Option<Name>) -> Option<&Loc>
    ensures { option_copied result ≡ option_map_or name_place namespace.now None }
{
    match namespace {
        Some(namespace) => namespace.as_internal().loc(),
        None => None,
    }
}

impl MergeError {
    /// What to do about it: there is nothing to say.
    pub fn help(&self, _alloc: Global) -> Mem<Option<String>>
        ensures { IfOk result (λ help. help ≡ None) }
    {
        Ok(None)
    }

    /// The places of the kept names that have one, in bytes of their text: that of the namespace.
    pub fn spans(&self, alloc: Global) -> Mem<Vec<Span>>
        ensures { IfOk result (λ spans. spans.items ≡ error_spans self.now) }
    {
        match self {
            MergeError::DuplicateDeclaration {
                kind: _,
                namespace,
                name: _,
            } => range_of(alloc, place_of(namespace)),
            MergeError::AnnotationConflict { namespace, key: _ } => {
                range_of(alloc, namespace.as_internal().loc())
            }
        }
    }
}

impl Dup for DeclKind {
    fn dup(&self, _alloc: Global) -> Mem<DeclKind> {
        Ok(*self)
    }
}

impl Dup for MergeError {
    fn dup(&self, alloc: Global) -> Mem<MergeError> {
        match self {
            MergeError::DuplicateDeclaration {
                kind,
                namespace,
                name,
            } => {
                let (namespace, name) = dup_two(alloc, namespace, name)?;
                Ok(MergeError::DuplicateDeclaration {
                    kind: *kind,
                    namespace,
                    name,
                })
            }
            MergeError::AnnotationConflict { namespace, key } => {
                let (namespace, key) = dup_two(alloc, namespace, key)?;
                Ok(MergeError::AnnotationConflict { namespace, key })
            }
        }
    }
}
