// SPDX-License-Identifier: Apache-2.0
ghost use Rattle.std.specs.Prelude.{◌≡◌, ◌&&◌, ℕ, List, None, Some, IfOk, OnOk, option_map};
ghost use Rattle.std.specs.Option.{option_or};
ghost use Rattle.cedar_merge.specs.Joining.{AddsDeclarations, ClashesAt, ConflictsAt, Finds, Joins, Keeps, again, annotations_with, clash_place, conflict_place, finished, is_place_of, nothing, notes_under, otherwise};
ghost use Rattle.cedar_merge.specs.Lookups.{at_word, text_at};
ghost use Rattle.cedar_merge.specs.Merged.{note_cmp, place_cmp};
ghost use Rattle.cedar_merge.specs.Pairs.{opposed};
ghost use Rattle.cedar_names.specs.Annotating.{annotation_entries};

use crate::adding::add_entries;
use crate::errors::DeclKind;
use crate::keys::{Stands, Word};
use crate::places::{ClashPlace, ConflictPlace, lesser};
use cedar_data::{Dup, Map, Mem};
use cedar_fragment::{NamespaceDefinition, RawName};
use cedar_names::{Annotation, Annotations, AnyId, Name};
use std::alloc::Global;

/// What fragments say of a namespace together.
#[derive(Drop)]
pub(crate) struct Joined {
    /// What they declare; it has no annotations.
    pub(crate) definition: NamespaceDefinition<RawName>,
    /// Their annotations of it.
    pub(crate) notes: Map<AnyId, Annotation>,
}

/// What stands against merging, so far.
#[derive(Drop)]
pub(crate) struct Found {
    /// The least place at which two fragments declare something.
    pub(crate) clash: Option<ClashPlace>,
    /// The least one at which they give an annotation different texts.
    pub(crate) conflict: Option<ConflictPlace>,
}

impl Found {
    /// Nothing stands against it.
    pub(crate) fn nothing() -> Found
        ensures clash { result.clash ≡ None }
        ensures conflict { result.conflict ≡ None }
    {
        Found {
            clash: None,
            conflict: None,
        }
    }
}

impl Joined {
    /// Nothing is said.
    pub(crate) fn new(alloc: Global) -> Joined
        ensures { result ≡ nothing }
    {
        Joined {
            definition: NamespaceDefinition {
                common_types: Map::new(alloc),
                entity_types: Map::new(alloc),
                actions: Map::new(alloc),
                annotations: Annotations::new(alloc),
            },
            notes: Map::new(alloc),
        }
    }

    /// The definition with the annotations.
    pub(crate) fn finish(self, alloc: Global) -> Mem<NamespaceDefinition<RawName>>
        ensures { IfOk result (λ d. d ≡ finished self) }
    {
        let Joined { definition, notes } = self;
        let annotations = annotations_of(alloc, notes)?;
        Ok(NamespaceDefinition {
            annotations,
            ..definition
        })
    }
}

/// The annotations that a map holds.
fn annotations_of(alloc: Global, notes: Map<AnyId, Annotation>) -> Mem<Annotations>
    ensures { IfOk result (λ annotations. annotations ≡ annotations_with notes) }
{
    let mut annotations = Annotations::new(alloc);
    for (key, note) in notes.into_entries() {
        annotations.insert(key, note)?;
    }
    Ok(annotations)
}

/// Copies of annotations, as a map.
fn copies_of(alloc: Global, annotations: &Annotations) -> Mem<Map<AnyId, Annotation>>
    ensures { IfOk result (λ notes. annotations_with notes ≡ annotations.now) }
{
    let mut notes = Map::new(alloc);
    for (key, note) in annotations.iter() {
        let key = key.dup(alloc)?;
        let note = note.dup(alloc)?;
        notes.push_last(key, note)?;
    }
    Ok(notes)
}

/// Adds declarations of one kind to those of a namespace, and answers the least clash so far.
fn add_kind<K: Word + Dup + Drop, V: Stands + Drop>(
    alloc: Global,
    path: &Option<Name>,
    kind: DeclKind,
    all: &mut Map<K, V>,
    more: Map<K, V>,
    clash: Option<ClashPlace>,
) -> Mem<Option<ClashPlace>>
    ensures values { OnOk result ((name : List ℕ) → at_word K.word all.new name
        ≡ option_or (at_word K.word more name) (at_word K.word all.old name)) }
    ensures clash { IfOk result (λ now. Finds place_cmp
        (λ p. is_place_of path.now kind p
        && opposed V.against (at_word K.word all.old p.name) (at_word K.word more p.name))
        (option_map clash_place clash) (option_map clash_place now)) }
    ensures kept { IfOk result (Keeps (ClashesAt path.now (λ p. is_place_of path.now kind p
        && opposed V.against (at_word K.word all.old p.name) (at_word K.word more p.name))) clash) }
{
    match add_entries(alloc, all, more)? {
        None => Ok(clash),
        Some(key) => {
            let place = ClashPlace::of(alloc, path, kind, key.word())?;
            Ok(lesser(clash, Some(place)))
        }
    }
}

/// Adds what a definition declares to what a namespace declares, and answers the least clash so far.
fn add_declarations(
    alloc: Global,
    path: &Option<Name>,
    all: &mut NamespaceDefinition<RawName>,
    more: NamespaceDefinition<RawName>,
    clash: Option<ClashPlace>,
) -> Mem<Option<ClashPlace>>
    ensures declarations { OnOk result (AddsDeclarations all.old more all.new) }
    ensures clash { IfOk result (λ now. Finds place_cmp (again path.now all.old more)
        (option_map clash_place clash) (option_map clash_place now)) }
    ensures kept { IfOk result (Keeps (ClashesAt path.now (again path.now all.old more)) clash) }
{
    let NamespaceDefinition {
        common_types,
        entity_types,
        actions,
        annotations: _,
    } = more;
    let kind = DeclKind::Common;
    let clash = add_kind(
        alloc,
        path,
        kind,
        &mut all.common_types,
        common_types,
        clash,
    )?;
    let kind = DeclKind::Entity;
    let clash = add_kind(
        alloc,
        path,
        kind,
        &mut all.entity_types,
        entity_types,
        clash,
    )?;
    let kind = DeclKind::Action;
    let clash = add_kind(alloc, path, kind, &mut all.actions, actions, clash)?;
    Ok(clash)
}

/// Adds annotations of a namespace to those that it has, and answers the least conflict so far. Where it has no name,
/// none counts.
fn add_notes(
    alloc: Global,
    path: &Option<Name>,
    all: &mut Map<AnyId, Annotation>,
    annotations: &Annotations,
    conflict: Option<ConflictPlace>,
) -> Mem<Option<ConflictPlace>>
    ensures notes { OnOk result ((key : List ℕ) → text_at all.new key
        ≡ option_or (text_at (notes_under path.now annotations.now) key) (text_at all.old key)) }
    ensures conflict { IfOk result (λ now. Finds note_cmp
        (otherwise path.now all.old annotations.now)
        (option_map conflict_place conflict) (option_map conflict_place now)) }
    ensures kept { IfOk result (Keeps (ConflictsAt path.now
        (otherwise path.now all.old annotations.now)) conflict) }
{
    match path {
        None => Ok(conflict),
        Some(name) => {
            let conflict = add_named_notes(alloc, name, all, annotations, conflict)?;
            Ok(conflict)
        }
    }
}

/// Adds annotations of a namespace with a name to those that it has, and answers the least conflict so far.
fn add_named_notes(
    alloc: Global,
    name: &Name,
    all: &mut Map<AnyId, Annotation>,
    annotations: &Annotations,
    conflict: Option<ConflictPlace>,
) -> Mem<Option<ConflictPlace>>
    ensures notes { OnOk result ((key : List ℕ) → text_at all.new key
        ≡ option_or (text_at (annotation_entries annotations.now) key) (text_at all.old key)) }
    ensures conflict { IfOk result (λ now. Finds note_cmp
        (otherwise (Some name.now) all.old annotations.now)
        (option_map conflict_place conflict) (option_map conflict_place now)) }
    ensures kept { IfOk result (Keeps (ConflictsAt (Some name.now)
        (otherwise (Some name.now) all.old annotations.now)) conflict) }
{
    let more = copies_of(alloc, annotations)?;
    match add_entries(alloc, all, more)? {
        None => Ok(conflict),
        Some(key) => {
            let place = ConflictPlace::of(alloc, name, key)?;
            Ok(lesser(conflict, Some(place)))
        }
    }
}

/// Adds what a definition says of a namespace to what is said of it, and answers what stands against merging so far.
pub(crate) fn join(
    alloc: Global,
    path: &Option<Name>,
    joined: &mut Joined,
    definition: NamespaceDefinition<RawName>,
    found: Found,
) -> Mem<Found>
    ensures joins { OnOk result (Joins path.now joined.old definition joined.new) }
    ensures clash { IfOk result (λ now. Finds place_cmp
        (again path.now joined.old.definition definition)
        (option_map clash_place found.clash) (option_map clash_place now.clash)) }
    ensures conflict { IfOk result (λ now. Finds note_cmp
        (otherwise path.now joined.old.notes definition.annotations)
        (option_map conflict_place found.conflict) (option_map conflict_place now.conflict)) }
    ensures kept_clash { IfOk result (λ now. Keeps
        (ClashesAt path.now (again path.now joined.old.definition definition))
        found.clash now.clash) }
    ensures kept_conflict { IfOk result (λ now. Keeps
        (ConflictsAt path.now (otherwise path.now joined.old.notes definition.annotations))
        found.conflict now.conflict) }
{
    let Found { clash, conflict } = found;
    let annotations = &definition.annotations;
    let conflict = add_notes(alloc, path, &mut joined.notes, annotations, conflict)?;
    let clash = add_declarations(alloc, path, &mut joined.definition, definition, clash)?;
    Ok(Found { clash, conflict })
}
