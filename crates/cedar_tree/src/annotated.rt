// SPDX-License-Identifier: Apache-2.0
ghost use Rattle.std.specs.Prelude.{◌≡◌, ◌&&◌, Some, None, IfOk, option_map, refl};
ghost use Rattle.std.specs.BTreeMap.{insert_entry};
ghost use Rattle.std.specs.Cmp.{on_per, and_per, on_equiv, and_equiv, on_po, then_po, on_total, then_total, then_agrees, both_tied};
ghost use Rattle.std.specs.Ordering.{ordering_then, partial_ordering_then};
ghost use Rattle.cedar_names.specs.of_data.Maps.{get, Puts};
ghost use Rattle.cedar_names.specs.Annotating.{annotation_entries, any_cmp};
ghost use Rattle.cedar_names.specs.of_text.Failures.{IfRefused};
ghost use Rattle.cedar_names.specs.of_text.Places.{span_of};
ghost use Rattle.cedar_tree.specs.Comparing.{annotations_eq, annotations_cmp, annotations-per, annotations-equiv, annotations-po, annotations-total, annotations-ties};
ghost use Rattle.cedar_tree.specs.Annotating.{meaning, meant, repeat_in, value_text};
ghost use Rattle.cedar_tree.specs.declared.parse_error.UserError.TheVariants.{DuplicateAnnotations};

use crate::parse_error::UserError;
use cedar_names::{
    Annotation, Annotations, AnyId, Dup, Failure, Loc, Map, Mem, Node, Out, Span, Text,
};
use std::alloc::Global;
use std::cmp::Ordering;

/// An item with its annotations. Comparisons leave the places of annotations out.
#[derive(Debug, Drop)]
pub struct Annotated<T> {
    /// The item. Its place, where it has one, leaves the annotations out.
    pub item: T,
    /// The annotations, in the order of their keys; none where none is written.
    pub annotations: Annotations,
}

impl<T: Dup> Dup for Annotated<T> {
    fn dup(&self, alloc: Global) -> Mem<Annotated<T>> {
        let annotations = self.annotations.dup(alloc)?;
        let item = self.item.dup(alloc)?;
        Ok(Annotated { item, annotations })
    }
}

impl<T: PartialEq> PartialEq for Annotated<T> {
    ghost eq = { λ a b. T.eq a.item b.item && annotations_eq a.annotations b.annotations };

    ghost laws = { and_per (on_per (λ a. a.item) T.PartialEq.laws)
        (on_per (λ a. a.annotations) annotations-per) };

    fn eq(&self, other: &Self) -> bool {
        self.item == other.item && self.annotations == other.annotations
    }
}

impl<T: Eq> Eq for Annotated<T> {
    ghost laws = { and_equiv (on_equiv (λ a. a.item) T.Eq.laws)
        (on_equiv (λ a. a.annotations) annotations-equiv) };
}

impl<T: PartialOrd> PartialOrd for Annotated<T> {
    ghost partial_cmp = { λ a b. partial_ordering_then (T.partial_cmp a.item b.item)
        (Some (annotations_cmp a.annotations b.annotations)) };

    ghost laws = { then_po (on_po (λ a. a.item) T.PartialOrd.laws)
        (on_po (λ a. a.annotations) annotations-po) };

    fn partial_cmp(&self, other: &Self) -> Option<Ordering> {
        match self.item.partial_cmp(&other.item) {
            Some(Ordering::Equal) => Some(self.annotations.cmp(&other.annotations)),
            different => different,
        }
    }
}

impl<T: Ord> Ord for Annotated<T> {
    ghost cmp = { λ a b. ordering_then (T.cmp a.item b.item)
        (annotations_cmp a.annotations b.annotations) };

    ghost total = { then_total (on_total (λ a. a.item) T.total)
        (on_total (λ a. a.annotations) annotations-total) };

    ghost matches_partial_cmp = { then_agrees (λ a b. T.matches_partial_cmp a.item b.item)
        (λ a b. refl) };

    ghost matches_eq = { λ a b.
        both_tied _ _ (T.cmp a.item b.item) (annotations_cmp a.annotations b.annotations)
        (T.matches_eq a.item b.item) (annotations-ties a.annotations b.annotations) };

    fn cmp(&self, other: &Self) -> Ordering {
        match self.item.cmp(&other.item) {
            Ordering::Equal => self.annotations.cmp(&other.annotations),
            different => different,
        }
    }
}

/// The item with these annotations, each a key with its value. An annotation without a value has the empty text.
/// Refused with the first key that repeats one before it, and with both their places.
pub fn deduplicate_annotations<T: Drop>(
    alloc: Global,
    item: T,
    annotations: Vec<Node<(Node<AnyId>, Option<Node<Text>>)>>,
) -> Out<Annotated<T>, UserError>
    ensures item { IfOk result (λ annotated. annotated.item ≡ item) }
    ensures once { IfOk result (λ _. repeat_in annotations.items ≡ None) }
    ensures annotations { IfOk result (λ annotated. annotation_entries annotated.annotations
        ≡ meaning annotations.items) }
    ensures refused { IfRefused result (λ fault. repeat_in annotations.items ≡ Some fault) }
{
    let annotations = by_key(alloc, annotations)?;
    Ok(Annotated { item, annotations })
}

/// What these annotations mean, by their keys; refused with the first key that repeats one before it.
fn by_key(
    alloc: Global,
    annotations: Vec<Node<(Node<AnyId>, Option<Node<Text>>)>>,
) -> Out<Annotations, UserError>
    ensures once { IfOk result (λ _. repeat_in annotations.items ≡ None) }
    ensures means { IfOk result (λ unique. annotation_entries unique ≡ meaning annotations.items) }
    ensures refused { IfRefused result (λ fault. repeat_in annotations.items ≡ Some fault) }
{
    let mut unique = Annotations::new(alloc);
    let mut places: Map<AnyId, Span> = Map::new(alloc);
    for annotation in annotations {
        put_annotation(alloc, &mut places, &mut unique, annotation)?;
    }
    Ok(unique)
}

/// Notes the place of the key of an annotation, and puts its value at the key; refused where the key was noted before.
fn put_annotation(
    alloc: Global,
    places: &mut Map<AnyId, Span>,
    unique: &mut Annotations,
    annotation: Node<(Node<AnyId>, Option<Node<Text>>)>,
) -> Out<(), UserError>
    ensures new { IfOk result (λ _. None ≡ get any_cmp places.old annotation.node.0.node) }
    ensures noted { IfOk result (λ _. Puts any_cmp places.old places.new
        annotation.node.0.node (span_of annotation.node.0.loc)) }
    ensures means { IfOk result (λ _. annotation_entries unique.new
        ≡ insert_entry any_cmp (annotation_entries unique.old) (meant annotation).0
        (meant annotation).1) }
    ensures refused { IfRefused result (λ fault. option_map
        (λ first. DuplicateAnnotations annotation.node.0.node first (span_of annotation.node.0.loc))
        (get any_cmp places.old annotation.node.0.node) ≡ Some fault) }
{
    let Node {
        node: (key, value),
        loc,
    } = annotation;
    note_key(alloc, places, &key)?;
    put_value(alloc, unique, key.node, value, loc)?;
    Ok(())
}

/// Notes a key and its place; refused where it was noted before.
fn note_key(alloc: Global, places: &mut Map<AnyId, Span>, key: &Node<AnyId>) -> Out<(), UserError>
    ensures new { IfOk result (λ _. None ≡ get any_cmp places.old key.now.node) }
    ensures puts { IfOk result (λ _. Puts any_cmp places.old places.new
        key.now.node (span_of key.now.loc)) }
    ensures refused { IfRefused result
        (λ fault.
        option_map (λ first. DuplicateAnnotations key.now.node first (span_of key.now.loc))
        (get any_cmp places.old key.now.node) ≡ Some fault) }
{
    let place = key.loc.span();
    let key = key.node.dup(alloc)?;
    note(places, key, place)
}

/// Notes the place of a key; refused where it was noted before.
fn note(places: &mut Map<AnyId, Span>, key: AnyId, place: Span) -> Out<(), UserError>
    ensures new { IfOk result (λ _. None ≡ get any_cmp places.old key) }
    ensures puts { IfOk result (λ _. Puts any_cmp places.old places.new key place) }
    ensures refused { IfRefused result
        (λ fault.
        option_map (λ first. DuplicateAnnotations key first place) (get any_cmp places.old key)
        ≡ Some fault) }
{
    if let Some(first) = places.get(&key) {
        return Err(Failure::Refused(UserError::DuplicateAnnotations(key, *first, place)));
    }
    places.put(key, place)?;
    Ok(())
}

/// Puts the value of an annotation at its key.
fn put_value(
    alloc: Global,
    unique: &mut Annotations,
    key: AnyId,
    value: Option<Node<Text>>,
    loc: Loc,
) -> Mem<()>
    ensures { IfOk result (λ _. annotation_entries unique.new
        ≡ insert_entry any_cmp (annotation_entries unique.old) key
        (record { val = value_text value; loc = Some loc })) }
{
    let val = value_text(alloc, value)?;
    let meant = Annotation {
        val,
        loc: Some(loc),
    };
    unique.insert(key, meant)?;
    Ok(())
}

/// The text of a value, the empty one where there is none.
fn value_text(alloc: Global, value: Option<Node<Text>>) -> Mem<Text>
    ensures { IfOk result (λ text. text ≡ value_text value) }
{
    match value {
        None => Text::new(alloc, ""),
        Some(value) => Ok(value.node),
    }
}
