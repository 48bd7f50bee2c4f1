// SPDX-License-Identifier: Apache-2.0
//! The comparisons of maps and sets, which are those of their entries in order.
ghost use Rattle.std.specs.Prelude.{◌≡◌, ◌&&◌};
ghost use Rattle.std.specs.Cmp.Lexicographic.{pointwise, slice_cmp, slice_partial_cmp};
ghost use Rattle.std.specs.Ordering.{ordering_then, partial_ordering_then};

use crate::entries_iter::EntriesIter;
use std::cmp::Ordering;

/// Whether the keys are equal, and the values.
fn same_pair<K: Ord, V: PartialEq>(key: &K, value: &V, other_key: &K, other_value: &V) -> bool
    ensures { result ≡ (K.eq key.now other_key.now && V.eq value.now other_value.now) }
{
    key.eq(other_key) && value.eq(other_value)
}

/// Whether each entry equals the other's.
pub(crate) fn same_entries<K: Ord, V: PartialEq>(
    left: EntriesIter<'_, K, V>,
    right: EntriesIter<'_, K, V>,
) -> bool
    ensures { result ≡ pointwise (λ p q. K.eq p.0 q.0 && V.eq p.1 q.1) left.entry right.entry }
{
    if left.len() != right.len() {
        return false;
    }
    let mut left = left;
    let mut right = right;
    while let Some((key, value)) = left.next() {
        let Some((other_key, other_value)) = right.next() else {
            return false;
        };
        if !same_pair(key, value, other_key, other_value) {
            return false;
        }
    }
    true
}

/// How the keys compare, and the values where the keys are equal.
fn partially_compare_pair<K: Ord, V: PartialOrd>(
    key: &K,
    value: &V,
    other_key: &K,
    other_value: &V,
) -> Option<Ordering>
    ensures { result ≡ partial_ordering_then
        (K.partial_cmp key.now other_key.now) (V.partial_cmp value.now other_value.now) }
{
    match key.partial_cmp(other_key) {
        Some(found) => match found {
            Ordering::Equal => value.partial_cmp(other_value),
            Ordering::Less => Some(Ordering::Less),
            Ordering::Greater => Some(Ordering::Greater),
        },
        None => None,
    }
}

/// How the first entries that are not equal compare, or the lengths.
pub(crate) fn partially_compare_entries<K: Ord, V: PartialOrd>(
    left: EntriesIter<'_, K, V>,
    right: EntriesIter<'_, K, V>,
) -> Option<Ordering>
    ensures { result ≡ slice_partial_cmp (λ p q. partial_ordering_then
        (K.partial_cmp p.0 q.0) (V.partial_cmp p.1 q.1)) left.entry right.entry }
{
    let mut left = left;
    let mut right = right;
    while let Some((key, value)) = left.next() {
        let Some((other_key, other_value)) = right.next() else {
            return Some(Ordering::Greater);
        };
        match partially_compare_pair(key, value, other_key, other_value) {
            Some(found) => match found {
                Ordering::Equal => {}
                Ordering::Less => return Some(Ordering::Less),
                Ordering::Greater => return Some(Ordering::Greater),
            },
            None => return None,
        }
    }
    match right.next() {
        Some(_) => Some(Ordering::Less),
        None => Some(Ordering::Equal),
    }
}

/// How the keys compare, or the values where the keys are equal.
fn compare_pair<K: Ord, V: Ord>(key: &K, value: &V, other_key: &K, other_value: &V) -> Ordering
    ensures { result ≡ ordering_then
        (K.cmp key.now other_key.now) (V.cmp value.now other_value.now) }
{
    match key.cmp(other_key) {
        Ordering::Equal => value.cmp(other_value),
        Ordering::Less => Ordering::Less,
        Ordering::Greater => Ordering::Greater,
    }
}

/// How the first entries that are not equal compare, or the lengths.
pub(crate) fn compare_entries<K: Ord, V: Ord>(
    left: EntriesIter<'_, K, V>,
    right: EntriesIter<'_, K, V>,
) -> Ordering
    ensures { result ≡ slice_cmp (λ p q. ordering_then
        (K.cmp p.0 q.0) (V.cmp p.1 q.1)) left.entry right.entry }
{
    let mut left = left;
    let mut right = right;
    while let Some((key, value)) = left.next() {
        let Some((other_key, other_value)) = right.next() else {
            return Ordering::Greater;
        };
        match compare_pair(key, value, other_key, other_value) {
            Ordering::Equal => {}
            Ordering::Less => return Ordering::Less,
            Ordering::Greater => return Ordering::Greater,
        }
    }
    match right.next() {
        Some(_) => Ordering::Less,
        None => Ordering::Equal,
    }
}
