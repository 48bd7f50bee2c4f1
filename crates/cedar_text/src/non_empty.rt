// SPDX-License-Identifier: Apache-2.0
ghost use Rattle.std.specs.Prelude.{◌≡◌, [], ◌∷◌, ◌++◌, ◌-◌, ◌^◌, min, length, MatchOption, OnOk, OnErr};
ghost use Rattle.std.specs.Iterator.{YieldsFirstRef, item_count};
ghost use Rattle.cedar_text.specs.Lists.{elements, elements_left};

use cedar_data::{Dup, Items, Mem};
use std::alloc::Global;
use std::slice::Iter;

/// A list of at least one item.
#[derive(Debug, Drop, PartialEq, Eq, PartialOrd, Ord, Hash)]
pub struct NonEmpty<T> {
    /// The first item.
    pub head: T,
    /// The items after the first.
    pub tail: Items<T>,
}

impl<T> NonEmpty<T> {
    /// The list of one item.
    pub fn singleton(alloc: Global, head: T) -> NonEmpty<T>
        ensures { elements result ≡ head ∷ [] }
    {
        NonEmpty {
            head,
            tail: Items::new(alloc),
        }
    }

    /// The first item.
    pub fn first(&self) -> &T
        ensures { result.now ≡ self.now.head }
    {
        &self.head
    }

    /// The number of items, or the greatest `usize` where there are more.
    pub fn len(&self) -> usize
        ensures { result ≡ min (length (elements self.now)) (2 ^ 64 - 1) }
    {
        self.tail.len().saturating_add(1)
    }

    /// The items, from the first.
    pub fn iter(&self) -> NonEmptyIter<'_, T>
        ensures { elements_left result ≡ elements self.now }
    {
        NonEmptyIter {
            head: Some(&self.head),
            tail: self.tail.iter(),
        }
    }
}

impl<T: Drop> NonEmpty<T> {
    /// The items of a `Vec`, unless it is empty.
    pub fn from_vec(mut v: Vec<T>) -> Option<NonEmpty<T>>
        ensures { MatchOption result (v.items ≡ []) (λ list. elements list ≡ v.items) }
    {
        if v.is_empty() {
            return None;
        }
        let head = v.remove(0);
        Some(NonEmpty {
            head,
            tail: Items::from_vec(v),
        })
    }

    /// Puts an item after the last.
    pub fn push(&mut self, item: T) -> Mem<()>
        ensures ok { OnOk result (elements self.new ≡ elements self.old ++ item ∷ []) }
        ensures err { OnErr result (self.new ≡ self.old) }
    {
        self.tail.push(item)
    }
}

impl<T: Dup + Drop> Dup for NonEmpty<T> {
    fn dup(&self, alloc: Global) -> Mem<NonEmpty<T>> {
        let head = self.head.dup(alloc)?;
        let tail = self.tail.dup(alloc)?;
        Ok(NonEmpty { head, tail })
    }
}

/// The items of a `NonEmpty`, from the first.
#[derive(Debug, Drop)]
pub struct NonEmptyIter<'a, T> {
    head: Option<&'a T>,
    tail: Iter<'a, T>,
}

impl<'a, T> Iterator for NonEmptyIter<'a, T> {
    type Item = &'a T;

    ghost next_gives = { YieldsFirstRef elements_left };

    ghost remaining = { item_count elements_left };

    fn next(&mut self) -> Option<&'a T> {
        match self.head.take() {
            Some(item) => Some(item),
            None => self.tail.next(),
        }
    }
}
