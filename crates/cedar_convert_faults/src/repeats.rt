// SPDX-License-Identifier: Apache-2.0
ghost use Rattle.std.specs.Prelude.{◌≡◌, ◌||◌, ◌&&◌, IsTrue, None, IfOk, length, nat_eq, nat_lt};
ghost use Rattle.std.specs.Option.{option_copied};
ghost use Rattle.std.specs.Ordering.{is_lt};
ghost use Rattle.cedar_names.specs.Order.{word_cmp};
ghost use Rattle.cedar_convert_faults.specs.Repeats.{first_repeat, place_of, IsFirstOrNone};

use cedar_data::{Dup, Items, Map, Mem, Text};
use cedar_text::{Loc, Node};
use std::alloc::Global;

/// A name that stands a second time, with the places of the first two.
#[derive(Debug, Drop, PartialEq, Eq)]
pub struct Repeat {
    pub name: Text,
    pub first: Loc,
    pub second: Loc,
}

impl Dup for Repeat {
    fn dup(&self, alloc: Global) -> Mem<Repeat> {
        let name = self.name.dup(alloc)?;
        let first = self.first.dup(alloc)?;
        let second = self.second.dup(alloc)?;
        Ok(Repeat {
            name,
            first,
            second,
        })
    }
}

/// Among so many names one is found by a look at each.
pub(crate) const FEW: usize = 16;

/// That this name stands again, the place of an earlier one being the first.
pub(crate) fn repeat_of(alloc: Global, first: &Loc, name: &Node<Text>) -> Mem<Repeat>
    ensures { IfOk result (λ repeat. repeat
        ≡ record { name = name.now.node; first = first.now; second = name.now.loc }) }
{
    let first = first.dup(alloc)?;
    let second = name.loc.dup(alloc)?;
    let name = name.node.dup(alloc)?;
    Ok(Repeat {
        name,
        first,
        second,
    })
}

/// The place of the first of these names that is the word, if one is.
fn place_of<'a>(names: &'a [Node<Text>], word: &Text) -> Option<&'a Loc>
    ensures { option_copied result ≡ place_of names.now word.now }
{
    for name in names {
        if name.node == *word {
            return Some(&name.loc);
        }
    }
    None
}

/// The first of few names that stands a second time, if one does, each looked for among those before it.
#[tactic(auto, using(crate::proofs::FewNames::sought))]
fn first_repeat_of_few(alloc: Global, names: &[Node<Text>]) -> Mem<Option<Repeat>>
    ensures { IfOk result (λ repeat. repeat ≡ first_repeat names.now) }
{
    for at in 0..names.len() {
        let name = &names[at];
        if let Some(first) = place_of(&names[..at], &name.node) {
            let repeat = repeat_of(alloc, first, name)?;
            return Ok(Some(repeat));
        }
    }
    Ok(None)
}

/// Whether a name is longer than another, or as long and behind it in the order of bytes.
fn is_behind(name: &Text, other: &Text) -> bool
    ensures { result ≡ (nat_lt (length other.now) (length name.now)
        || (nat_eq (length other.now) (length name.now) && is_lt (word_cmp other.now name.now))) }
{
    let (len, other_len) = (name.as_str().len(), other.as_str().len());
    other_len < len || (other_len == len && other < name)
}

/// Whether each name is longer than the one before it, or as long and behind that in the order of bytes. No name stands
/// twice then.
#[tactic(auto, using(crate::proofs::Ascending::ascending))]
fn ascend(names: &Items<Node<Text>>) -> bool
    ensures { IsTrue result → first_repeat names.now ≡ None }
{
    let Some((first, others)) = names.as_slice().split_first() else {
        return true;
    };
    let mut last = &first.node;
    for name in others {
        if !is_behind(&name.node, last) {
            return false;
        }
        last = &name.node;
    }
    true
}

/// The first name that stands a second time, if one does. It fails only for want of memory.
#[tactic(auto, using(crate::proofs::Repeated::repeated))]
pub fn first_repeat(alloc: Global, names: &Items<Node<Text>>) -> Mem<Option<Repeat>>
    ensures { IfOk result (λ repeat. repeat ≡ first_repeat names.now) }
{
    if names.len() <= FEW {
        return first_repeat_of_few(alloc, names.as_slice());
    }
    if ascend(names) {
        return Ok(None);
    }
    let mut places: Map<Text, Loc> = Map::new(alloc);
    for name in names.iter() {
        let word = name.node.dup(alloc)?;
        let place = name.loc.dup(alloc)?;
        match places.insert(word, place)? {
            None => {}
            Some(first) => {
                let second = name.loc.dup(alloc)?;
                let name = name.node.dup(alloc)?;
                return Ok(Some(Repeat {
                    name,
                    first,
                    second,
                }));
            }
        }
    }
    Ok(None)
}

/// It is the first name that stands a second time, and with none all names are distinct.
#[tactic(auto, using(crate::proofs::FirstRepeats::is_first))]
pub fn repeat_is_first(alloc: Global, names: &Items<Node<Text>>) -> Mem<Option<Repeat>>
    ensures { IfOk result (λ repeat. IsFirstOrNone names.now repeat) }
{
    first_repeat(alloc, names)
}
