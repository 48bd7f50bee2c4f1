// SPDX-License-Identifier: Apache-2.0
ghost use Rattle.std.specs.Prelude.{◌≡◌, ◌++◌, [], List, map, flat_map, IfOk, OnOk};
ghost use Rattle.std.specs.declared.cmp.Ordering.{Ordering};
ghost use Rattle.cedar_data.specs.Answers.{IfRefused};
ghost use Rattle.cedar_data.specs.Maps.{map_of};
ghost use Rattle.cedar_text.specs.Lists.{elements};

use crate::non_empty::NonEmpty;
use cedar_data::{Failure, Map, Mem, Out};
use std::alloc::Global;

/// A member of a list that gives entries, or all that is wrong with it.
pub trait Convert<K, V, E>: Sized {
    /// What is seen of a key, and of a value.
    ghost Name: { Type 0 };

    ghost Content: { Type 0 };

    ghost name: { K → Name };

    ghost content: { V → Content };

    /// The order of the names.
    ghost order: { Name → Name → Ordering };

    /// What is wrong with it.
    ghost faults: { Self → List E };

    /// The entries that it gives, where nothing is.
    ghost entries: { Self → List (Name × Content) };

    /// Its entries, or all that is wrong with it.
    fn convert(self, alloc: Global) -> Out<Vec<(K, V)>, NonEmpty<E>>
        ensures faultless { IfOk result (λ made. faults self ≡ []) }
        ensures made { IfOk result (λ made. map (λ e. (name e.0, content e.1)) made.items
            ≡ entries self) }
        ensures refused { IfRefused result (λ wrong. elements wrong ≡ faults self) };
}

/// The entries of all members, each member's in order; or all that is wrong with any, in order.
#[tactic(auto, using(crate::proofs::Members::collecting))]
pub fn collect<K: Drop, V: Drop, E: Drop, M: Convert<K, V, E> + Drop>(
    alloc: Global,
    members: Vec<M>,
) -> Out<Vec<(K, V)>, NonEmpty<E>>
    ensures faultless { IfOk result (λ made. flat_map M.faults members.items ≡ []) }
    ensures made { IfOk result (λ made. map (λ e. (M.name e.0, M.content e.1)) made.items
        ≡ flat_map M.entries members.items) }
    ensures refused { IfRefused result (λ wrong. elements wrong ≡ flat_map M.faults members.items) }
{
    let mut made = Vec::new(alloc);
    let mut wrong = Vec::new(alloc);
    for member in members {
        match member.convert(alloc) {
            Ok(entries) => push_all(entries, &mut made)?,
            Err(Failure::Refused(faults)) => push_elements(faults, &mut wrong)?,
            Err(Failure::NoMemory) => return Err(Failure::NoMemory),
        }
    }
    match NonEmpty::from_vec(wrong) {
        None => Ok(made),
        Some(wrong) => Err(Failure::Refused(wrong)),
    }
}

/// The entries of all members by name; or all that is wrong with any, in order. Of several entries of one name, the last
/// counts.
pub fn collect_map<K: Ord + Drop, V: Drop, E: Drop, M: Convert<K, V, E> + Drop>(
    alloc: Global,
    members: Vec<M>,
) -> Out<Map<K, V>, NonEmpty<E>>
    requires in_order { (a b : K) → K.cmp a b ≡ M.order (M.name a) (M.name b) }
    ensures faultless { IfOk result (λ made. flat_map M.faults members.items ≡ []) }
    ensures made { IfOk result (λ made. map (λ e. (M.name e.0, M.content e.1)) made
        ≡ map_of M.order (flat_map M.entries members.items)) }
    ensures refused { IfRefused result (λ wrong. elements wrong ≡ flat_map M.faults members.items) }
{
    let pairs = collect(alloc, members)?;
    let made = Map::from_pairs(alloc, pairs)?;
    Ok(made)
}

/// Puts these items behind the others.
pub fn push_all<T: Drop>(items: Vec<T>, all: &mut Vec<T>) -> Mem<()>
    ensures { OnOk result (all.new.items ≡ all.old.items ++ items.items) }
{
    for item in items {
        all.push(item)?;
    }
    Ok(())
}

/// Puts the items of such a list behind the others.
pub fn push_elements<T: Drop>(items: NonEmpty<T>, all: &mut Vec<T>) -> Mem<()>
    ensures { OnOk result (all.new.items ≡ all.old.items ++ elements items) }
{
    let NonEmpty { head, tail } = items;
    all.push(head)?;
    push_all(tail.into_vec(), all)
}
