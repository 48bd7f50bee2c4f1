// SPDX-License-Identifier: Apache-2.0
ghost use Rattle.std.specs.Prelude.{map};
ghost use Rattle.std.specs.Option.{option_map};
ghost use Rattle.std.specs.declared.result.Result.{Result};
ghost use Rattle.cedar_print.specs.of_data.Maps.{map_values};
ghost use Rattle.cedar_written.specs.Answers.{Answers, all_items, all_values, in_option};
ghost use Rattle.cedar_written.specs.Through.{through_attribute, through_names, through_record, through_type, through_variant};

use crate::reference_type::ReferenceType;
use crate::step::Step;
use crate::ty::{RecordType, SchemaType, TypeOfAttribute, TypeVariant};
use crate::walk::{walk_attribute, walk_record, walk_type, walk_variant};
use cedar_print::{Items, Map, Out};
use std::alloc::Global;

/// What has names that a step can be taken through.
pub trait Walk<N, S: Step<N>>: Sized {
    /// The same with what comes of each name in its place.
    type Full: Drop;

    /// What comes of it, want of memory aside.
    ghost through: { S → Self → Result Self.Full S.Refusal };

    /// The same with what comes of each name in its place, or the first refusal in the order of fields and keys.
    fn walk(self, alloc: Global, step: &S) -> Out<Self::Full, S::Refusal>
        ensures { Answers result (through step.now self) };
}

/// What comes of names of one kind, or the first refusal.
#[tactic(auto, using(crate::proofs::Goes::goes))]
pub fn walk_names<N: Drop, S: Step<N>>(
    alloc: Global,
    step: &S,
    kind: ReferenceType,
    names: Items<N>,
) -> Out<Items<S::Made>, S::Refusal>
    ensures { Answers result (through_names (S.step step.now) kind names) }
{
    let mut made = Items::with_room(alloc, names.len())?;
    for name in names.into_vec() {
        let name = step.go(alloc, kind, name)?;
        made.push(name)?;
    }
    Ok(made)
}

impl<N, S: Step<N>, T: Walk<N, S>> Walk<N, S> for Option<T> {
    type Full = Option<T::Full>;

    ghost through = { λ step o. in_option (option_map (T.through step) o) };

    #[tactic(auto, using(crate::proofs::Goes::goes))]
    fn walk(self, alloc: Global, step: &S) -> Out<Option<T::Full>, S::Refusal> {
        match self {
            None => Ok(None),
            Some(value) => {
                let value = value.walk(alloc, step)?;
                Ok(Some(value))
            }
        }
    }
}

impl<N, S: Step<N>, T: Walk<N, S> + Drop> Walk<N, S> for Items<T> {
    type Full = Items<T::Full>;

    ghost through = { λ step items. all_items (map (T.through step) items) };

    #[tactic(auto, using(crate::proofs::Goes::goes))]
    fn walk(self, alloc: Global, step: &S) -> Out<Items<T::Full>, S::Refusal> {
        let mut made = Items::with_room(alloc, self.len())?;
        for item in self.into_vec() {
            let item = item.walk(alloc, step)?;
            made.push(item)?;
        }
        Ok(made)
    }
}

impl<N, S: Step<N>, K: Ord + Drop, T: Walk<N, S> + Drop> Walk<N, S> for Map<K, T> {
    type Full = Map<K, T::Full>;

    ghost through = { λ step entries. all_values (map_values (T.through step) entries) };

    #[tactic(auto, using(crate::proofs::Goes::goes))]
    fn walk(self, alloc: Global, step: &S) -> Out<Map<K, T::Full>, S::Refusal> {
        let mut made = Map::with_room(alloc, self.len())?;
        for (key, value) in self.into_entries() {
            let value = value.walk(alloc, step)?;
            made.push_last(key, value)?;
        }
        Ok(made)
    }
}

impl<N: Drop, S: Step<N>> Walk<N, S> for SchemaType<N> {
    type Full = SchemaType<S::Made>;

    ghost through = { λ step. through_type (S.step step) };

    fn walk(self, alloc: Global, step: &S) -> Out<SchemaType<S::Made>, S::Refusal> {
        walk_type(alloc, step, self)
    }
}

impl<N: Drop, S: Step<N>> Walk<N, S> for TypeVariant<N> {
    type Full = TypeVariant<S::Made>;

    ghost through = { λ step. through_variant (S.step step) };

    fn walk(self, alloc: Global, step: &S) -> Out<TypeVariant<S::Made>, S::Refusal> {
        walk_variant(alloc, step, self)
    }
}

impl<N: Drop, S: Step<N>> Walk<N, S> for RecordType<N> {
    type Full = RecordType<S::Made>;

    ghost through = { λ step. through_record (S.step step) };

    fn walk(self, alloc: Global, step: &S) -> Out<RecordType<S::Made>, S::Refusal> {
        walk_record(alloc, step, self)
    }
}

impl<N: Drop, S: Step<N>> Walk<N, S> for TypeOfAttribute<N> {
    type Full = TypeOfAttribute<S::Made>;

    ghost through = { λ step. through_attribute (S.step step) };

    fn walk(self, alloc: Global, step: &S) -> Out<TypeOfAttribute<S::Made>, S::Refusal> {
        walk_attribute(alloc, step, self)
    }
}
