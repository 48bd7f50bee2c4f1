// SPDX-License-Identifier: Apache-2.0
//! Parts of definitions with the full name that each reference means in its place.
ghost use Rattle.std.specs.Prelude.{◌≡◌, List, Option, map};
ghost use Rattle.std.specs.Option.{option_map};
ghost use Rattle.std.specs.Result.{result_map_both};
ghost use Rattle.std.specs.declared.result.Result.{Result};
ghost use Rattle.cedar_data.specs.Maps.{map_values};
ghost use Rattle.cedar_declared.specs.Held.{names_of};
ghost use Rattle.cedar_declared.specs.Names.{Names};
ghost use Rattle.cedar_declared.specs.Targets.{resolving};
ghost use Rattle.cedar_fragment.specs.Definitions.{through_shape};
ghost use Rattle.cedar_names.specs.declared.internal_name.InternalName.{InternalName};
ghost use Rattle.cedar_complete.specs.Completed.{all_three, through_set};
ghost use Rattle.cedar_written.specs.Answers.{Answers, all_items, all_values, in_option};
ghost use Rattle.cedar_written.specs.Through.{through_type};

use crate::targets::{Member, target_set};
use cedar_data::{Items, Map, Out, Set};
use cedar_declared::{AllDefs, Resolving, unboxed};
use cedar_fragment::{AttributesOrContext, ConditionalName, SchemaType, Walk};
use cedar_names::InternalName;
use cedar_schema_error::SchemaError;
use std::alloc::Global;

/// What has references, of which the same is made over full names.
pub trait Completes: Sized {
    ghost use Rattle.cedar_schema_error.specs.declared.schema_error.SchemaError.{SchemaError};

    /// The same over full names.
    type Full: Drop;

    /// What the result is told as: the same, with names in place of entity types.
    ghost Content: { Type 0 };

    /// What this result is told as.
    ghost content: { Self.Full → Content };

    /// What comes of it, want of memory aside.
    ghost completed: { Names → Self → Result Content SchemaError };

    /// The same with the full name that each reference means, or the refusal of a reference that
    /// means none.
    fn complete(self, alloc: Global, all_defs: &AllDefs) -> Out<Self::Full, SchemaError>
        ensures { Answers (result_map_both content (λ e. e) result)
            (completed (names_of all_defs.now) self) };
}

impl<K: Ord + Drop, V: Completes + Drop> Completes for Map<K, V> {
    type Full = Map<K, V::Full>;

    ghost Content = { List (K × V.Completes.Content) };

    ghost content = { map_values V.Completes.content };

    ghost completed = { λ names es. all_values (map_values (V.Completes.completed names) es) };

    #[tactic(auto, using(crate::proofs::Contents::contents))]
    fn complete(self, alloc: Global, all_defs: &AllDefs) -> Out<Map<K, V::Full>, SchemaError> {
        let mut made = Map::new(alloc);
        for (key, value) in self.into_entries() {
            let value = value.complete(alloc, all_defs)?;
            made.push_last(key, value)?;
        }
        Ok(made)
    }
}

impl<T: Completes + Drop> Completes for Items<T> {
    type Full = Items<T::Full>;

    ghost Content = { List T.Completes.Content };

    ghost content = { map T.Completes.content };

    ghost completed = { λ names items. all_items (map (T.Completes.completed names) items) };

    #[tactic(auto, using(crate::proofs::Contents::listed))]
    fn complete(self, alloc: Global, all_defs: &AllDefs) -> Out<Items<T::Full>, SchemaError> {
        let mut made = Items::new(alloc);
        for item in self.into_vec() {
            let item = item.complete(alloc, all_defs)?;
            made.push(item)?;
        }
        Ok(made)
    }
}

impl Completes for SchemaType<ConditionalName> {
    ghost use Rattle.cedar_written.specs.declared.ty.SchemaType.{SchemaType};

    type Full = SchemaType<InternalName>;

    ghost Content = { SchemaType InternalName };

    ghost content = { λ t. t };

    ghost completed = { λ names. through_type (resolving names) };

    fn complete(
        self,
        alloc: Global,
        all_defs: &AllDefs,
    ) -> Out<SchemaType<InternalName>, SchemaError> {
        unboxed(self.walk(alloc, &Resolving { all_defs }))
    }
}

impl Completes for Option<SchemaType<ConditionalName>> {
    ghost use Rattle.cedar_written.specs.declared.ty.SchemaType.{SchemaType};

    type Full = Option<SchemaType<InternalName>>;

    ghost Content = { Option (SchemaType InternalName) };

    ghost content = { λ t. t };

    ghost completed = { λ names t. in_option (option_map (through_type (resolving names)) t) };

    fn complete(
        self,
        alloc: Global,
        all_defs: &AllDefs,
    ) -> Out<Option<SchemaType<InternalName>>, SchemaError> {
        unboxed(self.walk(alloc, &Resolving { all_defs }))
    }
}

impl Completes for AttributesOrContext<ConditionalName> {
    ghost use Rattle.cedar_fragment.specs.declared.attributes_or_context.AttributesOrContext.{AttributesOrContext};

    type Full = AttributesOrContext<InternalName>;

    ghost Content = { AttributesOrContext InternalName };

    ghost content = { λ t. t };

    ghost completed = { λ names. through_shape (resolving names) };

    fn complete(
        self,
        alloc: Global,
        all_defs: &AllDefs,
    ) -> Out<AttributesOrContext<InternalName>, SchemaError> {
        unboxed(self.walk(alloc, &Resolving { all_defs }))
    }
}

/// What the references of a set mean, and two parts over full names.
pub(crate) fn complete_around<
    K: Ord + Member<F> + Drop,
    F: Ord + Drop,
    A: Completes + Drop,
    B: Completes + Drop,
>(
    alloc: Global,
    all_defs: &AllDefs,
    keys: Set<K>,
    first: A,
    second: B,
) -> Out<(Set<F>, A::Full, B::Full), SchemaError>
    requires in_order { (a b : F) → F.cmp a b
        ≡ K.Member.order (K.Member.content a) (K.Member.content b) }
    ensures { Answers
        (result_map_both
        (λ p. (map K.Member.content p.0, A.Completes.content p.1, B.Completes.content p.2))
        (λ e. e) result)
        (all_three (through_set K.Member.order (K.Member.meant (names_of all_defs.now)) keys)
        (A.Completes.completed (names_of all_defs.now) first)
        (B.Completes.completed (names_of all_defs.now) second)) }
{
    let targets = target_set(alloc, all_defs, &keys)?;
    let first = first.complete(alloc, all_defs)?;
    let second = second.complete(alloc, all_defs)?;
    Ok((targets, first, second))
}

/// Three parts over full names.
pub(crate) fn complete_three<A: Completes + Drop, B: Completes + Drop, C: Completes + Drop>(
    alloc: Global,
    all_defs: &AllDefs,
    first: A,
    second: B,
    third: C,
) -> Out<(A::Full, B::Full, C::Full), SchemaError>
    ensures { Answers
        (result_map_both
        (λ p. (A.Completes.content p.0, B.Completes.content p.1, C.Completes.content p.2))
        (λ e. e) result)
        (all_three (A.Completes.completed (names_of all_defs.now) first)
        (B.Completes.completed (names_of all_defs.now) second)
        (C.Completes.completed (names_of all_defs.now) third)) }
{
    let first = first.complete(alloc, all_defs)?;
    let second = second.complete(alloc, all_defs)?;
    let third = third.complete(alloc, all_defs)?;
    Ok((first, second, third))
}
