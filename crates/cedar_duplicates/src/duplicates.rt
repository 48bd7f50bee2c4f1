// SPDX-License-Identifier: Apache-2.0
ghost use Rattle.std.specs.Prelude.{◌≡◌, ◌++◌, [], fold, map, IfOk, MatchOption, OnOk};
ghost use Rattle.cedar_data.specs.Firsts.{FirstAgain, NoneAgain};
ghost use Rattle.cedar_duplicates.specs.Declarations.{same_by, with_declarations};
ghost use Rattle.cedar_duplicates.specs.Duplicates.{AreOnce, IsTwice};
ghost use Rattle.cedar_definitions.specs.DeclaredNames.{all_actions, all_types};
ghost use Rattle.cedar_schema_error.specs.KeptDeclarations.{KeepsAmong, placed, placed_action};
ghost use Rattle.cedar_schema_error.specs.Told.{told};
ghost use Rattle.cedar_written.specs.Answers.{IfRefused};

use crate::declaration::{Declaration, Declares};
use cedar_data::{Dup, Failure, Items, Map, Mem, Out, Set};
use cedar_definitions::ValidatorNamespaceDef;
use cedar_schema_error::{RefName, SchemaError};
use std::alloc::Global;

/// Refused with the first full name that definitions declare a second time: by definition in order, in each by common
/// types, entity types and actions, each in order. The name is told as it is declared, with its place.
pub fn refuse_duplicates<N: RefName + Ord, A: Ord>(
    alloc: Global,
    definitions: &[ValidatorNamespaceDef<N, A>],
) -> Out<(), SchemaError>
    ensures once { IfOk result (λ _. AreOnce definitions.now) }
    ensures twice { IfRefused result (λ e. IsTwice definitions.now (told e)) }
    ensures kept { IfRefused result
        (KeepsAmong (map placed (all_types definitions.now))
        (map placed_action (all_actions definitions.now))) }
{
    let declarations = gather_declarations(alloc, definitions)?;
    match first_again(alloc, declarations)? {
        None => Ok(()),
        Some(declaration) => Err(Failure::Refused(declaration.into_error())),
    }
}

/// All that definitions declare, in order.
fn gather_declarations<N: RefName + Ord, A: Ord>(
    alloc: Global,
    definitions: &[ValidatorNamespaceDef<N, A>],
) -> Mem<Items<Declaration>>
    ensures { IfOk result (λ all. all ≡ fold with_declarations [] definitions.now) }
{
    let mut all = Items::new(alloc);
    for definition in definitions {
        push_declarations(alloc, &mut all, definition)?;
    }
    Ok(all)
}

/// Puts what a definition declares behind the others.
fn push_declarations<N: RefName + Ord, A: Ord>(
    alloc: Global,
    all: &mut Items<Declaration>,
    definition: &ValidatorNamespaceDef<N, A>,
) -> Mem<()>
    ensures { OnOk result (all.new ≡ with_declarations all.old definition.now) }
{
    push_names(alloc, all, &definition.common_types.defs)?;
    push_names(alloc, all, &definition.entity_types.defs)?;
    push_names(alloc, all, &definition.actions.actions)
}

/// Puts the declarations of these names behind the others.
#[tactic(auto, using(crate::proofs::Pushed::pushed))]
fn push_names<K: Ord + Declares, V>(
    alloc: Global,
    all: &mut Items<Declaration>,
    entries: &Map<K, V>,
) -> Mem<()>
    ensures { OnOk result (all.new ≡ all.old ++ map (λ e. K.Declares.declaration e.0) entries.now) }
{
    for (name, _) in entries.iter() {
        let declaration = name.declaration(alloc)?;
        all.push(declaration)?;
    }
    Ok(())
}

/// The first item that is equal to one before it.
#[tactic(auto, using(crate::proofs::Seen::seen))]
fn first_again<K: Ord + Dup + Drop>(alloc: Global, items: Items<K>) -> Mem<Option<K>>
    ensures { IfOk result
        (λ o. MatchOption o (NoneAgain (same_by K.cmp) [] items)
        (λ k. FirstAgain (same_by K.cmp) [] items k)) }
{
    let mut seen = Set::new(alloc);
    for item in items.into_vec() {
        let copy = item.dup(alloc)?;
        if !seen.insert(copy)? {
            return Ok(Some(item));
        }
    }
    Ok(None)
}
