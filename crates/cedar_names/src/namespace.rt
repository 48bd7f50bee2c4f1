// SPDX-License-Identifier: Apache-2.0
ghost use Rattle.std.specs.Prelude.{◌≡◌, [], ◌∷◌, ◌++◌, ◌↔◌, IsTrue, IfOk};
ghost use Rattle.std.specs.Slice.Iter.{iter_rest};

use crate::id::Id;
use cedar_text::{Dup, Items, Mem, Shared};
use std::alloc::Global;
use std::marker::Model;
use std::slice::Iter;

/// The identifiers of a namespace, outermost first. Copies of what is shared count as owners, and take no memory.
#[derive(Debug, Drop)]
pub struct Namespace {
    held: Held,
}

/// Who holds the identifiers: the namespace alone, or several.
#[derive(Debug, Drop)]
enum Held {
    Alone(Items<Id>),
    Together(Shared<Items<Id>>),
}

impl Model for Namespace {
    ghost use Rattle.std.specs.Prelude.{List};
    ghost use Rattle.cedar_names.specs.declared.id.Id.{Id};
    ghost use Rattle.cedar_names.specs.Namespaces.{ids_held};

    ghost Value = { List Id };

    ghost view = { λ n. ids_held n.held };
}

impl Namespace {
    /// The empty namespace.
    pub fn none(alloc: Global) -> Namespace
        ensures { result ≡ [] }
    {
        Namespace {
            held: Held::Alone(Items::new(alloc)),
        }
    }

    /// The namespace of these identifiers. It takes no memory, and its first copy does.
    pub fn alone(ids: Vec<Id>) -> Namespace
        ensures { result ≡ ids.items }
    {
        Namespace {
            held: Held::Alone(Items::from_vec(ids)),
        }
    }

    /// The namespace of these identifiers, whose copies take no memory.
    pub fn shared(alloc: Global, ids: Vec<Id>) -> Mem<Namespace>
        ensures { IfOk result (λ n. n ≡ ids.items) }
    {
        if ids.is_empty() {
            return Ok(Namespace::alone(ids));
        }
        let ids = Shared::new(alloc, Items::from_vec(ids))?;
        Ok(Namespace {
            held: Held::Together(ids),
        })
    }

    /// The identifiers as a slice.
    pub fn as_slice(&self) -> &[Id]
        ensures { result.now ≡ self.now }
    {
        match &self.held {
            Held::Alone(ids) => ids.as_slice(),
            Held::Together(ids) => ids.get().as_slice(),
        }
    }

    /// The identifiers, outermost first.
    pub fn iter(&self) -> Iter<'_, Id>
        ensures { iter_rest result ≡ self.now }
    {
        self.as_slice().iter()
    }

    /// Whether there are none.
    pub fn is_empty(&self) -> bool
        ensures { IsTrue result ↔ (self.now ≡ []) }
    {
        self.as_slice().is_empty()
    }

    /// The identifiers and one more behind them, in a list of their own, which has no room for others.
    pub fn to_ids_with(&self, alloc: Global, last: Id) -> Mem<Vec<Id>>
        ensures { IfOk result (λ ids. ids.items ≡ self.now ++ last ∷ []) }
    {
        let outer = self.as_slice();
        let mut ids = Vec::with_capacity(alloc, outer.len().saturating_add(1))?;
        for id in outer {
            ids.push(id.dup(alloc)?)?;
        }
        ids.push(last)?;
        Ok(ids)
    }
}

impl Dup for Namespace {
    fn dup(&self, alloc: Global) -> Mem<Namespace> {
        match &self.held {
            Held::Alone(ids) => {
                let ids = ids.dup(alloc)?;
                Namespace::shared(alloc, ids.into_vec())
            }
            Held::Together(ids) => {
                let ids = ids.dup(alloc)?;
                Ok(Namespace {
                    held: Held::Together(ids),
                })
            }
        }
    }
}
