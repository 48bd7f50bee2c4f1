// SPDX-License-Identifier: Apache-2.0
//! The basenames of names, by their namespaces.
ghost use Rattle.std.specs.Prelude.{◌≡◌, [], true, length, IfOk, IfErr, OnOk};
ghost use Rattle.cedar_data.specs.Places.{StandsAt, BelongsAt};
ghost use Rattle.cedar_names.specs.Components.{namespace_of};
ghost use Rattle.cedar_declared.specs.Basenames.{PutsName, in_spaces, space_cmp};

use cedar_data::{Dup, Items, Mem, Near, Set};
use cedar_names::{Id, InternalName};
use std::alloc::Global;
use std::cell::Cell;
use std::marker::Model;

/// Namespaces in order, each with the basenames of the names in it. Contracts see them as the list of them. A name is
/// found by its namespace, and then by its basename among few others.
#[derive(Debug, Drop)]
pub(crate) struct Spaces {
    spaces: Vec<(Items<Id>, Set<Id>)>,
    /// Where a namespace was found last. The next one that is looked for is mostly the same.
    recent: Cell<usize>,
    /// Where a basename was looked for last.
    near: Cell<Near>,
}

impl Model for Spaces {
    ghost use Rattle.std.specs.Prelude.{List};
    ghost use Rattle.cedar_data.specs.Maps.{IsSortedMap};
    ghost use Rattle.cedar_names.specs.declared.id.Id.{Id};
    ghost use Rattle.cedar_declared.specs.Basenames.{space_cmp};

    ghost Value = { List (List Id × List Id) };

    ghost view = { λ s. s.spaces.items };

    ghost invariant = { λ s. IsSortedMap space_cmp s.spaces.items };
}

/// A copy of the identifiers of the namespace.
fn namespace_of(alloc: Global, name: &InternalName) -> Mem<Items<Id>>
    ensures { IfOk result (λ ids. ids ≡ namespace_of name.now) }
{
    let mut ids = Items::new(alloc);
    for id in name.namespace_components() {
        ids.push(id.dup(alloc)?)?;
    }
    Ok(ids)
}

impl Spaces {
    /// No namespaces. It takes no memory.
    pub(crate) fn none(alloc: Global) -> Spaces
        ensures { result ≡ [] }
    {
        Spaces {
            spaces: Vec::new(alloc),
            recent: Cell::new(0),
            near: Cell::new(Near::first()),
        }
    }

    /// True only where this namespace stands there.
    fn stands_at(&self, at: usize, namespace: &[Id]) -> bool
        ensures { (result ≡ true) → StandsAt space_cmp self.now namespace.now at }
    {
        match self.spaces.as_slice().get(at) {
            Some(space) => space.0.as_slice() == namespace,
            None => false,
        }
    }

    /// Where the namespace stands, or else where it would be put.
    fn search(&self, namespace: &[Id]) -> Result<usize, usize>
        ensures found { IfOk result (λ at. StandsAt space_cmp self.now namespace.now at) }
        ensures missing { IfErr result (λ at. BelongsAt space_cmp self.now namespace.now at) }
    {
        self.spaces
            .as_slice()
            .binary_search_by(|space| space.0.as_slice().cmp(namespace))
    }

    /// As `search`, which is spared where the namespace is the one that was found last.
    fn place(&self, namespace: &[Id]) -> Result<usize, usize>
        ensures found { IfOk result (λ at. StandsAt space_cmp self.now namespace.now at) }
        ensures missing { IfErr result (λ at. BelongsAt space_cmp self.now namespace.now at) }
    {
        let recent = self.recent.get();
        if self.stands_at(recent, namespace) {
            return Ok(recent);
        }
        let place = self.search(namespace);
        if let Ok(at) = place {
            self.recent.set(at);
        }
        place
    }

    /// Whether the basename of the name is one of those of its namespace.
    pub(crate) fn contains(&self, name: &InternalName) -> bool
        ensures { result ≡ in_spaces self.now name.now }
    {
        match self.place(name.namespace_components().as_slice()) {
            Ok(at) => {
                let mut near = self.near.get();
                let found = self.spaces[at].1.contains_near(&mut near, name.basename());
                self.near.set(near);
                found
            }
            Err(_) => false,
        }
    }

    /// Puts the basename of the name to those of its namespace. It fails only for want of memory.
    pub(crate) fn insert(&mut self, alloc: Global, name: &InternalName) -> Mem<()>
        ensures { OnOk result (PutsName self.old self.new name.now) }
    {
        let basename = name.basename().dup(alloc)?;
        match self.place(name.namespace_components().as_slice()) {
            Ok(at) => {
                self.spaces[at].1.insert(basename)?;
            }
            Err(at) => {
                let namespace = namespace_of(alloc, name)?;
                let mut basenames = Set::new(alloc);
                basenames.insert(basename)?;
                self.spaces.insert(at, (namespace, basenames))?;
                self.recent.set(at);
            }
        }
        Ok(())
    }
}

impl Dup for Spaces {
    fn dup(&self, alloc: Global) -> Mem<Spaces> {
        let mut spaces = Vec::with_capacity(alloc, self.spaces.len())?;
        for (namespace, basenames) in self.spaces.as_slice() {
            let namespace = namespace.dup(alloc)?;
            let basenames = basenames.dup(alloc)?;
            spaces.push((namespace, basenames))?;
        }
        Ok(Spaces {
            spaces,
            recent: Cell::new(0),
            near: Cell::new(Near::first()),
        })
    }
}
