// SPDX-License-Identifier: Apache-2.0
//! A set of full names, in which a name is found by its namespace, and then by its basename.
ghost use Rattle.std.specs.Prelude.{◌≡◌, [], OnOk, OnErr};
ghost use Rattle.std.specs.BTreeSet.{insert_key};
ghost use Rattle.cedar_data.specs.Sets.{contains};
ghost use Rattle.cedar_names.specs.Names.{internal_cmp};

use crate::spaces::Spaces;
use cedar_data::{Dup, Mem, Set, SetIter};
use cedar_names::InternalName;
use std::alloc::Global;
use std::marker::Model;

/// Full names. Contracts see them as the list of them, in order. Their basenames are kept beside them by their
/// namespaces, in which a name is found at less cost. Where memory was wanting for these, they are let go, and names are
/// looked up whole.
#[derive(Debug, Drop)]
pub(crate) struct NameSet {
    names: Set<InternalName>,
    spaces: Option<Spaces>,
}

impl Model for NameSet {
    ghost use Rattle.std.specs.Prelude.{List};
    ghost use Rattle.cedar_names.specs.declared.internal_name.InternalName.{InternalName};
    ghost use Rattle.cedar_declared.specs.Basenames.{HaveNames};

    ghost Value = { List InternalName };

    ghost view = { λ s. s.names };

    ghost invariant = { λ s. HaveNames s.spaces s.names };
}

impl NameSet {
    /// No names. It takes no memory.
    pub(crate) fn none(alloc: Global) -> NameSet
        ensures { result ≡ [] }
    {
        NameSet {
            names: Set::new(alloc),
            spaces: Some(Spaces::none(alloc)),
        }
    }

    /// Whether the name is one of them.
    pub(crate) fn contains(&self, name: &InternalName) -> bool
        ensures { result ≡ contains internal_cmp self.now name.now }
    {
        match &self.spaces {
            Some(spaces) => spaces.contains(name),
            None => self.names.contains(name),
        }
    }

    /// The names, in order.
    pub(crate) fn iter(&self) -> SetIter<'_, InternalName>
        ensures { result ≡ self.now }
    {
        self.names.iter()
    }

    /// Puts a name to the others; an equal one that is there stays. It fails only for want of memory, and then changes
    /// nothing.
    pub(crate) fn insert(&mut self, alloc: Global, name: InternalName) -> Mem<()>
        ensures ok { OnOk result (self.new ≡ insert_key internal_cmp self.old name) }
        ensures err { OnErr result (self.new ≡ self.old) }
    {
        let spaces = match self.spaces.take() {
            None => None,
            Some(mut spaces) => {
                spaces.insert(alloc, &name)?;
                Some(spaces)
            }
        };
        self.names.insert(name)?;
        self.spaces = spaces;
        Ok(())
    }
}

impl Dup for NameSet {
    fn dup(&self, alloc: Global) -> Mem<NameSet> {
        let names = self.names.dup(alloc)?;
        let spaces = self.spaces.dup(alloc)?;
        Ok(NameSet { names, spaces })
    }
}
