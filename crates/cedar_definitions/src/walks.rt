// SPDX-License-Identifier: Apache-2.0
ghost use Rattle.std.specs.Prelude.{◌≡◌};
ghost use Rattle.std.specs.Iterator.{YieldsFirstBy, YieldsFirstRef, item_count};
ghost use Rattle.std.specs.Option.{option_copied};
ghost use Rattle.cedar_definitions.specs.Structures.{definitions_of};
ghost use Rattle.cedar_definitions.specs.Walks.{namespaces_left, namespaces_of, parents_left, parents_of};

use crate::structures::{EntityTypeFragment, ValidatorNamespaceDef, ValidatorSchemaFragment};
use cedar_fragment::RefName;
use cedar_written::{InternalName, SetIter};
use std::slice::Iter;

/// The namespaces of definitions, in the order of the definitions; none for the unnamed one.
#[derive(Debug, Drop)]
pub struct NamespaceIter<'a, N: RefName + Ord, A: Ord> {
    definitions: Iter<'a, ValidatorNamespaceDef<N, A>>,
}

impl<'a, N: RefName + Ord, A: Ord> Iterator for NamespaceIter<'a, N, A> {
    type Item = Option<&'a InternalName>;

    ghost next_gives = { YieldsFirstBy option_copied namespaces_left };

    ghost remaining = { item_count namespaces_left };

    fn next(&mut self) -> Option<Option<&'a InternalName>> {
        match self.definitions.next() {
            Some(definition) => Some(definition.namespace()),
            None => None,
        }
    }
}

/// The parents of an entity type, in order.
#[derive(Debug, Drop)]
pub struct ParentIter<'a, N: Ord> {
    parents: Option<SetIter<'a, N>>,
}

impl<'a, N: Ord> Iterator for ParentIter<'a, N> {
    type Item = &'a N;

    ghost next_gives = { YieldsFirstRef parents_left };

    ghost remaining = { item_count parents_left };

    fn next(&mut self) -> Option<&'a N> {
        match &mut self.parents {
            Some(parents) => parents.next(),
            None => None,
        }
    }
}

impl<N: RefName + Ord, A: Ord> ValidatorSchemaFragment<N, A> {
    /// The namespace of each definition, in order; none for the unnamed one. It takes no memory.
    pub fn namespaces(&self) -> NamespaceIter<'_, N, A>
        ensures { namespaces_left result ≡ namespaces_of (definitions_of self.now) }
    {
        NamespaceIter {
            definitions: self.definitions().iter(),
        }
    }
}

impl<N: Ord> EntityTypeFragment<N> {
    /// The types of which its entities may be members, in order; none where its entities are listed. It takes no memory.
    pub fn parents(&self) -> ParentIter<'_, N>
        ensures { parents_left result ≡ parents_of self.now }
    {
        match self {
            EntityTypeFragment::Standard { parents, .. } => ParentIter {
                parents: Some(parents.iter()),
            },
            EntityTypeFragment::Enum(_) => ParentIter { parents: None },
        }
    }
}
