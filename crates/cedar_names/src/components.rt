// SPDX-License-Identifier: Apache-2.0
ghost use Rattle.std.specs.Prelude.{◌≡◌, [], ◌∷◌, ◌++◌};
ghost use Rattle.std.specs.Iterator.{YieldsFirstRef, item_count};
ghost use Rattle.cedar_names.specs.Identifiers.{ids_left};

use crate::id::Id;
use std::slice::Iter;

/// The components of a name, outermost first: those of its namespace, and then its basename.
#[derive(Debug, Drop)]
pub struct Components<'a> {
    namespace: Iter<'a, Id>,
    basename: Option<&'a Id>,
}

impl<'a> Components<'a> {
    /// The identifiers of a namespace, and then the basename.
    pub fn new(namespace: &'a [Id], basename: &'a Id) -> Components<'a>
        ensures { ids_left result ≡ namespace.now ++ basename.now ∷ [] }
    {
        Components {
            namespace: namespace.iter(),
            basename: Some(basename),
        }
    }
}

impl<'a> Iterator for Components<'a> {
    type Item = &'a Id;

    ghost next_gives = { YieldsFirstRef ids_left };

    ghost remaining = { item_count ids_left };

    fn next(&mut self) -> Option<&'a Id> {
        match self.namespace.next() {
            Some(id) => Some(id),
            None => self.basename.take(),
        }
    }
}
