// SPDX-License-Identifier: Apache-2.0
ghost use Rattle.std.specs.Prelude.{◌≡◌, IfOk};
ghost use Rattle.cedar_data.specs.Maps.{IsSortedMap};
ghost use Rattle.cedar_outlines.specs.of_declared.Held.{names_of};
ghost use Rattle.cedar_hierarchy.specs.Children.{has_parent, is_child};

use crate::children::{Children, link};
use cedar_data::{Dup, Map, Mem, Set};
use cedar_outlines::AllDefs;
use std::alloc::Global;

/// What has parents, whose keys are `K`.
pub(crate) trait HasParents<K: Ord> {
    ghost use Rattle.std.specs.Prelude.{Bool};
    ghost use Rattle.cedar_data.specs.Sets.{contains};
    ghost use Rattle.cedar_outlines.specs.of_declared.Names.{Names};

    /// Whether it has this key as a parent, among these names.
    ghost is_parent: { Names → Self → K → Bool };

    /// The keys of its parents. It fails only for want of memory.
    fn parents(&self, alloc: Global, all_defs: &AllDefs) -> Mem<Set<K>>
        ensures { IfOk result (λ keys. (key : K) → contains K.cmp keys key
            ≡ is_parent (names_of all_defs.now) self.now key) };
}

/// The children of each key that is a parent: all that have it as a parent.
pub(crate) fn gather<K: Ord + Dup + Drop, P: HasParents<K>>(
    alloc: Global,
    all_defs: &AllDefs,
    outlines: &Map<K, P>,
) -> Mem<Children<K>>
    ensures gathered { IfOk result (λ children. (parent child : K)
        → is_child K.cmp children parent child
        ≡ has_parent K.cmp (P.is_parent (names_of all_defs.now)) outlines.now parent child) }
    ensures ordered { IsSortedMap K.cmp outlines.now }
{
    let mut children = Map::new(alloc);
    for (key, outline) in outlines.iter() {
        let parents = outline.parents(alloc, all_defs)?;
        link(alloc, &parents, key, &mut children)?;
    }
    Ok(children)
}
