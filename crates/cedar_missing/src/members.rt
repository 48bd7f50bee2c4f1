// SPDX-License-Identifier: Apache-2.0
//! What parents, principals and resources miss.
ghost use Rattle.cedar_missing.specs.Undeclared.{missing_in_each, missing_in_name, missing_in_parent};

use crate::found::find_parent;
use crate::looked_at::HasReferences;
use crate::missing::Missing;
use cedar_data::{Dup, Mem, Set};
use cedar_declared::{ActionEntityUID, AllDefs, ConditionalName};
use std::alloc::Global;

/// A parent of an entity type, a principal or a resource.
impl HasReferences for ConditionalName {
    ghost missing = { missing_in_name };

    fn missing(&self, alloc: Global, all_defs: &AllDefs) -> Mem<Missing> {
        let mut missing = Missing::none(alloc);
        match all_defs.find_target(self) {
            None => missing.types.push(self.dup(alloc)?)?,
            Some(target) => {
                if target.is_reserved() {
                    missing.reserved.push(target.dup(alloc)?)?;
                }
            }
        }
        Ok(missing)
    }
}

/// A parent of an action.
impl HasReferences for ActionEntityUID<ConditionalName> {
    ghost missing = { missing_in_parent };

    fn missing(&self, alloc: Global, all_defs: &AllDefs) -> Mem<Missing> {
        let mut missing = Missing::none(alloc);
        match find_parent(alloc, all_defs, self)? {
            None => missing.actions.push(self.dup(alloc)?)?,
            Some(target) => {
                if target.is_reserved() {
                    missing.reserved.push(target)?;
                }
            }
        }
        Ok(missing)
    }
}

impl<K: Ord + HasReferences> HasReferences for Set<K> {
    ghost missing = { λ names keys. missing_in_each (K.missing names) keys };

    #[tactic(auto, using(crate::proofs::Joins::joins))]
    fn missing(&self, alloc: Global, all_defs: &AllDefs) -> Mem<Missing> {
        let mut all = Missing::none(alloc);
        for key in self.iter() {
            let missing = key.missing(alloc, all_defs)?;
            all.append(missing)?;
        }
        Ok(all)
    }
}
