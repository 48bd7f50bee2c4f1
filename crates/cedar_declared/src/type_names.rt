// SPDX-License-Identifier: Apache-2.0
ghost use Rattle.std.specs.Prelude.{◌≡◌, [], IfOk, OnOk, OnErr};
ghost use Rattle.cedar_data.specs.Sets.{contains};
ghost use Rattle.cedar_names.specs.Components.{components, loc_of};
ghost use Rattle.cedar_names.specs.Order.{words_cmp};
ghost use Rattle.cedar_declared.specs.Held.{type_names};
ghost use Rattle.cedar_declared.specs.TypeNames.{with_name};

use crate::name_set::NameSet;
use crate::recalled::RecalledMap;
use cedar_data::{Dup, Mem};
use cedar_names::{Id, InternalName, Loc};
use std::alloc::Global;

/// Names of types. Those of one component are kept by it, so that it can be looked up without a name.
#[derive(Debug, Drop)]
pub(crate) struct TypeNames {
    pub(crate) unqualified: RecalledMap<Id, Option<Loc>>,
    pub(crate) qualified: NameSet,
}

impl TypeNames {
    /// No names. It takes no memory.
    pub(crate) fn none(alloc: Global) -> TypeNames
        ensures { result ≡ record { unqualified = []; qualified = [] } }
    {
        TypeNames {
            unqualified: RecalledMap::new(alloc),
            qualified: NameSet::none(alloc),
        }
    }

    /// Whether the name is one of them.
    pub(crate) fn contains(&self, name: &InternalName) -> bool
        ensures { result ≡ contains words_cmp (type_names self.now) (components name.now) }
    {
        if name.is_unqualified() {
            self.unqualified.contains_key(name.basename())
        } else {
            self.qualified.contains(name)
        }
    }

    /// Puts a name to the others. It fails only for want of memory, and then changes nothing.
    pub(crate) fn insert(&mut self, alloc: Global, name: &InternalName) -> Mem<()>
        ensures ok { OnOk result (self.new ≡ with_name self.old name.now) }
        ensures err { OnErr result (self.new ≡ self.old) }
    {
        if self.contains(name) {
            return Ok(());
        }
        if name.is_unqualified() {
            let id = name.basename().dup(alloc)?;
            let loc = place(alloc, name)?;
            self.unqualified.put(id, loc)?;
            Ok(())
        } else {
            self.qualified.insert(alloc, name.dup(alloc)?)?;
            Ok(())
        }
    }
}

/// A copy of the place of a name.
fn place(alloc: Global, name: &InternalName) -> Mem<Option<Loc>>
    ensures { IfOk result (λ loc. loc ≡ loc_of name.now) }
{
    match name.loc() {
        None => Ok(None),
        Some(loc) => {
            let loc = loc.dup(alloc)?;
            Ok(Some(loc))
        }
    }
}

impl Dup for TypeNames {
    fn dup(&self, alloc: Global) -> Mem<TypeNames> {
        let unqualified = self.unqualified.dup(alloc)?;
        let qualified = self.qualified.dup(alloc)?;
        Ok(TypeNames {
            unqualified,
            qualified,
        })
    }
}
