// SPDX-License-Identifier: Apache-2.0
ghost use Rattle.std.specs.Prelude.{◌≡◌};
ghost use Rattle.cedar_names.specs.Components.{components};
ghost use Rattle.cedar_schema_error.specs.FullNames.{uid_in};
ghost use Rattle.cedar_declared.specs.Held.{names_of};
ghost use Rattle.cedar_declared.specs.Names.{is_action, is_common, is_entity};

use crate::action_names::ActionNames;
use crate::type_names::TypeNames;
use cedar_data::{Dup, Mem};
use cedar_names::{EntityUID, InternalName};
use std::alloc::Global;

/// The names that definitions declare.
#[derive(Debug, Drop)]
pub struct AllDefs {
    pub(crate) alloc: Global,
    pub(crate) entity_types: TypeNames,
    pub(crate) common_types: TypeNames,
    pub(crate) actions: ActionNames,
}

impl AllDefs {
    /// Whether the name is that of a declared entity type.
    pub fn is_defined_as_entity(&self, name: &InternalName) -> bool
        ensures { result ≡ is_entity (names_of self.now) (components name.now) }
    {
        self.entity_types.contains(name)
    }

    /// Whether the name is that of a declared common type.
    pub fn is_defined_as_common(&self, name: &InternalName) -> bool
        ensures { result ≡ is_common (names_of self.now) (components name.now) }
    {
        self.common_types.contains(name)
    }

    /// Whether the action is declared.
    pub fn is_defined_as_action(&self, uid: &EntityUID) -> bool
        ensures { result ≡ is_action (names_of self.now) (uid_in uid.now) }
    {
        self.actions.contains(uid)
    }
}

impl AllDefs {
    ghost use Rattle.std.specs.Prelude.{OnOk, OnErr};
    ghost use Rattle.cedar_declared.specs.TypeNames.{AddsName};

    /// Adds the name to the declared common types. It fails only for want of memory, and then changes nothing.
    pub fn mark_as_defined_as_common_type(&mut self, name: InternalName) -> Mem<()>
        ensures adds { OnOk result
            (AddsName (names_of self.old).common_types (names_of self.new).common_types name) }
        ensures entity_types { OnOk result ((names_of self.new).entity_types
            ≡ (names_of self.old).entity_types) }
        ensures actions { OnOk result ((names_of self.new).actions ≡ (names_of self.old).actions) }
        ensures err { OnErr result (self.new ≡ self.old) }
    {
        let alloc = self.alloc;
        self.common_types.insert(alloc, &name)?;
        Ok(())
    }
}

impl Dup for AllDefs {
    fn dup(&self, alloc: Global) -> Mem<AllDefs> {
        let entity_types = self.entity_types.dup(alloc)?;
        let common_types = self.common_types.dup(alloc)?;
        let actions = self.actions.dup(alloc)?;
        Ok(AllDefs {
            alloc: self.alloc,
            entity_types,
            common_types,
            actions,
        })
    }
}
