// SPDX-License-Identifier: Apache-2.0
use cedar_data::{Mem, SetIter};
use cedar_names::{EntityType, EntityUID, InternalName};
use std::alloc::Global;

/// Items in brackets, so far.
#[derive(Drop)]
pub struct Bracketed {
    alloc: Global,
    text: String,
}

impl Bracketed {
    /// No items.
    pub fn new(alloc: Global) -> Bracketed {
        Bracketed {
            alloc,
            text: String::new(alloc),
        }
    }

    /// Adds an item.
    pub fn add(&mut self, item: &str) -> Mem<()> {
        if !self.text.is_empty() {
            self.text.push_str(", ")?;
        }
        self.text.push_str(item)?;
        Ok(())
    }

    /// Adds the name of an entity type.
    pub fn add_type(&mut self, ty: &EntityType) -> Mem<()> {
        let shown = format!(in self.alloc; "{ty}")?;
        self.add(shown.as_str())
    }

    /// Adds a name.
    pub fn add_name(&mut self, name: &InternalName) -> Mem<()> {
        let shown = format!(in self.alloc; "{name}")?;
        self.add(shown.as_str())
    }

    /// Adds an entity.
    pub fn add_uid(&mut self, uid: &EntityUID) -> Mem<()> {
        let shown = format!(in self.alloc; "{uid}")?;
        self.add(shown.as_str())
    }

    /// The items in brackets.
    pub fn told(self) -> Mem<String> {
        let alloc = self.alloc;
        let items = self.text;
        Ok(format!(in alloc; "[{items}]")?)
    }
}

/// The entity types in brackets.
pub fn types_told(alloc: Global, types: SetIter<'_, EntityType>) -> Mem<String> {
    let mut names = Bracketed::new(alloc);
    for ty in types {
        names.add_type(ty)?;
    }
    names.told()
}
