// SPDX-License-Identifier: Apache-2.0
ghost use Rattle.std.specs.Prelude.{◌≡◌, ◌++◌, OnOk};
ghost use Rattle.cedar_missing.specs.Undeclared.{joined, no_missing, refusal_of, reserved_refusal};

use cedar_data::{Items, Mem};
use cedar_declared::{
    ActionEntityUID, ActionNotDefinedError, ConditionalName, SchemaError, TypeNotDefinedError,
};
use cedar_names::{InternalName, NonEmpty, ReservedNameError};
use std::alloc::Global;

/// What the references of definitions miss.
#[derive(Debug, Drop)]
pub struct Missing {
    /// The references to types that mean nothing declared.
    pub types: Items<ConditionalName>,
    /// The parents of actions that are no declared actions.
    pub actions: Items<ActionEntityUID<ConditionalName>>,
    /// The names with `__cedar` that parents, principals and resources mean.
    pub reserved: Items<InternalName>,
}

impl Missing {
    /// Nothing. It takes no memory.
    pub(crate) fn none(alloc: Global) -> Missing
        ensures { result ≡ no_missing }
    {
        Missing {
            types: Items::new(alloc),
            actions: Items::new(alloc),
            reserved: Items::new(alloc),
        }
    }

    /// Puts what others miss behind.
    pub(crate) fn append(&mut self, others: Missing) -> Mem<()>
        ensures { OnOk result (self.new ≡ joined self.old others) }
    {
        let Missing {
            types,
            actions,
            reserved,
        } = others;
        push_all(&mut self.types, types)?;
        push_all(&mut self.actions, actions)?;
        push_all(&mut self.reserved, reserved)
    }

    /// Why definitions that miss so much are refused: for all types; where there are none, for all actions; where there
    /// are none, for the first name with `__cedar`. It takes no memory.
    pub fn into_refusal(self) -> Option<SchemaError>
        ensures { result ≡ refusal_of self }
    {
        let Missing {
            types,
            actions,
            reserved,
        } = self;
        if let Some(undefined_types) = NonEmpty::from_vec(types.into_vec()) {
            return Some(SchemaError::TypeNotDefined(TypeNotDefinedError { undefined_types }));
        }
        if let Some(uids) = NonEmpty::from_vec(actions.into_vec()) {
            return Some(SchemaError::ActionNotDefined(ActionNotDefinedError { uids }));
        }
        first_reserved(reserved)
    }
}

/// The refusal of the first of the names, if there is one.
fn first_reserved(names: Items<InternalName>) -> Option<SchemaError>
    ensures { result ≡ reserved_refusal names }
{
    match NonEmpty::from_vec(names.into_vec()) {
        None => None,
        Some(names) => Some(SchemaError::ReservedName(ReservedNameError { name: names.head })),
    }
}

/// Puts all of them behind the others.
pub(crate) fn push_all<T: Drop>(items: &mut Items<T>, more: Items<T>) -> Mem<()>
    ensures { OnOk result (items.new ≡ items.old ++ more) }
{
    for item in more.into_vec() {
        items.push(item)?;
    }
    Ok(())
}
