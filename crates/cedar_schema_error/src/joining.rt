// SPDX-License-Identifier: Apache-2.0
ghost use Rattle.std.specs.Prelude.{◌≡◌, ◌++◌, IfOk, OnOk};
ghost use Rattle.std.specs.List.{flat_map};
ghost use Rattle.cedar_names.specs.of_text.Lists.{elements};
ghost use Rattle.cedar_schema_error.specs.Joining.{actions_of, joined_by, joined_errors, types_of};

use crate::name_errors::{ActionNotDefinedError, TypeNotDefinedError};
use crate::schema_error::SchemaError;
use cedar_fragment::{ActionEntityUID, ConditionalName};
use cedar_names::{Dup, Mem, NonEmpty};
use std::alloc::Global;

impl SchemaError {
    /// One error for all: the undefined types of all of them, in order; where there are none, the undefined actions;
    /// where there are none, the first of the errors.
    pub fn join_nonempty(alloc: Global, errs: NonEmpty<SchemaError>) -> Mem<SchemaError>
        ensures { IfOk result (λ e. e ≡ joined_errors errs) }
    {
        let mut types = Vec::new(alloc);
        let mut actions = Vec::new(alloc);
        for error in errs.iter() {
            push_undefined(alloc, error, &mut types)?;
            push_undeclared(alloc, error, &mut actions)?;
        }
        Ok(joined(types, actions, errs.head))
    }
}

/// Puts the undefined types of the error behind the others.
fn push_undefined(alloc: Global, error: &SchemaError, types: &mut Vec<ConditionalName>) -> Mem<()>
    ensures { OnOk result (types.new.items ≡ types.old.items ++ types_of error.now) }
{
    if let SchemaError::TypeNotDefined(e) = error {
        for name in e.undefined_types.iter() {
            types.push(name.dup(alloc)?)?;
        }
    }
    Ok(())
}

/// Puts the undefined actions of the error behind the others.
fn push_undeclared(
    alloc: Global,
    error: &SchemaError,
    actions: &mut Vec<ActionEntityUID<ConditionalName>>,
) -> Mem<()>
    ensures { OnOk result (actions.new.items ≡ actions.old.items ++ actions_of error.now) }
{
    if let SchemaError::ActionNotDefined(e) = error {
        for uid in e.uids.iter() {
            actions.push(uid.dup(alloc)?)?;
        }
    }
    Ok(())
}

/// The error of all these types, else of all these actions, else the first.
fn joined(
    types: Vec<ConditionalName>,
    actions: Vec<ActionEntityUID<ConditionalName>>,
    first: SchemaError,
) -> SchemaError
    ensures { result ≡ joined_by types.items actions.items first }
{
    if let Some(undefined_types) = NonEmpty::from_vec(types) {
        return SchemaError::TypeNotDefined(TypeNotDefinedError { undefined_types });
    }
    match NonEmpty::from_vec(actions) {
        Some(uids) => SchemaError::ActionNotDefined(ActionNotDefinedError { uids }),
        None => first,
    }
}
