// SPDX-License-Identifier: Apache-2.0
ghost use Rattle.std.specs.Prelude.{◌≡◌, ◌++◌, Some, codes};
ghost use Rattle.std.specs.Fmt.{WritesOnOk};
ghost use Rattle.cedar_names.specs.Components.{components};
ghost use Rattle.cedar_names.specs.EntityUids.{uid_text};
ghost use Rattle.cedar_names.specs.of_text.Joining.{joined};
ghost use Rattle.cedar_schema_error.specs.ErrorTexts.{quoting, shadowing_text, undeclared_actions_text, undeclared_types_text, undefined_text, unfound_actions_text, unfound_words};
ghost use Rattle.cedar_schema_error.specs.NameTexts.{entity_text};

use crate::kept_errors::ActionInvariantViolationError;
use crate::name_errors::{
    ActionNotDefinedError, ActionShadowingError, CycleInActionHierarchyError,
    CycleInCommonTypeReferencesError, DuplicateActionError, DuplicateCommonTypeError,
    DuplicateEntityTypeError, TypeNotDefinedError, TypeShadowingError, UndeclaredEntityTypesError,
};
use crate::shown::{Shown, noun, write_all, write_behind_commas, write_behind_first};
use cedar_names::EntityUID;
use std::error::Error;
use std::fmt;

impl fmt::Display for TypeNotDefinedError {
    ghost output = { λ e. Some (undefined_text e) };

    fn fmt<W: fmt::Write>(&self, f: &mut fmt::Formatter<W>) -> fmt::Result {
        let others = self.undefined_types.tail.as_slice();
        let types = noun(others, "type", "types");
        write!(f, "failed to resolve {types}: ")?;
        self.undefined_types.head.show(f)?;
        write_behind_commas(others, f)
    }
}

impl Error for TypeNotDefinedError {}

impl fmt::Display for ActionNotDefinedError {
    ghost output = { λ e. Some (undeclared_actions_text e) };

    fn fmt<W: fmt::Write>(&self, f: &mut fmt::Formatter<W>) -> fmt::Result {
        let others = self.uids.tail.as_slice();
        let actions = noun(others, "action", "actions");
        write!(f, "undeclared {actions}: ")?;
        self.uids.head.show(f)?;
        write_behind_first(others, f)
    }
}

impl fmt::Display for UndeclaredEntityTypesError {
    ghost output = { λ e. Some (undeclared_types_text e) };

    fn fmt<W: fmt::Write>(&self, f: &mut fmt::Formatter<W>) -> fmt::Result {
        let others = self.types.tail.as_slice();
        let types = noun(others, "type", "types");
        write!(f, "undeclared entity {types}: ")?;
        self.types.head.show(f)?;
        write_behind_first(others, f)
    }
}

impl fmt::Display for ActionInvariantViolationError {
    ghost output = { λ e. Some (unfound_actions_text e) };

    fn fmt<W: fmt::Write>(&self, f: &mut fmt::Formatter<W>) -> fmt::Result {
        let others = self.euids.tail.as_slice();
        write_unfound(others, f)?;
        write_all(&self.euids.head, others, f)
    }
}

/// Writes that an action has no definition, or that several have none.
fn write_unfound<W: fmt::Write>(others: &[EntityUID], f: &mut fmt::Formatter<W>) -> fmt::Result
    ensures { WritesOnOk W.write_str_gives f.old result (unfound_words others.now) f.new }
{
    match others.split_first() {
        None => write!(
            f,
            "internal invariant violated: failed to find an action definition for "
        ),
        Some(_) => write!(
            f,
            "internal invariant violated: failed to find action definitions for "
        ),
    }
}

impl fmt::Display for TypeShadowingError {
    ghost output = { λ e. Some (shadowing_text (joined (components e.shadowing_def))
        (joined (components e.shadowed_def))) };

    fn fmt<W: fmt::Write>(&self, f: &mut fmt::Formatter<W>) -> fmt::Result {
        let new = &self.shadowing_def;
        let old = &self.shadowed_def;
        write!(
            f,
            "definition of `{new}` illegally shadows the existing definition of `{old}`"
        )
    }
}

impl fmt::Display for ActionShadowingError {
    ghost output = { λ e. Some (shadowing_text (uid_text e.shadowing_def)
        (uid_text e.shadowed_def)) };

    fn fmt<W: fmt::Write>(&self, f: &mut fmt::Formatter<W>) -> fmt::Result {
        let new = &self.shadowing_def;
        let old = &self.shadowed_def;
        write!(
            f,
            "definition of `{new}` illegally shadows the existing definition of `{old}`"
        )
    }
}

impl fmt::Display for DuplicateEntityTypeError {
    ghost output = { λ e. Some (quoting (codes "duplicate entity type ") (entity_text e.ty)) };

    fn fmt<W: fmt::Write>(&self, f: &mut fmt::Formatter<W>) -> fmt::Result {
        let ty = &self.ty;
        write!(f, "duplicate entity type `{ty}`")
    }
}

impl fmt::Display for DuplicateCommonTypeError {
    ghost output = { λ e. Some (quoting (codes "duplicate common type ")
        (joined (components e.ty))) };

    fn fmt<W: fmt::Write>(&self, f: &mut fmt::Formatter<W>) -> fmt::Result {
        let ty = &self.ty;
        write!(f, "duplicate common type `{ty}`")
    }
}

impl fmt::Display for DuplicateActionError {
    ghost output = { λ e. Some (quoting (codes "duplicate action ") (uid_text e.uid)) };

    fn fmt<W: fmt::Write>(&self, f: &mut fmt::Formatter<W>) -> fmt::Result {
        let uid = &self.uid;
        write!(f, "duplicate action `{uid}`")
    }
}

impl fmt::Display for CycleInCommonTypeReferencesError {
    ghost output = { λ e. Some (quoting (codes "cycle in common type references containing ")
        (joined (components e.ty))) };

    fn fmt<W: fmt::Write>(&self, f: &mut fmt::Formatter<W>) -> fmt::Result {
        let ty = &self.ty;
        write!(f, "cycle in common type references containing `{ty}`")
    }
}

impl fmt::Display for CycleInActionHierarchyError {
    ghost output = { λ e. Some (quoting (codes "cycle in action hierarchy containing ")
        (uid_text e.uid)) };

    fn fmt<W: fmt::Write>(&self, f: &mut fmt::Formatter<W>) -> fmt::Result {
        let uid = &self.uid;
        write!(f, "cycle in action hierarchy containing `{uid}`")
    }
}
