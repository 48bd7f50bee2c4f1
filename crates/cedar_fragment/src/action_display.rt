// SPDX-License-Identifier: Apache-2.0
ghost use Rattle.std.specs.Prelude.{[], ◌∷◌, codes};
ghost use Rattle.std.specs.Fmt.{DisplaysOnOk};
ghost use Rattle.cedar_print.specs.Annotations.{nameless};
ghost use Rattle.cedar_print.specs.Pieces.{mark, quoted, text_of};
ghost use Rattle.cedar_fragment.specs.Printed.{print_action, print_action_parents, print_uid, print_uid_type};

use crate::action_uid::ActionEntityUID;
use crate::definitions::ActionType;
use crate::display::{write_apply_clause, write_parents};
use cedar_json_fault::{Quoted, RefName, write_item};
use cedar_types::{Items, Text};
use std::fmt::{self, Display};

/// Its type, `Action` where it has none, and its quoted id.
impl<N: RefName + fmt::Display> fmt::Display for ActionEntityUID<N> {
    ghost output = { λ uid. text_of N.output (print_uid uid) };

    fn fmt<W: fmt::Write>(&self, f: &mut fmt::Formatter<W>) -> fmt::Result {
        write_uid_type(&self.ty, f)?;
        write_uid_id(&self.id, f)
    }
}

/// Writes the type of an action.
fn write_uid_type<N: fmt::Display, W: fmt::Write>(
    ty: &Option<N>,
    f: &mut fmt::Formatter<W>,
) -> fmt::Result
    ensures { DisplaysOnOk W.write_str_gives f.old result
        (text_of N.output (print_uid_type ty.now)) f.new }
{
    match ty {
        None => f.write_str("Action"),
        Some(ty) => write_item(ty, f),
    }
}

/// Writes the id of an action behind its type.
fn write_uid_id<W: fmt::Write>(id: &Text, f: &mut fmt::Formatter<W>) -> fmt::Result
    ensures { DisplaysOnOk W.write_str_gives f.old result
        (text_of nameless (mark (codes "::") ∷ quoted id.now ∷ [])) f.new }
{
    let id = Quoted(id);
    write!(f, "::{id}")
}

/// What stands behind its id, before the semicolon.
impl<N: RefName + fmt::Display> fmt::Display for ActionType<N> {
    ghost output = { λ action. text_of N.output (print_action action) };

    fn fmt<W: fmt::Write>(&self, f: &mut fmt::Formatter<W>) -> fmt::Result {
        write_action_parents(&self.member_of, f)?;
        write_apply_clause(&self.applies_to, f)
    }
}

/// Writes of what an action is a member, where it is of something.
fn write_action_parents<N: RefName + fmt::Display, W: fmt::Write>(
    member_of: &Option<Items<ActionEntityUID<N>>>,
    f: &mut fmt::Formatter<W>,
) -> fmt::Result
    ensures { DisplaysOnOk W.write_str_gives f.old result
        (text_of N.output (print_action_parents member_of.now)) f.new }
{
    match member_of {
        None => Ok(()),
        Some(parents) => write_parents(parents, f),
    }
}
