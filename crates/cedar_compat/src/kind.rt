// SPDX-License-Identifier: Apache-2.0
ghost use Rattle.std.specs.Prelude.{Some};
ghost use Rattle.std.specs.Fmt.{WritesOnOk};
ghost use Rattle.cedar_compat.specs.FaultTexts.{choice_text};

use cedar_data::{Dup, Mem, Text};
use cedar_names::EntityType;
use cedar_print::Quoted;
use std::alloc::Global;
use std::fmt;
use std::fmt::Display;

/// What a new schema takes away from data of an old one.
#[derive(Debug, Drop, PartialEq, Eq)]
pub enum CompatKind {
    /// The entity type isn't there any more.
    TypeRemoved,
    /// The entity type didn't list its entities, and lists them now.
    BecameEnumerated,
    /// The entity type doesn't list the entity of this id any more.
    ChoiceRemoved { id: Text },
    /// The record or entity may not have this attribute any more.
    AttributeRemoved { name: Text },
    /// The record or entity has to have this attribute now.
    NowRequired { name: Text },
    /// The type is of another kind, or of another name.
    TypeChanged,
    /// Entities of the type have no tags any more.
    TagsRemoved,
    /// Entities of the type `ty` may not be in entities of the type any more.
    DescendantRemoved { ty: EntityType },
}

/// Writes that the choice of this id isn't there any more.
fn write_choice_removed<W: fmt::Write>(id: &Text, f: &mut fmt::Formatter<W>) -> fmt::Result
    ensures { WritesOnOk W.write_str_gives f.old result (choice_text id.now) f.new }
{
    write!(f, "choice ")?;
    Quoted(id).fmt(f)?;
    write!(f, " removed")
}

impl fmt::Display for CompatKind {
    ghost use Rattle.cedar_compat.specs.FaultTexts.{kind_text};

    ghost output = { λ kind. Some (kind_text kind) };

    fn fmt<W: fmt::Write>(&self, f: &mut fmt::Formatter<W>) -> fmt::Result {
        match self {
            CompatKind::TypeRemoved => write!(f, "entity type removed"),
            CompatKind::BecameEnumerated => write!(f, "became enumerated"),
            CompatKind::ChoiceRemoved { id } => write_choice_removed(id, f),
            CompatKind::AttributeRemoved { name } => write!(f, "attribute `{name}` removed"),
            CompatKind::NowRequired { name } => write!(f, "attribute `{name}` is now required"),
            CompatKind::TypeChanged => write!(f, "type changed"),
            CompatKind::TagsRemoved => write!(f, "tags removed"),
            CompatKind::DescendantRemoved { ty } => write!(f, "descendant `{ty}` removed"),
        }
    }
}

impl Dup for CompatKind {
    fn dup(&self, alloc: Global) -> Mem<CompatKind> {
        match self {
            CompatKind::TypeRemoved => Ok(CompatKind::TypeRemoved),
            CompatKind::BecameEnumerated => Ok(CompatKind::BecameEnumerated),
            CompatKind::ChoiceRemoved { id } => {
                let id = id.dup(alloc)?;
                Ok(CompatKind::ChoiceRemoved { id })
            }
            CompatKind::AttributeRemoved { name } => {
                let name = name.dup(alloc)?;
                Ok(CompatKind::AttributeRemoved { name })
            }
            CompatKind::NowRequired { name } => {
                let name = name.dup(alloc)?;
                Ok(CompatKind::NowRequired { name })
            }
            CompatKind::TypeChanged => Ok(CompatKind::TypeChanged),
            CompatKind::TagsRemoved => Ok(CompatKind::TagsRemoved),
            CompatKind::DescendantRemoved { ty } => {
                let ty = ty.dup(alloc)?;
                Ok(CompatKind::DescendantRemoved { ty })
            }
        }
    }
}
