// SPDX-License-Identifier: Apache-2.0
ghost use Rattle.std.specs.Prelude.{Some};
ghost use Rattle.std.specs.Fmt.{WritesOnOk};
ghost use Rattle.cedar_conform_fault.specs.FaultTexts.{no_ancestor_text, no_choice_text};

use cedar_data::{Dup, Mem, Text, dup_two};
use cedar_json_fault::JsonKind;
use cedar_names::{EntityType, EntityUID, Name};
use cedar_print::Quoted;
use cedar_text::NameFault;
use std::alloc::Global;
use std::fmt;
use std::fmt::Display;

/// What is wrong with a value that has to fit a schema.
#[derive(Debug, Drop, PartialEq, Eq)]
pub enum FaultKind {
    /// The value is of another kind than it has to be.
    WrongKind {
        found: JsonKind,
        wanted: JsonKind,
    },
    /// An entity or a reference may not have this key.
    UnknownField {
        field: Text,
    },
    /// An entity or a reference lacks this key.
    MissingField {
        field: Text,
    },
    /// The text is no name of an entity type.
    InvalidName {
        text: Text,
        fault: NameFault,
    },
    /// The number is no whole number of 64 bits.
    NumberOutOfRange,
    /// The schema has no entity type of this name.
    UnknownEntityType {
        ty: EntityType,
    },
    /// The entity is of another type than it has to be.
    WrongEntityType {
        found: EntityType,
        wanted: EntityType,
    },
    /// The type lists its entities, and this is none of them.
    NotAChoice {
        ty: EntityType,
        id: Text,
    },
    /// The record or entity may not have this attribute.
    UnknownAttribute {
        name: Text,
    },
    /// The record or entity lacks this attribute.
    MissingAttribute {
        name: Text,
    },
    /// Entities of the type have no tags.
    TagsNotAllowed,
    /// Entities of the type `of` are in none of the type `ty`.
    NotAnAncestor {
        ty: EntityType,
        of: EntityType,
    },
    /// An entity of a type that lists its entities has attributes, parents or tags.
    EnumeratedHasData,
    /// The value stands for one of an extension type, and such values are not read.
    ExtensionValue {
        name: Name,
    },
    /// The entity stands before it in the list.
    RepeatedEntity {
        uid: EntityUID,
    },
}

/// Writes that the type doesn't list the entity of this id.
fn write_not_a_choice<W: fmt::Write>(
    ty: &EntityType,
    id: &Text,
    f: &mut fmt::Formatter<W>,
) -> fmt::Result
    ensures { WritesOnOk W.write_str_gives f.old result (no_choice_text ty.now id.now) f.new }
{
    Quoted(id).fmt(f)?;
    write!(f, " is not a choice of `{ty}`")
}

/// Writes that entities of the type `of` are in none of the type `ty`.
fn write_not_an_ancestor<W: fmt::Write>(
    ty: &EntityType,
    of: &EntityType,
    f: &mut fmt::Formatter<W>,
) -> fmt::Result
    ensures { WritesOnOk W.write_str_gives f.old result (no_ancestor_text ty.now of.now) f.new }
{
    write!(f, "`{ty}`")?;
    write!(f, " is not an ancestor type of `{of}`")
}

impl fmt::Display for FaultKind {
    ghost use Rattle.cedar_conform_fault.specs.FaultTexts.{kind_text};

    ghost output = { λ kind. Some (kind_text kind) };

    fn fmt<W: fmt::Write>(&self, f: &mut fmt::Formatter<W>) -> fmt::Result {
        match self {
            FaultKind::WrongKind { found, wanted } => {
                write!(f, "expected {wanted}, found {found}")
            }
            FaultKind::UnknownField { field } => write!(f, "unknown field `{field}`"),
            FaultKind::MissingField { field } => write!(f, "missing field `{field}`"),
            FaultKind::InvalidName { text, fault: _ } => write!(f, "invalid name `{text}`"),
            FaultKind::NumberOutOfRange => write!(f, "number is not a 64-bit integer"),
            FaultKind::UnknownEntityType { ty } => write!(f, "unknown entity type `{ty}`"),
            FaultKind::WrongEntityType { found, wanted } => {
                write!(f, "expected entity type `{wanted}`, found `{found}`")
            }
            FaultKind::NotAChoice { ty, id } => write_not_a_choice(ty, id, f),
            FaultKind::UnknownAttribute { name } => write!(f, "unknown attribute `{name}`"),
            FaultKind::MissingAttribute { name } => write!(f, "missing attribute `{name}`"),
            FaultKind::TagsNotAllowed => write!(f, "tags are not allowed"),
            FaultKind::NotAnAncestor { ty, of } => write_not_an_ancestor(ty, of, f),
            FaultKind::EnumeratedHasData => write!(f, "an enumerated entity has data"),
            FaultKind::ExtensionValue { name } => {
                write!(f, "extension values of `{name}` are not supported")
            }
            FaultKind::RepeatedEntity { uid } => write!(f, "entity {uid} is repeated"),
        }
    }
}

impl Dup for FaultKind {
    fn dup(&self, alloc: Global) -> Mem<FaultKind> {
        match self {
            FaultKind::WrongKind { found, wanted } => Ok(FaultKind::WrongKind {
                found: *found,
                wanted: *wanted,
            }),
            FaultKind::UnknownField { field } => {
                let field = field.dup(alloc)?;
                Ok(FaultKind::UnknownField { field })
            }
            FaultKind::MissingField { field } => {
                let field = field.dup(alloc)?;
                Ok(FaultKind::MissingField { field })
            }
            FaultKind::InvalidName { text, fault } => {
                let (text, fault) = dup_two(alloc, text, fault)?;
                Ok(FaultKind::InvalidName { text, fault })
            }
            FaultKind::NumberOutOfRange => Ok(FaultKind::NumberOutOfRange),
            FaultKind::UnknownEntityType { ty } => {
                let ty = ty.dup(alloc)?;
                Ok(FaultKind::UnknownEntityType { ty })
            }
            FaultKind::WrongEntityType { found, wanted } => {
                let (found, wanted) = dup_two(alloc, found, wanted)?;
                Ok(FaultKind::WrongEntityType { found, wanted })
            }
            FaultKind::NotAChoice { ty, id } => {
                let (ty, id) = dup_two(alloc, ty, id)?;
                Ok(FaultKind::NotAChoice { ty, id })
            }
            FaultKind::UnknownAttribute { name } => {
                let name = name.dup(alloc)?;
                Ok(FaultKind::UnknownAttribute { name })
            }
            FaultKind::MissingAttribute { name } => {
                let name = name.dup(alloc)?;
                Ok(FaultKind::MissingAttribute { name })
            }
            FaultKind::TagsNotAllowed => Ok(FaultKind::TagsNotAllowed),
            FaultKind::NotAnAncestor { ty, of } => {
                let (ty, of) = dup_two(alloc, ty, of)?;
                Ok(FaultKind::NotAnAncestor { ty, of })
            }
            FaultKind::EnumeratedHasData => Ok(FaultKind::EnumeratedHasData),
            FaultKind::ExtensionValue { name } => {
                let name = name.dup(alloc)?;
                Ok(FaultKind::ExtensionValue { name })
            }
            FaultKind::RepeatedEntity { uid } => {
                let uid = uid.dup(alloc)?;
                Ok(FaultKind::RepeatedEntity { uid })
            }
        }
    }
}
