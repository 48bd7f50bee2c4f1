// SPDX-License-Identifier: Apache-2.0
ghost use Rattle.std.specs.Prelude.{◌≡◌, ◌++◌, Some, IfOk, codes};
ghost use Rattle.std.specs.Fmt.{WritesOnOk};
ghost use Rattle.cedar_json_fault.specs.JsonTexts.{listed, others_text};
ghost use Rattle.cedar_json_fault.specs.declared.json_fault.JsonFault.TheVariants.{InvalidName};

use cedar_written::{
    Dup, Items, Mem, NameFault, ReservedCommonTypeBasenameError, Text, UnreservedId,
};
use std::alloc::Global;
use std::fmt;

/// What is wrong with a schema in JSON.
#[derive(Debug, Drop, PartialEq, Eq)]
pub enum JsonFault {
    /// The text is no JSON.
    NotJson,
    /// Some object has a key twice: the text has more colons outside its strings than the value has members.
    RepeatedKey {
        colons: u64,
        members: u64,
    },
    /// The object may not have this key.
    UnknownField {
        field: Text,
        shape: JsonShape,
    },
    /// The object lacks this key.
    MissingField {
        field: Text,
    },
    /// The value is of another kind than it has to be.
    WrongType {
        found: JsonKind,
        wanted: JsonKind,
    },
    /// The text is no name of this kind.
    InvalidName {
        what: NameKind,
        text: Text,
        fault: NameFault,
    },
    /// The list of the entities of an enumerated type is empty.
    EmptyEnum,
    /// An enumerated entity type has keys that only a standard one may have.
    UnexpectedFields {
        fields: Items<Text>,
    },
    /// A common type may not have this identifier.
    ReservedId {
        id: UnreservedId,
    },
    /// The unnamed namespace has annotations.
    AnnotationsOnEmptyNamespace,
    /// The number is no whole number of 64 bits.
    NumberOutOfRange,
    /// Sets and records, or arrays and objects, stand in each other too deep.
    TooDeep,
}

/// The objects of a schema in JSON, by the keys that they may have.
#[derive(Clone, Copy, Debug, PartialEq, Eq)]
pub enum JsonShape {
    /// A namespace.
    Namespace,
    /// An entity type.
    EntityType,
    /// An action.
    Action,
    /// What an action applies to.
    ApplySpec,
    /// An action as the parent of another.
    Parent,
    /// A type of any kind.
    AnyType,
    /// A type that has no other key than its kind.
    NoFields,
    /// The type of sets.
    SetType,
    /// The type of records.
    RecordType,
    /// A type that is given by a name.
    NamedType,
}

/// The kinds of JSON values.
#[derive(Clone, Copy, Debug, PartialEq, Eq)]
pub enum JsonKind {
    /// `null`.
    Null,
    /// `true` or `false`.
    Boolean,
    /// A number.
    Number,
    /// A string.
    String,
    /// An array.
    Array,
    /// An object.
    Object,
}

/// What a name has to name.
#[derive(Clone, Copy, Debug, PartialEq, Eq)]
pub enum NameKind {
    /// A type within its namespace, or an annotation.
    Id,
    /// Something else.
    Name,
    /// A namespace.
    Namespace,
    /// An entity type.
    EntityType,
    /// An entity type or a common type.
    EntityOrCommonType,
    /// A common type.
    CommonType,
    /// An extension type.
    ExtensionType,
}

impl fmt::Display for JsonShape {
    ghost use Rattle.cedar_json_fault.specs.JsonTexts.{expected_text};

    ghost output = { λ shape. Some (expected_text shape) };

    /// The keys that it may have.
    fn fmt<W: fmt::Write>(&self, f: &mut fmt::Formatter<W>) -> fmt::Result {
        f.write_str(match self {
            JsonShape::Namespace =>
                "expected one of `commonTypes`, `entityTypes`, `actions`, `annotations`",
            JsonShape::EntityType =>
                "expected one of `memberOfTypes`, `shape`, `tags`, `enum`, `annotations`",
            JsonShape::Action =>
                "expected one of `attributes`, `appliesTo`, `memberOf`, `annotations`",
            JsonShape::ApplySpec => "expected one of `resourceTypes`, `principalTypes`, `context`",
            JsonShape::Parent => "expected `id` or `type`",
            JsonShape::AnyType =>
                "expected one of `type`, `element`, `attributes`, `additionalAttributes`, `name`",
            JsonShape::NoFields => "there are no fields",
            JsonShape::SetType => "expected `element`",
            JsonShape::RecordType => "expected `attributes` or `additionalAttributes`",
            JsonShape::NamedType => "expected `name`",
        })
    }
}

impl fmt::Display for JsonKind {
    ghost use Rattle.cedar_json_fault.specs.JsonTexts.{kind_text};

    ghost output = { λ kind. Some (kind_text kind) };

    fn fmt<W: fmt::Write>(&self, f: &mut fmt::Formatter<W>) -> fmt::Result {
        f.write_str(match self {
            JsonKind::Null => "null",
            JsonKind::Boolean => "boolean",
            JsonKind::Number => "number",
            JsonKind::String => "string",
            JsonKind::Array => "array",
            JsonKind::Object => "object",
        })
    }
}

impl fmt::Display for NameKind {
    ghost use Rattle.cedar_json_fault.specs.JsonTexts.{named_text};

    ghost output = { λ what. Some (named_text what) };

    fn fmt<W: fmt::Write>(&self, f: &mut fmt::Formatter<W>) -> fmt::Result {
        f.write_str(match self {
            NameKind::Id => "id",
            NameKind::Name => "name",
            NameKind::Namespace => "namespace",
            NameKind::EntityType => "entity type",
            NameKind::EntityOrCommonType => "entity or common type",
            NameKind::CommonType => "common type",
            NameKind::ExtensionType => "extension type",
        })
    }
}

/// Writes that the object may not have these keys.
fn write_unexpected<W: fmt::Write>(fields: &[Text], f: &mut fmt::Formatter<W>) -> fmt::Result
    ensures { WritesOnOk W.write_str_gives f.old result (codes "unexpected field: "
        ++ listed fields.now) f.new }
{
    match fields.split_first() {
        None => write!(f, "unexpected field: "),
        Some((first, others)) => {
            write!(f, "unexpected field: {first}")?;
            write_others(others, f)
        }
    }
}

/// Writes each text after a comma.
fn write_others<W: fmt::Write>(others: &[Text], f: &mut fmt::Formatter<W>) -> fmt::Result
    ensures { WritesOnOk W.write_str_gives f.old result (others_text others.now) f.new }
{
    for other in others {
        write!(f, ", {other}")?;
    }
    Ok(())
}

impl fmt::Display for JsonFault {
    ghost use Rattle.cedar_json_fault.specs.JsonTexts.{fault_text};

    ghost output = { λ fault. Some (fault_text fault) };

    fn fmt<W: fmt::Write>(&self, f: &mut fmt::Formatter<W>) -> fmt::Result {
        match self {
            JsonFault::NotJson => write!(f, "invalid JSON"),
            JsonFault::RepeatedKey {
                colons: _,
                members: _,
            } => write!(f, "invalid entry: found duplicate key"),
            JsonFault::UnknownField { field, shape } => {
                write!(f, "unknown field `{field}`, {shape}")
            }
            JsonFault::MissingField { field } => write!(f, "missing field `{field}`"),
            JsonFault::WrongType { found, wanted } => {
                write!(f, "invalid type: {found}, expected {wanted}")
            }
            JsonFault::InvalidName { what, text, fault } => {
                write!(f, "invalid {what} `{text}`: {fault}")
            }
            JsonFault::EmptyEnum => write!(
                f,
                "the vector provided was empty, NonEmpty needs at least one element"
            ),
            JsonFault::UnexpectedFields { fields } => write_unexpected(fields.as_slice(), f),
            JsonFault::ReservedId { id } => write!(
                f,
                "this is reserved and cannot be the basename of a common-type declaration: {id}"
            ),
            JsonFault::AnnotationsOnEmptyNamespace => {
                write!(f, "annotations are not allowed on the empty namespace")
            }
            JsonFault::NumberOutOfRange => write!(f, "number is not a 64-bit integer"),
            JsonFault::TooDeep => write!(f, "type or value nesting is too deep"),
        }
    }
}

impl From<ReservedCommonTypeBasenameError> for JsonFault {
    ghost use Rattle.std.specs.Prelude.{◌≡◌};
    ghost use Rattle.cedar_json_fault.specs.declared.json_fault.JsonFault.TheVariants.{ReservedId};

    ghost from_gives = { λ error fault. fault ≡ ReservedId error.id };

    fn from(error: ReservedCommonTypeBasenameError) -> JsonFault {
        let ReservedCommonTypeBasenameError { id } = error;
        JsonFault::ReservedId { id }
    }
}

impl Dup for JsonShape {
    fn dup(&self, _alloc: Global) -> Mem<JsonShape> {
        Ok(*self)
    }
}

impl Dup for JsonKind {
    fn dup(&self, _alloc: Global) -> Mem<JsonKind> {
        Ok(*self)
    }
}

impl Dup for NameKind {
    fn dup(&self, _alloc: Global) -> Mem<NameKind> {
        Ok(*self)
    }
}

impl Dup for JsonFault {
    fn dup(&self, alloc: Global) -> Mem<JsonFault> {
        match self {
            JsonFault::NotJson => Ok(JsonFault::NotJson),
            JsonFault::RepeatedKey { colons, members } => Ok(JsonFault::RepeatedKey {
                colons: *colons,
                members: *members,
            }),
            JsonFault::UnknownField { field, shape } => {
                let field = field.dup(alloc)?;
                Ok(JsonFault::UnknownField {
                    field,
                    shape: *shape,
                })
            }
            JsonFault::MissingField { field } => {
                let field = field.dup(alloc)?;
                Ok(JsonFault::MissingField { field })
            }
            JsonFault::WrongType { found, wanted } => Ok(JsonFault::WrongType {
                found: *found,
                wanted: *wanted,
            }),
            JsonFault::InvalidName { what, text, fault } => dup_invalid_name(
                alloc, *what, text, fault,
            ),
            JsonFault::EmptyEnum => Ok(JsonFault::EmptyEnum),
            JsonFault::UnexpectedFields { fields } => {
                let fields = fields.dup(alloc)?;
                Ok(JsonFault::UnexpectedFields { fields })
            }
            JsonFault::ReservedId { id } => {
                let id = id.dup(alloc)?;
                Ok(JsonFault::ReservedId { id })
            }
            JsonFault::AnnotationsOnEmptyNamespace => Ok(JsonFault::AnnotationsOnEmptyNamespace),
            JsonFault::NumberOutOfRange => Ok(JsonFault::NumberOutOfRange),
            JsonFault::TooDeep => Ok(JsonFault::TooDeep),
        }
    }
}

/// A copy of the fault that the text is no name of this kind.
fn dup_invalid_name(alloc: Global, what: NameKind, text: &Text, fault: &NameFault) -> Mem<JsonFault>
    ensures { IfOk result (λ copy. copy ≡ InvalidName what text.now fault.now) }
{
    let text = text.dup(alloc)?;
    let fault = fault.dup(alloc)?;
    Ok(JsonFault::InvalidName { what, text, fault })
}
