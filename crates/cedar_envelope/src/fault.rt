// SPDX-License-Identifier: Apache-2.0
use cedar_data::{Dup, Mem, Text};
use cedar_json_fault::JsonKind;
use cedar_text::Span;
use std::alloc::Global;
use std::error::Error;
use std::fmt;

/// Why a text is no envelope.
#[derive(Debug, Drop, PartialEq, Eq)]
pub enum EnvelopeFault {
    /// The text is no JSON.
    NotJson,
    /// Some object has a key twice: the text has more colons outside its strings than the value has members.
    RepeatedKey { colons: u64, members: u64 },
    /// The value is no object.
    NotAnObject { found: JsonKind },
    /// The object may not have this key.
    UnknownField { field: Text },
    /// The object lacks this key.
    MissingField { field: Text },
    /// The member at this key has to be a string.
    NotAString { field: Text, found: JsonKind },
}

impl fmt::Display for EnvelopeFault {
    ghost use Rattle.std.specs.Prelude.{Some};
    ghost use Rattle.cedar_envelope.specs.FaultTexts.{fault_text};

    ghost output = { λ fault. Some (fault_text fault) };

    fn fmt<W: fmt::Write>(&self, f: &mut fmt::Formatter<W>) -> fmt::Result {
        match self {
            EnvelopeFault::NotJson => write!(f, "invalid JSON"),
            EnvelopeFault::RepeatedKey {
                colons: _,
                members: _,
            } => write!(f, "invalid entry: found duplicate key"),
            EnvelopeFault::NotAnObject { found: _ } => write!(f, "the input is not an object"),
            EnvelopeFault::UnknownField { field } => write!(f, "unknown field `{field}`"),
            EnvelopeFault::MissingField { field } => write!(f, "missing field `{field}`"),
            EnvelopeFault::NotAString { field, found: _ } => {
                write!(f, "field `{field}` is not a string")
            }
        }
    }
}

impl Error for EnvelopeFault {}

impl EnvelopeFault {
    ghost use Rattle.std.specs.Prelude.{◌≡◌, [], None, IfOk};

    /// What to do about it: there is nothing to say.
    pub fn help(&self, _alloc: Global) -> Mem<Option<String>>
        ensures { IfOk result (λ help. help ≡ None) }
    {
        Ok(None)
    }

    /// The places of the kept pieces that have one: none has.
    pub fn spans(&self, alloc: Global) -> Mem<Vec<Span>>
        ensures { IfOk result (λ spans. spans.items ≡ []) }
    {
        Ok(Vec::new(alloc))
    }
}

impl Dup for EnvelopeFault {
    fn dup(&self, alloc: Global) -> Mem<EnvelopeFault> {
        match self {
            EnvelopeFault::NotJson => Ok(EnvelopeFault::NotJson),
            EnvelopeFault::RepeatedKey { colons, members } => Ok(EnvelopeFault::RepeatedKey {
                colons: *colons,
                members: *members,
            }),
            EnvelopeFault::NotAnObject { found } => Ok(EnvelopeFault::NotAnObject {
                found: *found,
            }),
            EnvelopeFault::UnknownField { field } => {
                let field = field.dup(alloc)?;
                Ok(EnvelopeFault::UnknownField { field })
            }
            EnvelopeFault::MissingField { field } => {
                let field = field.dup(alloc)?;
                Ok(EnvelopeFault::MissingField { field })
            }
            EnvelopeFault::NotAString { field, found } => {
                let field = field.dup(alloc)?;
                Ok(EnvelopeFault::NotAString {
                    field,
                    found: *found,
                })
            }
        }
    }
}
