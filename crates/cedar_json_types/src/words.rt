// SPDX-License-Identifier: Apache-2.0
ghost use Rattle.std.specs.Prelude.{◌≡◌};
ghost use Rattle.cedar_json_types.specs.Types as types;

use cedar_data::{Dup, Mem};
use std::alloc::Global;

/// What the key `type` says.
#[derive(Clone, Copy, Debug, PartialEq, Eq)]
pub enum TypeWord {
    /// Texts.
    String,
    /// Whole numbers.
    Long,
    /// Truth values.
    Boolean,
    /// Sets.
    Set,
    /// Records.
    Record,
    /// Entities of a type.
    Entity,
    /// Entities of a type, or a common type.
    EntityOrCommon,
    /// Values of an extension type.
    Extension,
    /// The common type of that name.
    Other,
}

impl Dup for TypeWord {
    fn dup(&self, _alloc: Global) -> Mem<TypeWord> {
        Ok(*self)
    }
}

/// What the text at the key `type` says.
pub fn word_of(text: &str) -> TypeWord
    ensures { result ≡ types.word_of text.now }
{
    if text == "String" {
        TypeWord::String
    } else if text == "Long" {
        TypeWord::Long
    } else if text == "Boolean" {
        TypeWord::Boolean
    } else if text == "Set" {
        TypeWord::Set
    } else if text == "Record" {
        TypeWord::Record
    } else if text == "Entity" {
        TypeWord::Entity
    } else if text == "EntityOrCommon" {
        TypeWord::EntityOrCommon
    } else if text == "Extension" {
        TypeWord::Extension
    } else {
        TypeWord::Other
    }
}
