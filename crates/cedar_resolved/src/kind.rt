// SPDX-License-Identifier: Apache-2.0
ghost use Rattle.std.specs.Prelude.{◌≡◌};
ghost use Rattle.std.specs.Option.{option_copied};
ghost use Rattle.cedar_resolved.specs.Kinds.{standard_open, standard_tags};

use cedar_data::{Dup, Mem, Text};
use cedar_names::NonEmpty;
use cedar_types::{OpenTag, Type};
use std::alloc::Global;

/// What an entity type with attributes has beside them.
#[derive(Debug, Drop)]
pub struct StandardValidatorEntityType {
    open_attributes: OpenTag,
    tags: Option<Type>,
}

/// Of which kind an entity type is.
#[derive(Debug, Drop)]
pub enum ValidatorEntityTypeKind {
    /// Its entities have attributes, and may have tags.
    Standard(StandardValidatorEntityType),
    /// Its entities are those of these ids, in the order of the text.
    Enum(NonEmpty<Text>),
}

impl StandardValidatorEntityType {
    /// The kind of entity types with closed or open attributes, and with tags of this type.
    pub(crate) fn of(open_attributes: OpenTag, tags: Option<Type>) -> StandardValidatorEntityType
        ensures open { standard_open result ≡ open_attributes }
        ensures tags { standard_tags result ≡ tags }
    {
        StandardValidatorEntityType {
            open_attributes,
            tags,
        }
    }

    /// Whether its entities may have attributes beyond those listed.
    pub(crate) fn open_attributes(&self) -> OpenTag
        ensures { result ≡ standard_open self.now }
    {
        self.open_attributes
    }

    /// The type of its tags, if it has any.
    pub fn tag_type(&self) -> Option<&Type>
        ensures { option_copied result ≡ standard_tags self.now }
    {
        self.tags.as_ref()
    }
}

impl Dup for StandardValidatorEntityType {
    fn dup(&self, alloc: Global) -> Mem<StandardValidatorEntityType> {
        let tags = self.tags.dup(alloc)?;
        Ok(StandardValidatorEntityType {
            open_attributes: self.open_attributes,
            tags,
        })
    }
}

impl Dup for ValidatorEntityTypeKind {
    fn dup(&self, alloc: Global) -> Mem<ValidatorEntityTypeKind> {
        match self {
            ValidatorEntityTypeKind::Standard(standard) => {
                let standard = standard.dup(alloc)?;
                Ok(ValidatorEntityTypeKind::Standard(standard))
            }
            ValidatorEntityTypeKind::Enum(ids) => {
                let ids = ids.dup(alloc)?;
                Ok(ValidatorEntityTypeKind::Enum(ids))
            }
        }
    }
}
