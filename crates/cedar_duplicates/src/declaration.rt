// SPDX-License-Identifier: Apache-2.0
ghost use Rattle.std.specs.Prelude.{◌≡◌, IfOk};
ghost use Rattle.cedar_duplicates.specs.Declarations.{declared, error_of};
ghost use Rattle.cedar_duplicates.specs.Duplicates.{duplicate};
ghost use Rattle.cedar_schema_error.specs.Told.{told};

use cedar_data::{Dup, Mem};
use cedar_names::{EntityType, EntityUID, InternalName};
use cedar_schema_error::{
    DuplicateActionError, DuplicateCommonTypeError, DuplicateEntityTypeError, SchemaError,
};
use std::alloc::Global;

/// A full name that is declared. Declarations are ordered by variant, and then by the name.
#[derive(Drop, PartialEq, Eq, PartialOrd, Ord)]
pub(crate) enum Declaration {
    /// A common type.
    CommonType(InternalName),
    /// An entity type.
    EntityType(EntityType),
    /// An action.
    Action(EntityUID),
}

impl Dup for Declaration {
    fn dup(&self, alloc: Global) -> Mem<Declaration> {
        match self {
            Declaration::CommonType(name) => {
                let name = name.dup(alloc)?;
                Ok(Declaration::CommonType(name))
            }
            Declaration::EntityType(ty) => {
                let ty = ty.dup(alloc)?;
                Ok(Declaration::EntityType(ty))
            }
            Declaration::Action(uid) => {
                let uid = uid.dup(alloc)?;
                Ok(Declaration::Action(uid))
            }
        }
    }
}

impl Declaration {
    /// The refusal of a name that is declared before, which keeps the name as it is, with its place. It takes no memory.
    pub(crate) fn into_error(self) -> SchemaError
        ensures told { told result ≡ duplicate (declared self) }
        ensures keeps { result ≡ error_of self }
    {
        match self {
            Declaration::CommonType(ty) => {
                SchemaError::DuplicateCommonType(DuplicateCommonTypeError { ty })
            }
            Declaration::EntityType(ty) => {
                SchemaError::DuplicateEntityType(DuplicateEntityTypeError { ty })
            }
            Declaration::Action(uid) => SchemaError::DuplicateAction(DuplicateActionError { uid }),
        }
    }
}

/// The name of a declaration of one kind.
pub(crate) trait Declares {
    ghost use Rattle.cedar_duplicates.specs.declared.declaration.Declaration.{Declaration};

    /// The declaration of this name.
    ghost declaration: { Self → Declaration };

    /// The declaration of this name.
    fn declaration(&self, alloc: Global) -> Mem<Declaration>
        ensures { IfOk result (λ d. d ≡ declaration self.now) };
}

impl Declares for InternalName {
    ghost use Rattle.cedar_duplicates.specs.declared.declaration.Declaration.TheVariants as declaration_of;

    ghost declaration = { declaration_of.CommonType };

    fn declaration(&self, alloc: Global) -> Mem<Declaration> {
        let name = self.dup(alloc)?;
        Ok(Declaration::CommonType(name))
    }
}

impl Declares for EntityType {
    ghost use Rattle.cedar_duplicates.specs.declared.declaration.Declaration.TheVariants as declaration_of;

    ghost declaration = { declaration_of.EntityType };

    fn declaration(&self, alloc: Global) -> Mem<Declaration> {
        let ty = self.dup(alloc)?;
        Ok(Declaration::EntityType(ty))
    }
}

impl Declares for EntityUID {
    ghost use Rattle.cedar_duplicates.specs.declared.declaration.Declaration.TheVariants as declaration_of;

    ghost declaration = { declaration_of.Action };

    fn declaration(&self, alloc: Global) -> Mem<Declaration> {
        let uid = self.dup(alloc)?;
        Ok(Declaration::Action(uid))
    }
}
