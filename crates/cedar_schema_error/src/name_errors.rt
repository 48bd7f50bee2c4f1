// SPDX-License-Identifier: Apache-2.0
//! Errors on references to what is not declared, and on names that shadow others or stand twice.
use cedar_fragment::{ActionEntityUID, ConditionalName};
use cedar_names::{Dup, EntityType, EntityUID, InternalName, Mem, NonEmpty, dup_two};
use std::alloc::Global;

/// References to types that nothing declared is.
#[derive(Debug, Drop)]
pub struct TypeNotDefinedError {
    /// The references, in order.
    pub undefined_types: NonEmpty<ConditionalName>,
}

impl Dup for TypeNotDefinedError {
    fn dup(&self, alloc: Global) -> Mem<TypeNotDefinedError> {
        let undefined_types = self.undefined_types.dup(alloc)?;
        Ok(TypeNotDefinedError { undefined_types })
    }
}

/// Parents of actions that no declared action is.
#[derive(Debug, Drop)]
pub struct ActionNotDefinedError {
    /// The parents, in order.
    pub uids: NonEmpty<ActionEntityUID<ConditionalName>>,
}

impl Dup for ActionNotDefinedError {
    fn dup(&self, alloc: Global) -> Mem<ActionNotDefinedError> {
        let uids = self.uids.dup(alloc)?;
        Ok(ActionNotDefinedError { uids })
    }
}

/// Names that must be entity types and aren't declared as such.
#[derive(Debug, Drop)]
pub struct UndeclaredEntityTypesError {
    /// The names, in order.
    pub types: NonEmpty<EntityType>,
}

impl Dup for UndeclaredEntityTypesError {
    fn dup(&self, alloc: Global) -> Mem<UndeclaredEntityTypesError> {
        let types = self.types.dup(alloc)?;
        Ok(UndeclaredEntityTypesError { types })
    }
}

/// A type in a namespace has the name of one in the unnamed namespace.
#[derive(Debug, Drop)]
pub struct TypeShadowingError {
    /// The type in the unnamed namespace.
    pub shadowed_def: InternalName,
    /// The other type.
    pub shadowing_def: InternalName,
}

impl Dup for TypeShadowingError {
    fn dup(&self, alloc: Global) -> Mem<TypeShadowingError> {
        let (shadowed_def, shadowing_def) = dup_two(
            alloc,
            &self.shadowed_def,
            &self.shadowing_def,
        )?;
        Ok(TypeShadowingError {
            shadowed_def,
            shadowing_def,
        })
    }
}

/// An action in a namespace has the id of one in the unnamed namespace.
#[derive(Debug, Drop)]
pub struct ActionShadowingError {
    /// The action in the unnamed namespace.
    pub shadowed_def: EntityUID,
    /// The other action.
    pub shadowing_def: EntityUID,
}

impl Dup for ActionShadowingError {
    fn dup(&self, alloc: Global) -> Mem<ActionShadowingError> {
        let (shadowed_def, shadowing_def) = dup_two(
            alloc,
            &self.shadowed_def,
            &self.shadowing_def,
        )?;
        Ok(ActionShadowingError {
            shadowed_def,
            shadowing_def,
        })
    }
}

/// An entity type is declared twice.
#[derive(Debug, Drop)]
pub struct DuplicateEntityTypeError {
    /// The entity type.
    pub ty: EntityType,
}

impl Dup for DuplicateEntityTypeError {
    fn dup(&self, alloc: Global) -> Mem<DuplicateEntityTypeError> {
        let ty = self.ty.dup(alloc)?;
        Ok(DuplicateEntityTypeError { ty })
    }
}

/// A common type is declared twice.
#[derive(Debug, Drop)]
pub struct DuplicateCommonTypeError {
    /// The common type.
    pub ty: InternalName,
}

impl Dup for DuplicateCommonTypeError {
    fn dup(&self, alloc: Global) -> Mem<DuplicateCommonTypeError> {
        let ty = self.ty.dup(alloc)?;
        Ok(DuplicateCommonTypeError { ty })
    }
}

/// An action is declared twice.
#[derive(Debug, Drop)]
pub struct DuplicateActionError {
    /// The action.
    pub uid: EntityUID,
}

impl Dup for DuplicateActionError {
    fn dup(&self, alloc: Global) -> Mem<DuplicateActionError> {
        let uid = self.uid.dup(alloc)?;
        Ok(DuplicateActionError { uid })
    }
}

/// A common type refers to itself, maybe through others.
#[derive(Debug, Drop)]
pub struct CycleInCommonTypeReferencesError {
    /// The least common type that does.
    pub ty: InternalName,
}

impl Dup for CycleInCommonTypeReferencesError {
    fn dup(&self, alloc: Global) -> Mem<CycleInCommonTypeReferencesError> {
        let ty = self.ty.dup(alloc)?;
        Ok(CycleInCommonTypeReferencesError { ty })
    }
}

/// An action descends from itself.
#[derive(Debug, Drop)]
pub struct CycleInActionHierarchyError {
    /// The least action that does.
    pub uid: EntityUID,
}

impl Dup for CycleInActionHierarchyError {
    fn dup(&self, alloc: Global) -> Mem<CycleInActionHierarchyError> {
        let uid = self.uid.dup(alloc)?;
        Ok(CycleInActionHierarchyError { uid })
    }
}
