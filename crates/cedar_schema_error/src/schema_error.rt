// SPDX-License-Identifier: Apache-2.0
use crate::kept_errors::{
    ActionAttrEvalError, ActionInvariantViolationError, ActionTransitiveClosureError,
    EntityTypeTransitiveClosureError, ExprEscapeUsedError, JsonSerializationError,
};
use crate::name_errors::{
    ActionNotDefinedError, ActionShadowingError, CycleInActionHierarchyError,
    CycleInCommonTypeReferencesError, DuplicateActionError, DuplicateCommonTypeError,
    DuplicateEntityTypeError, TypeNotDefinedError, TypeShadowingError, UndeclaredEntityTypesError,
};
use crate::type_errors::{
    ActionAttributesContainEmptySetError, ActionEntityTypeDeclaredError,
    CommonTypeInvariantViolationError, ContextOrShapeNotRecordError, TooDeepError,
    UnknownExtensionTypeError, UnsupportedActionAttributeError, UnsupportedFeatureError,
};
use cedar_fragment::JsonDeserializationError;
use cedar_names::{Dup, Mem, ReservedNameError};
use std::alloc::Global;

/// Why a schema is refused.
#[derive(Debug, Drop)]
pub enum SchemaError {
    /// A schema in JSON is at fault.
    JsonDeserialization(JsonDeserializationError),
    /// A schema could not be written as JSON.
    JsonSerialization(JsonSerializationError),
    /// The schema uses what is not supported.
    UnsupportedFeature(UnsupportedFeatureError),
    /// Names that must be entity types aren't declared as such.
    UndeclaredEntityTypes(UndeclaredEntityTypesError),
    /// References to types mean nothing that is declared.
    TypeNotDefined(TypeNotDefinedError),
    /// Parents of actions are no declared actions.
    ActionNotDefined(ActionNotDefinedError),
    /// A type shadows another.
    TypeShadowing(TypeShadowingError),
    /// An action shadows another.
    ActionShadowing(ActionShadowingError),
    /// An entity type is declared twice.
    DuplicateEntityType(DuplicateEntityTypeError),
    /// A common type is declared twice.
    DuplicateCommonType(DuplicateCommonTypeError),
    /// An action is declared twice.
    DuplicateAction(DuplicateActionError),
    /// A common type refers to itself.
    CycleInCommonTypeReferences(CycleInCommonTypeReferencesError),
    /// An action descends from itself.
    CycleInActionHierarchy(CycleInActionHierarchyError),
    /// An entity type is named `Action`.
    ActionEntityTypeDeclared(ActionEntityTypeDeclaredError),
    /// A context or a shape is no record.
    ContextOrShapeNotRecord(ContextOrShapeNotRecordError),
    /// An attribute of an action has an empty set in it.
    ActionAttributesContainEmptySet(ActionAttributesContainEmptySetError),
    /// An attribute of an action has a value in it that it may not have.
    UnsupportedActionAttribute(UnsupportedActionAttributeError),
    /// The value of an attribute of an action could not be found out.
    ActionAttrEval(ActionAttrEvalError),
    /// A value uses the escape `__expr`.
    ExprEscapeUsed(ExprEscapeUsedError),
    /// A name is that of no extension type.
    UnknownExtensionType(UnknownExtensionTypeError),
    /// A name stands for a common type that has no definition.
    CommonTypeInvariantViolation(CommonTypeInvariantViolationError),
    /// Actions have no definition, though each should.
    ActionInvariantViolation(ActionInvariantViolationError),
    /// There is no closure of the memberships of actions.
    ActionTransitiveClosure(ActionTransitiveClosureError),
    /// There is no closure of the memberships of entity types.
    EntityTypeTransitiveClosure(EntityTypeTransitiveClosureError),
    /// A name has the component `__cedar`, which is reserved.
    ReservedName(ReservedNameError),
    /// A type nests sets and records too deep.
    TooDeep(TooDeepError),
}

impl Dup for SchemaError {
    fn dup(&self, alloc: Global) -> Mem<SchemaError> {
        match self {
            SchemaError::JsonDeserialization(e) => Ok(SchemaError::JsonDeserialization(e.dup(
                alloc,
            )?)),
            SchemaError::JsonSerialization(e) => Ok(SchemaError::JsonSerialization(e.dup(alloc)?)),
            SchemaError::UnsupportedFeature(e) => Ok(SchemaError::UnsupportedFeature(e.dup(
                alloc,
            )?)),
            SchemaError::UndeclaredEntityTypes(e) => Ok(SchemaError::UndeclaredEntityTypes(e.dup(
                alloc,
            )?)),
            SchemaError::TypeNotDefined(e) => Ok(SchemaError::TypeNotDefined(e.dup(alloc)?)),
            SchemaError::ActionNotDefined(e) => Ok(SchemaError::ActionNotDefined(e.dup(alloc)?)),
            SchemaError::TypeShadowing(e) => Ok(SchemaError::TypeShadowing(e.dup(alloc)?)),
            SchemaError::ActionShadowing(e) => Ok(SchemaError::ActionShadowing(e.dup(alloc)?)),
            SchemaError::DuplicateEntityType(e) => Ok(SchemaError::DuplicateEntityType(e.dup(
                alloc,
            )?)),
            SchemaError::DuplicateCommonType(e) => Ok(SchemaError::DuplicateCommonType(e.dup(
                alloc,
            )?)),
            SchemaError::DuplicateAction(e) => Ok(SchemaError::DuplicateAction(e.dup(alloc)?)),
            SchemaError::CycleInCommonTypeReferences(e) => Ok(
                SchemaError::CycleInCommonTypeReferences(e.dup(alloc)?),
            ),
            SchemaError::CycleInActionHierarchy(e) => Ok(SchemaError::CycleInActionHierarchy(e.dup(
                alloc,
            )?)),
            SchemaError::ActionEntityTypeDeclared(e) => Ok(SchemaError::ActionEntityTypeDeclared(
                e.dup(alloc)?,
            )),
            SchemaError::ContextOrShapeNotRecord(e) => Ok(SchemaError::ContextOrShapeNotRecord(
                e.dup(alloc)?,
            )),
            SchemaError::ActionAttributesContainEmptySet(e) => Ok(
                SchemaError::ActionAttributesContainEmptySet(e.dup(alloc)?),
            ),
            SchemaError::UnsupportedActionAttribute(e) => Ok(
                SchemaError::UnsupportedActionAttribute(e.dup(alloc)?),
            ),
            SchemaError::ActionAttrEval(e) => Ok(SchemaError::ActionAttrEval(e.dup(alloc)?)),
            SchemaError::ExprEscapeUsed(e) => Ok(SchemaError::ExprEscapeUsed(e.dup(alloc)?)),
            SchemaError::UnknownExtensionType(e) => Ok(SchemaError::UnknownExtensionType(e.dup(
                alloc,
            )?)),
            SchemaError::CommonTypeInvariantViolation(e) => Ok(
                SchemaError::CommonTypeInvariantViolation(e.dup(alloc)?),
            ),
            SchemaError::ActionInvariantViolation(e) => Ok(SchemaError::ActionInvariantViolation(
                e.dup(alloc)?,
            )),
            SchemaError::ActionTransitiveClosure(e) => Ok(SchemaError::ActionTransitiveClosure(
                e.dup(alloc)?,
            )),
            SchemaError::EntityTypeTransitiveClosure(e) => Ok(
                SchemaError::EntityTypeTransitiveClosure(e.dup(alloc)?),
            ),
            SchemaError::ReservedName(e) => Ok(SchemaError::ReservedName(e.dup(alloc)?)),
            SchemaError::TooDeep(e) => Ok(SchemaError::TooDeep(e.dup(alloc)?)),
        }
    }
}
