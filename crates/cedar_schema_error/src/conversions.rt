// SPDX-License-Identifier: Apache-2.0
ghost use Rattle.std.specs.Prelude.{◌≡◌};
ghost use Rattle.cedar_schema_error.specs.declared.schema_error.SchemaError.TheVariants as error;

use crate::kept_errors::{
    ActionAttrEvalError, ActionInvariantViolationError, ActionTransitiveClosureError,
    EntityTypeTransitiveClosureError, ExprEscapeUsedError, JsonSerializationError,
};
use crate::name_errors::{
    ActionNotDefinedError, ActionShadowingError, CycleInActionHierarchyError,
    CycleInCommonTypeReferencesError, DuplicateActionError, DuplicateCommonTypeError,
    DuplicateEntityTypeError, TypeNotDefinedError, TypeShadowingError, UndeclaredEntityTypesError,
};
use crate::schema_error::SchemaError;
use crate::type_errors::{
    ActionAttributesContainEmptySetError, ActionEntityTypeDeclaredError,
    CommonTypeInvariantViolationError, ContextOrShapeNotRecordError, TooDeepError,
    UnsupportedActionAttributeError, UnsupportedFeatureError,
};
use cedar_fragment::{JsonDeserializationError, TcError};
use cedar_names::{EntityUID, ReservedNameError};

impl From<JsonDeserializationError> for SchemaError {
    ghost from_gives = { λ kept e. e ≡ error.JsonDeserialization kept };

    fn from(kept: JsonDeserializationError) -> SchemaError {
        SchemaError::JsonDeserialization(kept)
    }
}

impl From<JsonSerializationError> for SchemaError {
    ghost from_gives = { λ kept e. e ≡ error.JsonSerialization kept };

    fn from(kept: JsonSerializationError) -> SchemaError {
        SchemaError::JsonSerialization(kept)
    }
}

impl From<UnsupportedFeatureError> for SchemaError {
    ghost from_gives = { λ kept e. e ≡ error.UnsupportedFeature kept };

    fn from(kept: UnsupportedFeatureError) -> SchemaError {
        SchemaError::UnsupportedFeature(kept)
    }
}

impl From<UndeclaredEntityTypesError> for SchemaError {
    ghost from_gives = { λ kept e. e ≡ error.UndeclaredEntityTypes kept };

    fn from(kept: UndeclaredEntityTypesError) -> SchemaError {
        SchemaError::UndeclaredEntityTypes(kept)
    }
}

impl From<TypeNotDefinedError> for SchemaError {
    ghost from_gives = { λ kept e. e ≡ error.TypeNotDefined kept };

    fn from(kept: TypeNotDefinedError) -> SchemaError {
        SchemaError::TypeNotDefined(kept)
    }
}

impl From<ActionNotDefinedError> for SchemaError {
    ghost from_gives = { λ kept e. e ≡ error.ActionNotDefined kept };

    fn from(kept: ActionNotDefinedError) -> SchemaError {
        SchemaError::ActionNotDefined(kept)
    }
}

impl From<TypeShadowingError> for SchemaError {
    ghost from_gives = { λ kept e. e ≡ error.TypeShadowing kept };

    fn from(kept: TypeShadowingError) -> SchemaError {
        SchemaError::TypeShadowing(kept)
    }
}

impl From<ActionShadowingError> for SchemaError {
    ghost from_gives = { λ kept e. e ≡ error.ActionShadowing kept };

    fn from(kept: ActionShadowingError) -> SchemaError {
        SchemaError::ActionShadowing(kept)
    }
}

impl From<DuplicateEntityTypeError> for SchemaError {
    ghost from_gives = { λ kept e. e ≡ error.DuplicateEntityType kept };

    fn from(kept: DuplicateEntityTypeError) -> SchemaError {
        SchemaError::DuplicateEntityType(kept)
    }
}

impl From<DuplicateCommonTypeError> for SchemaError {
    ghost from_gives = { λ kept e. e ≡ error.DuplicateCommonType kept };

    fn from(kept: DuplicateCommonTypeError) -> SchemaError {
        SchemaError::DuplicateCommonType(kept)
    }
}

impl From<DuplicateActionError> for SchemaError {
    ghost from_gives = { λ kept e. e ≡ error.DuplicateAction kept };

    fn from(kept: DuplicateActionError) -> SchemaError {
        SchemaError::DuplicateAction(kept)
    }
}

impl From<CycleInCommonTypeReferencesError> for SchemaError {
    ghost from_gives = { λ kept e. e ≡ error.CycleInCommonTypeReferences kept };

    fn from(kept: CycleInCommonTypeReferencesError) -> SchemaError {
        SchemaError::CycleInCommonTypeReferences(kept)
    }
}

impl From<CycleInActionHierarchyError> for SchemaError {
    ghost from_gives = { λ kept e. e ≡ error.CycleInActionHierarchy kept };

    fn from(kept: CycleInActionHierarchyError) -> SchemaError {
        SchemaError::CycleInActionHierarchy(kept)
    }
}

impl From<ActionEntityTypeDeclaredError> for SchemaError {
    ghost from_gives = { λ kept e. e ≡ error.ActionEntityTypeDeclared kept };

    fn from(kept: ActionEntityTypeDeclaredError) -> SchemaError {
        SchemaError::ActionEntityTypeDeclared(kept)
    }
}

impl From<ContextOrShapeNotRecordError> for SchemaError {
    ghost from_gives = { λ kept e. e ≡ error.ContextOrShapeNotRecord kept };

    fn from(kept: ContextOrShapeNotRecordError) -> SchemaError {
        SchemaError::ContextOrShapeNotRecord(kept)
    }
}

impl From<ActionAttributesContainEmptySetError> for SchemaError {
    ghost from_gives = { λ kept e. e ≡ error.ActionAttributesContainEmptySet kept };

    fn from(kept: ActionAttributesContainEmptySetError) -> SchemaError {
        SchemaError::ActionAttributesContainEmptySet(kept)
    }
}

impl From<UnsupportedActionAttributeError> for SchemaError {
    ghost from_gives = { λ kept e. e ≡ error.UnsupportedActionAttribute kept };

    fn from(kept: UnsupportedActionAttributeError) -> SchemaError {
        SchemaError::UnsupportedActionAttribute(kept)
    }
}

impl From<ActionAttrEvalError> for SchemaError {
    ghost from_gives = { λ kept e. e ≡ error.ActionAttrEval kept };

    fn from(kept: ActionAttrEvalError) -> SchemaError {
        SchemaError::ActionAttrEval(kept)
    }
}

impl From<ExprEscapeUsedError> for SchemaError {
    ghost from_gives = { λ kept e. e ≡ error.ExprEscapeUsed kept };

    fn from(kept: ExprEscapeUsedError) -> SchemaError {
        SchemaError::ExprEscapeUsed(kept)
    }
}

impl From<CommonTypeInvariantViolationError> for SchemaError {
    ghost from_gives = { λ kept e. e ≡ error.CommonTypeInvariantViolation kept };

    fn from(kept: CommonTypeInvariantViolationError) -> SchemaError {
        SchemaError::CommonTypeInvariantViolation(kept)
    }
}

impl From<ActionInvariantViolationError> for SchemaError {
    ghost from_gives = { λ kept e. e ≡ error.ActionInvariantViolation kept };

    fn from(kept: ActionInvariantViolationError) -> SchemaError {
        SchemaError::ActionInvariantViolation(kept)
    }
}

impl From<ActionTransitiveClosureError> for SchemaError {
    ghost from_gives = { λ kept e. e ≡ error.ActionTransitiveClosure kept };

    fn from(kept: ActionTransitiveClosureError) -> SchemaError {
        SchemaError::ActionTransitiveClosure(kept)
    }
}

impl From<EntityTypeTransitiveClosureError> for SchemaError {
    ghost from_gives = { λ kept e. e ≡ error.EntityTypeTransitiveClosure kept };

    fn from(kept: EntityTypeTransitiveClosureError) -> SchemaError {
        SchemaError::EntityTypeTransitiveClosure(kept)
    }
}

impl From<ReservedNameError> for SchemaError {
    ghost from_gives = { λ kept e. e ≡ error.ReservedName kept };

    fn from(kept: ReservedNameError) -> SchemaError {
        SchemaError::ReservedName(kept)
    }
}

impl From<TooDeepError> for SchemaError {
    ghost from_gives = { λ kept e. e ≡ error.TooDeep kept };

    fn from(kept: TooDeepError) -> SchemaError {
        SchemaError::TooDeep(kept)
    }
}

impl From<TcError<EntityUID>> for SchemaError {
    ghost use Rattle.cedar_schema_error.specs.ClosureErrors.{action_error};

    ghost from_gives = { λ kept e. e ≡ action_error kept };

    fn from(kept: TcError<EntityUID>) -> SchemaError {
        match kept {
            TcError::HasCycle { vertex } => {
                SchemaError::CycleInActionHierarchy(CycleInActionHierarchyError { uid: vertex })
            }
            TcError::MissingTcEdge { vertex } => {
                let error = TcError::MissingTcEdge { vertex };
                SchemaError::ActionTransitiveClosure(ActionTransitiveClosureError { error })
            }
        }
    }
}
