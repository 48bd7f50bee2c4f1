// SPDX-License-Identifier: Apache-2.0
//! Why a schema is refused: the errors of resolving with what each keeps, and whether actions may have attributes.
#![tactic(auto)]

mod action_behavior;
mod conversions;
mod help;
mod joining;
mod kept_errors;
mod name_errors;
mod name_texts;
mod places;
mod schema_error;
mod shown;
mod texts;
mod type_errors;
mod use_place;

pub use action_behavior::ActionBehavior;
pub use cedar_fragment::{
    ActionEntityUID, AttributesOrContext, ConditionalName, RecordType, RefName, ReferenceType,
    SchemaType, Step, TypeOfAttribute, TypeVariant, Walk,
};
pub use kept_errors::{
    ActionAttrEvalError, ActionInvariantViolationError, ActionTransitiveClosureError,
    EntityTypeTransitiveClosureError, ExprEscapeUsedError, JsonSerializationError,
};
pub use name_errors::{
    ActionNotDefinedError, ActionShadowingError, CycleInActionHierarchyError,
    CycleInCommonTypeReferencesError, DuplicateActionError, DuplicateCommonTypeError,
    DuplicateEntityTypeError, TypeNotDefinedError, TypeShadowingError, UndeclaredEntityTypesError,
};
pub use schema_error::SchemaError;
pub use type_errors::{
    ActionAttributesContainEmptySetError, ActionEntityTypeDeclaredError,
    CommonTypeInvariantViolationError, ContextOrShape, ContextOrShapeNotRecordError, TooDeepError,
    UnknownExtensionTypeError, UnsupportedActionAttributeError, UnsupportedFeature,
    UnsupportedFeatureError,
};
pub use use_place::{DeepPlace, UsePlace};
