// SPDX-License-Identifier: Apache-2.0
//! Resolving, in one crate for its users: definitions of namespaces, the names that they declare, what references mean,
//! unfolding, and the errors of all of these. It has no code of its own.
#![tactic(auto)]

pub use cedar_complete::FullyQualifyDefinitions;
pub use cedar_data::Near;
pub use cedar_declared::{AllDefs, FullyQualify, ResolveName};
pub use cedar_definitions::{
    ActionFragment, ActionNameIter, ActionsDef, CommonNameIter, CommonTypeDefs, EntityNameIter,
    EntityTypeFragment, EntityTypesDef, NamespaceIter, ParentIter, ValidatorApplySpec,
    ValidatorNamespaceDef, ValidatorSchemaFragment,
};
pub use cedar_namespace_definitions::{FromNamespaceDefinition, FromSchemaFragment};
pub use cedar_schema_error::{
    ActionAttrEvalError, ActionAttributesContainEmptySetError, ActionBehavior,
    ActionEntityTypeDeclaredError, ActionInvariantViolationError, ActionNotDefinedError,
    ActionShadowingError, ActionTransitiveClosureError, CommonTypeInvariantViolationError,
    ContextOrShape, ContextOrShapeNotRecordError, CycleInActionHierarchyError,
    CycleInCommonTypeReferencesError, DeepPlace, DuplicateActionError, DuplicateCommonTypeError,
    DuplicateEntityTypeError, EntityTypeTransitiveClosureError, ExprEscapeUsedError,
    JsonSerializationError, SchemaError, TooDeepError, TypeNotDefinedError, TypeShadowingError,
    UndeclaredEntityTypesError, UnknownExtensionTypeError, UnsupportedActionAttributeError,
    UnsupportedFeature, UnsupportedFeatureError, UsePlace,
};
pub use cedar_shadowing::ShadowingChecks;
pub use cedar_unfold::{Looked, Steps, TypeNode, Unfolded, unfold_all};
