// SPDX-License-Identifier: Apache-2.0
//! Errors on the types that a schema writes, and on the attributes of its actions.
use crate::use_place::DeepPlace;
use cedar_names::{Dup, EntityType, EntityUID, InternalName, Items, Mem, Name, Text, dup_two};
use std::alloc::Global;

/// What a schema may write, and is not supported.
#[derive(Debug, Drop)]
pub enum UnsupportedFeature {
    /// A record that may have attributes beyond those that it names.
    OpenRecordsAndEntities,
    /// Attributes of the actions of these ids, in order.
    ActionAttributes(Items<Text>),
}

impl Dup for UnsupportedFeature {
    fn dup(&self, alloc: Global) -> Mem<UnsupportedFeature> {
        match self {
            UnsupportedFeature::OpenRecordsAndEntities => {
                Ok(UnsupportedFeature::OpenRecordsAndEntities)
            }
            UnsupportedFeature::ActionAttributes(ids) => {
                let ids = ids.dup(alloc)?;
                Ok(UnsupportedFeature::ActionAttributes(ids))
            }
        }
    }
}

/// The context of an action, or the shape of an entity type.
#[derive(Debug, Drop)]
pub enum ContextOrShape {
    /// The context of this action.
    ActionContext(EntityUID),
    /// The shape of this entity type.
    EntityTypeShape(EntityType),
}

impl Dup for ContextOrShape {
    fn dup(&self, alloc: Global) -> Mem<ContextOrShape> {
        match self {
            ContextOrShape::ActionContext(uid) => {
                let uid = uid.dup(alloc)?;
                Ok(ContextOrShape::ActionContext(uid))
            }
            ContextOrShape::EntityTypeShape(ty) => {
                let ty = ty.dup(alloc)?;
                Ok(ContextOrShape::EntityTypeShape(ty))
            }
        }
    }
}

/// The schema uses what is not supported.
#[derive(Debug, Drop)]
pub struct UnsupportedFeatureError {
    /// The feature.
    pub feature: UnsupportedFeature,
}

impl Dup for UnsupportedFeatureError {
    fn dup(&self, alloc: Global) -> Mem<UnsupportedFeatureError> {
        let feature = self.feature.dup(alloc)?;
        Ok(UnsupportedFeatureError { feature })
    }
}

/// The context of an action or the shape of an entity type is no record.
#[derive(Debug, Drop)]
pub struct ContextOrShapeNotRecordError {
    /// Which.
    pub ctx_or_shape: ContextOrShape,
}

impl Dup for ContextOrShapeNotRecordError {
    fn dup(&self, alloc: Global) -> Mem<ContextOrShapeNotRecordError> {
        let ctx_or_shape = self.ctx_or_shape.dup(alloc)?;
        Ok(ContextOrShapeNotRecordError { ctx_or_shape })
    }
}

/// An action has an attribute with an empty set in it.
#[derive(Debug, Drop)]
pub struct ActionAttributesContainEmptySetError {
    /// The action.
    pub uid: EntityUID,
}

impl Dup for ActionAttributesContainEmptySetError {
    fn dup(&self, alloc: Global) -> Mem<ActionAttributesContainEmptySetError> {
        let uid = self.uid.dup(alloc)?;
        Ok(ActionAttributesContainEmptySetError { uid })
    }
}

/// An action has an attribute with a value in it that attributes may not have.
#[derive(Debug, Drop)]
pub struct UnsupportedActionAttributeError {
    /// The action.
    pub uid: EntityUID,
    /// What kind of value it is.
    pub attr: Text,
}

impl Dup for UnsupportedActionAttributeError {
    fn dup(&self, alloc: Global) -> Mem<UnsupportedActionAttributeError> {
        let (uid, attr) = dup_two(alloc, &self.uid, &self.attr)?;
        Ok(UnsupportedActionAttributeError { uid, attr })
    }
}

/// An entity type is named `Action`.
#[derive(Debug, Drop)]
pub struct ActionEntityTypeDeclaredError;

impl Dup for ActionEntityTypeDeclaredError {
    fn dup(&self, _alloc: Global) -> Mem<ActionEntityTypeDeclaredError> {
        Ok(ActionEntityTypeDeclaredError)
    }
}

/// The name is that of no extension type.
#[derive(Debug, Drop)]
pub struct UnknownExtensionTypeError {
    /// The name.
    pub actual: Name,
}

impl Dup for UnknownExtensionTypeError {
    fn dup(&self, alloc: Global) -> Mem<UnknownExtensionTypeError> {
        let actual = self.actual.dup(alloc)?;
        Ok(UnknownExtensionTypeError { actual })
    }
}

/// The name stands for a common type that has no definition.
#[derive(Debug, Drop)]
pub struct CommonTypeInvariantViolationError {
    /// The name.
    pub name: InternalName,
}

impl Dup for CommonTypeInvariantViolationError {
    fn dup(&self, alloc: Global) -> Mem<CommonTypeInvariantViolationError> {
        let name = self.name.dup(alloc)?;
        Ok(CommonTypeInvariantViolationError { name })
    }
}

/// A type nests sets and records too deep.
#[derive(Debug, Drop)]
pub struct TooDeepError {
    /// Where it does.
    pub place: DeepPlace,
}

impl Dup for TooDeepError {
    fn dup(&self, alloc: Global) -> Mem<TooDeepError> {
        let place = self.place.dup(alloc)?;
        Ok(TooDeepError { place })
    }
}
