// SPDX-License-Identifier: Apache-2.0
//! Errors that no call here gives by itself, kept for callers that hand one in.
use cedar_fragment::TcError;
use cedar_names::{Dup, EntityType, EntityUID, Mem, NonEmpty};
use std::alloc::Global;

/// A schema could not be written as JSON.
#[derive(Debug, Drop)]
pub struct JsonSerializationError;

impl Dup for JsonSerializationError {
    fn dup(&self, _alloc: Global) -> Mem<JsonSerializationError> {
        Ok(JsonSerializationError)
    }
}

/// A value uses the escape `__expr`.
#[derive(Debug, Drop)]
pub struct ExprEscapeUsedError;

impl Dup for ExprEscapeUsedError {
    fn dup(&self, _alloc: Global) -> Mem<ExprEscapeUsedError> {
        Ok(ExprEscapeUsedError)
    }
}

/// The value of an attribute of an action could not be found out.
#[derive(Debug, Drop)]
pub struct ActionAttrEvalError;

impl Dup for ActionAttrEvalError {
    fn dup(&self, _alloc: Global) -> Mem<ActionAttrEvalError> {
        Ok(ActionAttrEvalError)
    }
}

/// Actions have no definition, though each should.
#[derive(Debug, Drop)]
pub struct ActionInvariantViolationError {
    /// The actions.
    pub euids: NonEmpty<EntityUID>,
}

impl Dup for ActionInvariantViolationError {
    fn dup(&self, alloc: Global) -> Mem<ActionInvariantViolationError> {
        let euids = self.euids.dup(alloc)?;
        Ok(ActionInvariantViolationError { euids })
    }
}

/// There is no closure of the memberships of actions.
#[derive(Debug, Drop)]
pub struct ActionTransitiveClosureError {
    /// Why.
    pub error: TcError<EntityUID>,
}

impl Dup for ActionTransitiveClosureError {
    fn dup(&self, alloc: Global) -> Mem<ActionTransitiveClosureError> {
        let error = self.error.dup(alloc)?;
        Ok(ActionTransitiveClosureError { error })
    }
}

/// There is no closure of the memberships of entity types.
#[derive(Debug, Drop)]
pub struct EntityTypeTransitiveClosureError {
    /// Why.
    pub error: TcError<EntityType>,
}

impl Dup for EntityTypeTransitiveClosureError {
    fn dup(&self, alloc: Global) -> Mem<EntityTypeTransitiveClosureError> {
        let error = self.error.dup(alloc)?;
        Ok(EntityTypeTransitiveClosureError { error })
    }
}
