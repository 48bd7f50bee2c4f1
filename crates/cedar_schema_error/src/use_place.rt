// SPDX-License-Identifier: Apache-2.0
use cedar_names::{Dup, EntityType, EntityUID, InternalName, Mem};
use std::alloc::Global;

/// Where a schema uses a type. Places are ordered by variant, and then by the kept name.
#[derive(Debug, Drop, PartialEq, Eq, PartialOrd, Ord)]
pub enum UsePlace {
    /// The shape of an entity type.
    Shape(EntityType),
    /// The tags of an entity type.
    Tags(EntityType),
    /// The context of an action.
    Context(EntityUID),
}

impl Dup for UsePlace {
    fn dup(&self, alloc: Global) -> Mem<UsePlace> {
        match self {
            UsePlace::Shape(ty) => {
                let ty = ty.dup(alloc)?;
                Ok(UsePlace::Shape(ty))
            }
            UsePlace::Tags(ty) => {
                let ty = ty.dup(alloc)?;
                Ok(UsePlace::Tags(ty))
            }
            UsePlace::Context(uid) => {
                let uid = uid.dup(alloc)?;
                Ok(UsePlace::Context(uid))
            }
        }
    }
}

/// Where a type nests too deep.
#[derive(Debug, Drop)]
pub enum DeepPlace {
    /// The definition of a common type.
    Common(InternalName),
    /// Where a type is used.
    Place(UsePlace),
}

impl Dup for DeepPlace {
    fn dup(&self, alloc: Global) -> Mem<DeepPlace> {
        match self {
            DeepPlace::Common(name) => {
                let name = name.dup(alloc)?;
                Ok(DeepPlace::Common(name))
            }
            DeepPlace::Place(place) => {
                let place = place.dup(alloc)?;
                Ok(DeepPlace::Place(place))
            }
        }
    }
}
