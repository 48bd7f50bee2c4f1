// SPDX-License-Identifier: Apache-2.0
use cedar_data::{Failure, Mem, NoMemory, Out};
use cedar_names::{EntityType, EntityUID};
use cedar_text::NameFault;
use cedar_types::TcKey;
use std::alloc::Global;
use std::fmt;

/// A key of a node that can be read and told.
pub trait RowKey: TcKey + fmt::Display {
    /// The key that a text is, if it is one.
    fn read(alloc: Global, text: &str) -> Mem<Option<Self>>;
}

impl RowKey for u32 {
    fn read(_alloc: Global, text: &str) -> Mem<Option<u32>> {
        Ok(text.parse::<u32>().ok())
    }
}

impl RowKey for EntityType {
    fn read(alloc: Global, text: &str) -> Mem<Option<EntityType>> {
        unless_refused(EntityType::from_normalized_str(alloc, text))
    }
}

impl RowKey for EntityUID {
    fn read(alloc: Global, text: &str) -> Mem<Option<EntityUID>> {
        unless_refused(EntityUID::from_normalized_str(alloc, text))
    }
}

/// What a text is read as, if it isn't refused.
fn unless_refused<T>(answer: Out<T, NameFault>) -> Mem<Option<T>> {
    match answer {
        Ok(value) => Ok(Some(value)),
        Err(Failure::Refused(_)) => Ok(None),
        Err(Failure::NoMemory) => Err(NoMemory),
    }
}
