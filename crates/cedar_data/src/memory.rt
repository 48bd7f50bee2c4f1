// SPDX-License-Identifier: Apache-2.0
ghost use Rattle.std.specs.Prelude.{◌≡◌, Some, codes};
ghost use Rattle.cedar_data.specs.declared.memory.Failure.TheVariants.{NoMemory as OutOfMemory};

use crate::dup::Dup;
use std::alloc::{AllocError, AllocFailed, Global};
use std::error::Error;
use std::fmt;

/// Want of memory.
#[derive(Clone, Copy, Debug, PartialEq, Eq)]
pub struct NoMemory;

/// Why a call was refused: by its own rules, or for want of memory.
#[derive(Debug, Drop, PartialEq, Eq)]
pub enum Failure<E> {
    /// The call was refused, for this reason.
    Refused(E),
    /// There was not enough memory.
    NoMemory,
}

/// The answer of a call that fails only for want of memory.
pub type Mem<T> = Result<T, NoMemory>;

/// The answer of a call that may be refused, or fail for want of memory.
pub type Out<T, E> = Result<T, Failure<E>>;

/// Makes room for `room` more items where there is none for another. It fails only for want of memory.
pub(crate) fn widen<T>(items: &mut Vec<T>, room: usize) -> Mem<()>
    ensures { items.new.items ≡ items.old.items }
{
    if items.len() == items.capacity() {
        items.reserve_exact(room)?;
    }
    Ok(())
}

impl fmt::Display for NoMemory {
    ghost output = { λ _. Some (codes "out of memory") };

    fn fmt<W: fmt::Write>(&self, f: &mut fmt::Formatter<W>) -> fmt::Result {
        write!(f, "out of memory")
    }
}

impl Error for NoMemory {}

impl From<AllocError> for NoMemory {
    fn from(_e: AllocError) -> NoMemory {
        NoMemory
    }
}

impl<T: Drop> From<AllocFailed<T>> for NoMemory {
    fn from(_e: AllocFailed<T>) -> NoMemory {
        NoMemory
    }
}

impl<E> From<NoMemory> for Failure<E> {
    ghost from_gives = { λ _ e. e ≡ OutOfMemory };

    fn from(_e: NoMemory) -> Failure<E> {
        Failure::NoMemory
    }
}

impl<E> From<AllocError> for Failure<E> {
    ghost from_gives = { λ _ e. e ≡ OutOfMemory };

    fn from(_e: AllocError) -> Failure<E> {
        Failure::NoMemory
    }
}

impl<E, T: Drop> From<AllocFailed<T>> for Failure<E> {
    ghost from_gives = { λ _ e. e ≡ OutOfMemory };

    fn from(_e: AllocFailed<T>) -> Failure<E> {
        Failure::NoMemory
    }
}

impl Dup for NoMemory {
    fn dup(&self, _alloc: Global) -> Mem<NoMemory> {
        Ok(NoMemory)
    }
}

impl<E: Dup> Dup for Failure<E> {
    fn dup(&self, alloc: Global) -> Mem<Failure<E>> {
        match self {
            Failure::Refused(error) => {
                let copy = error.dup(alloc)?;
                Ok(Failure::Refused(copy))
            }
            Failure::NoMemory => Ok(Failure::NoMemory),
        }
    }
}
