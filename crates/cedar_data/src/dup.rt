// SPDX-License-Identifier: Apache-2.0
ghost use Rattle.std.specs.Prelude.{◌≡◌, IfOk};

use crate::memory::Mem;
use std::alloc::Global;

/// A copy that equals its source, places included. It stands in place of `Clone`.
pub trait Dup: Sized {
    fn dup(&self, alloc: Global) -> Mem<Self>
        ensures { IfOk result (λ copy. copy ≡ self.now) };
}

/// Copies of two values.
pub fn dup_two<A: Dup + Drop, B: Dup + Drop>(alloc: Global, a: &A, b: &B) -> Mem<(A, B)>
    ensures { IfOk result (λ copies. (copies.0 ≡ a.now) × (copies.1 ≡ b.now)) }
{
    let first = a.dup(alloc)?;
    let second = b.dup(alloc)?;
    Ok((first, second))
}

/// Copies of three values.
pub fn dup_three<A: Dup + Drop, B: Dup + Drop, C: Dup + Drop>(
    alloc: Global,
    a: &A,
    b: &B,
    c: &C,
) -> Mem<(A, B, C)>
    ensures { IfOk result (λ copies. (copies.0 ≡ a.now) × (copies.1 ≡ b.now) × (copies.2 ≡ c.now)) }
{
    let (first, second) = dup_two(alloc, a, b)?;
    let third = c.dup(alloc)?;
    Ok((first, second, third))
}

/// Copies of four values.
pub fn dup_four<A: Dup + Drop, B: Dup + Drop, C: Dup + Drop, D: Dup + Drop>(
    alloc: Global,
    a: &A,
    b: &B,
    c: &C,
    d: &D,
) -> Mem<(A, B, C, D)>
    ensures first { IfOk result (λ copies. (copies.0 ≡ a.now) × (copies.1 ≡ b.now)) }
    ensures second { IfOk result (λ copies. (copies.2 ≡ c.now) × (copies.3 ≡ d.now)) }
{
    let (first, second) = dup_two(alloc, a, b)?;
    let (third, fourth) = dup_two(alloc, c, d)?;
    Ok((first, second, third, fourth))
}

impl Dup for u32 {
    fn dup(&self, _alloc: Global) -> Mem<u32> {
        Ok(*self)
    }
}

impl<T: Dup> Dup for Option<T> {
    fn dup(&self, alloc: Global) -> Mem<Option<T>> {
        match self {
            None => Ok(None),
            Some(value) => {
                let copy = value.dup(alloc)?;
                Ok(Some(copy))
            }
        }
    }
}
