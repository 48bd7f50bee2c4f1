// SPDX-License-Identifier: Apache-2.0
use crate::faults::RowFault;

/// The number that decimal digits stand for, or the fault of what is none.
pub fn decimal(digits: &str) -> Result<u64, RowFault> {
    if !digits.bytes().all(|digit| digit.is_ascii_digit()) {
        return Err(RowFault::BadNumber);
    }
    digits.parse::<u64>().map_err(|_| RowFault::BadNumber)
}

/// The number that hexadecimal digits of an escape stand for, or the fault of what is none.
pub fn hexadecimal(digits: &str) -> Result<u32, RowFault> {
    if !digits.bytes().all(|digit| digit.is_ascii_hexdigit()) {
        return Err(RowFault::BadEscape);
    }
    u32::from_str_radix(digits, 16).map_err(|_| RowFault::BadEscape)
}
