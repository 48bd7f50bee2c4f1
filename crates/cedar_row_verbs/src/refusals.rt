// SPDX-License-Identifier: Apache-2.0
use cedar_data::{Failure, Mem, NoMemory, Out};
use cedar_text::NameFault;
use std::alloc::Global;
use std::fmt;

/// What is said of a text that has to be a name: what it is read as, or why it is refused.
pub fn told<T: fmt::Display + Drop>(alloc: Global, answer: Out<T, NameFault>) -> Mem<String> {
    match answer {
        Ok(value) => Ok(format!(in alloc; "{value}")?),
        Err(failure) => refusal(alloc, failure),
    }
}

/// Why a text that has to be a name is refused.
pub fn refusal(alloc: Global, failure: Failure<NameFault>) -> Mem<String> {
    match failure {
        Failure::Refused(fault) => fault_told(alloc, &fault),
        Failure::NoMemory => Err(NoMemory),
    }
}

/// The line of such a refusal.
pub fn refusal_line(alloc: Global, failure: Failure<NameFault>) -> Mem<String> {
    let refusal = refusal(alloc, failure)?;
    Ok(format!(in alloc; "{refusal}\n")?)
}

/// A fault, with its place where it has one.
fn fault_told(alloc: Global, fault: &NameFault) -> Mem<String> {
    match fault {
        NameFault::BadToken { at, token: _ } => Ok(format!(in alloc; "refused at {at}: {fault}")?),
        NameFault::Empty | NameFault::Reserved { word: _ } => {
            Ok(format!(in alloc; "refused: {fault}")?)
        }
    }
}
