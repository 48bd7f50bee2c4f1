// SPDX-License-Identifier: Apache-2.0
use cedar_compat_laws::CompatFault;
use cedar_conform::Fault;
use cedar_data::{Dup, Failure, Mem, NoMemory, Out};
use cedar_request::RequestFault;
use cedar_row_trees::{Lines, line_of};
use std::alloc::Global;
use std::fmt::Display;

/// Adds the lines of what is said of an error, and of whether a copy of it equals it.
fn add_copied<T: Display + PartialEq + Dup + Drop>(lines: &mut Lines, error: &T) -> Mem<()> {
    let line = format!(in lines.alloc; "error: {error}")?;
    lines.add(line.as_str())?;
    let copy = error.dup(lines.alloc)?;
    let is_same = copy == *error;
    drop(copy);
    lines.add(if is_same { "the same" } else { "another" })
}

/// What the calls of the fault of entities answer.
pub(crate) fn fault_told(alloc: Global, answer: Out<(), Fault>) -> Mem<String> {
    let told = fault_lines(alloc, &answer);
    drop(answer);
    told
}

fn fault_lines(alloc: Global, answer: &Out<(), Fault>) -> Mem<String> {
    match answer {
        Ok(()) => line_of(alloc, "conforms"),
        Err(Failure::Refused(fault)) => {
            let mut lines = Lines::new(alloc);
            add_copied(&mut lines, fault)?;
            lines.add_help(fault.help(alloc)?)?;
            lines.add_all_places(fault.spans(alloc)?)?;
            Ok(lines.into_text())
        }
        Err(Failure::NoMemory) => Err(NoMemory),
    }
}

/// The same of the fault of requests.
pub(crate) fn request_fault_told(
    alloc: Global,
    answer: Out<Vec<u64>, RequestFault>,
) -> Mem<String> {
    let told = request_fault_lines(alloc, &answer);
    drop(answer);
    told
}

fn request_fault_lines(alloc: Global, answer: &Out<Vec<u64>, RequestFault>) -> Mem<String> {
    match answer {
        Ok(_) => line_of(alloc, "requests"),
        Err(Failure::Refused(fault)) => {
            let mut lines = Lines::new(alloc);
            add_copied(&mut lines, fault)?;
            lines.add_help(fault.help(alloc)?)?;
            lines.add_all_places(fault.spans(alloc)?)?;
            Ok(lines.into_text())
        }
        Err(Failure::NoMemory) => Err(NoMemory),
    }
}

/// The same of the fault of a new schema.
pub(crate) fn compat_fault_lines(alloc: Global, fault: &CompatFault) -> Mem<String> {
    let mut lines = Lines::new(alloc);
    add_copied(&mut lines, fault)?;
    lines.add_help(fault.help(alloc)?)?;
    lines.add_all_places(fault.spans(alloc)?)?;
    Ok(lines.into_text())
}
