// SPDX-License-Identifier: Apache-2.0
use cedar_conform::{Fault, read_ref};
use cedar_data::{Failure, Mem, NoMemory, Out};
use cedar_names::EntityUID;
use cedar_row_trees::line_of;
use serde_json::Value;
use std::alloc::Global;

/// The value that a text in JSON is; none where it is none.
pub(crate) fn value_of(alloc: Global, text: &str) -> Mem<Option<Value>> {
    match Value::from_str(alloc, text) {
        Ok(value) => Ok(Some(value)),
        Err(error) if error.is_memory() => Err(NoMemory),
        Err(_) => Ok(None),
    }
}

/// What is told of a value that was checked: a word where it passed, or else its fault.
pub(crate) fn outcome(alloc: Global, word: &str, checked: Out<(), Fault>) -> Mem<String> {
    let told = told(alloc, word, &checked);
    drop(checked);
    told
}

fn told(alloc: Global, word: &str, checked: &Out<(), Fault>) -> Mem<String> {
    match checked {
        Ok(()) => line_of(alloc, word),
        Err(Failure::Refused(fault)) => fault_line(alloc, fault),
        Err(Failure::NoMemory) => Err(NoMemory),
    }
}

fn fault_line(alloc: Global, fault: &Fault) -> Mem<String> {
    Ok(format!(in alloc; "error: {fault}\n")?)
}

/// `reference`: the entity to which the value refers that the input is, or its fault.
pub fn reference(alloc: Global, input: &str) -> Mem<String> {
    match value_of(alloc, input)? {
        Some(value) => reference_of(alloc, &value),
        None => line_of(alloc, "no JSON"),
    }
}

fn reference_of(alloc: Global, value: &Value) -> Mem<String> {
    let read = read_ref(alloc, value);
    let told = referred(alloc, &read);
    drop(read);
    told
}

fn referred(alloc: Global, read: &Out<EntityUID, Fault>) -> Mem<String> {
    match read {
        Ok(uid) => Ok(format!(in alloc; "{uid}\n")?),
        Err(Failure::Refused(fault)) => fault_line(alloc, fault),
        Err(Failure::NoMemory) => Err(NoMemory),
    }
}
