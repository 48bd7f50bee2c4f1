// SPDX-License-Identifier: Apache-2.0
use crate::details::compat_fault_lines;
use cedar_compat_laws::{CompatFault, compatible_with_data};
use cedar_data::{Failure, Mem, NoMemory, Out};
use cedar_resolved::ValidatorSchema;
use cedar_row_schema_lines::{CedarSchemaError, error_told, schema_of};
use cedar_row_trees::line_of;
use std::alloc::Global;

/// What a text denotes, or why it denotes nothing.
type Made = Out<ValidatorSchema, CedarSchemaError>;

/// How much is told of a new schema that isn't compatible.
#[derive(Clone, Copy)]
enum Telling {
    /// What its fault says.
    Short,
    /// All that the calls of its fault answer.
    Whole,
}

/// `keeps-data`: whether each list of entities of the schema before the line `---` is one of the
/// schema behind it.
pub fn keeps_data(alloc: Global, input: &str) -> Mem<String> {
    compare_texts(alloc, Telling::Short, input)
}

/// `compat-fault`: the same, with what the calls of the fault answer, and whether a copy of it equals it.
pub fn compat_fault(alloc: Global, input: &str) -> Mem<String> {
    compare_texts(alloc, Telling::Whole, input)
}

fn compare_texts(alloc: Global, telling: Telling, input: &str) -> Mem<String> {
    let Some((old, new)) = input.split_once("\n---\n") else {
        return line_of(alloc, "no line `---`");
    };
    let old = schema_of(alloc, old);
    let told = from_old(alloc, telling, &old, new);
    drop(old);
    told
}

fn from_old(alloc: Global, telling: Telling, old: &Made, new: &str) -> Mem<String> {
    match old {
        Ok(old) => to_text(alloc, telling, old, new),
        Err(Failure::Refused(error)) => error_told(alloc, error),
        Err(Failure::NoMemory) => Err(NoMemory),
    }
}

fn to_text(alloc: Global, telling: Telling, old: &ValidatorSchema, new: &str) -> Mem<String> {
    let new = schema_of(alloc, new);
    let told = to_new(alloc, telling, old, &new);
    drop(new);
    told
}

fn to_new(alloc: Global, telling: Telling, old: &ValidatorSchema, new: &Made) -> Mem<String> {
    match new {
        Ok(new) => compared(alloc, telling, old, new),
        Err(Failure::Refused(error)) => error_told(alloc, error),
        Err(Failure::NoMemory) => Err(NoMemory),
    }
}

fn compared(
    alloc: Global,
    telling: Telling,
    old: &ValidatorSchema,
    new: &ValidatorSchema,
) -> Mem<String> {
    let answer = compatible_with_data(alloc, old, new);
    let told = answer_told(alloc, telling, &answer);
    drop(answer);
    told
}

fn answer_told(alloc: Global, telling: Telling, answer: &Out<(), CompatFault>) -> Mem<String> {
    match answer {
        Ok(()) => line_of(alloc, "compatible"),
        Err(Failure::Refused(fault)) => fault_told(alloc, telling, fault),
        Err(Failure::NoMemory) => Err(NoMemory),
    }
}

fn fault_told(alloc: Global, telling: Telling, fault: &CompatFault) -> Mem<String> {
    match telling {
        Telling::Short => Ok(format!(in alloc; "error: {fault}\n")?),
        Telling::Whole => compat_fault_lines(alloc, fault),
    }
}
