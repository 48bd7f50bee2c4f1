// SPDX-License-Identifier: Apache-2.0
use cedar_data::{Dup, Failure, Mem, NoMemory};
use cedar_row_trees::{line_of, refusal_line};
use cedar_syntax::{Schema, parse_schema};
use std::alloc::Global;
use std::fmt::Debug;

/// What is said of a copy of the schema that the input is, or of the errors with which it is refused.
pub fn copies(alloc: Global, input: &str) -> Mem<String> {
    match parse_schema(alloc, input) {
        Ok(schema) => copy_line(alloc, "schema", &schema),
        Err(Failure::Refused(errors)) => copy_line(alloc, "errors", &errors),
        Err(Failure::NoMemory) => Err(NoMemory),
    }
}

/// What is said of a copy of a value, as a line: whether it equals its source, and is printed alike, which tells the
/// places too.
pub fn copy_line<T: Dup + Debug + PartialEq + Drop>(
    alloc: Global,
    what: &str,
    value: &T,
) -> Mem<String> {
    let copy = value.dup(alloc)?;
    let equality = if copy == *value { "equal" } else { "not equal" };
    line_on_copy(alloc, what, equality, printing_of(alloc, &copy, value))
}

fn line_on_copy(
    alloc: Global,
    what: &str,
    equality: &str,
    printing: Mem<&'static str>,
) -> Mem<String> {
    let printing = printing?;
    Ok(format!(in alloc; "{what}: a copy is {equality}, {printing}\n")?)
}

/// How a copy of a value is printed, places included.
pub fn printing<T: Dup + Debug + Drop>(alloc: Global, value: &T) -> Mem<&'static str> {
    let copy = value.dup(alloc)?;
    printing_of(alloc, &copy, value)
}

fn printing_of<T: Debug>(alloc: Global, copy: &T, source: &T) -> Mem<&'static str> {
    let wanted = format!(in alloc; "{source:?}")?;
    let printed = format!(in alloc; "{copy:?}")?;
    if printed.as_str() == wanted.as_str() {
        Ok("printed alike")
    } else {
        Ok("printed otherwise")
    }
}

/// Whether the schemas on the two lines of the input are equal; or why one of them is none.
pub fn compare(alloc: Global, input: &str) -> Mem<String> {
    let (left, right) = input.split_once('\n').unwrap_or((input, ""));
    match parse_schema(alloc, left) {
        Ok(left) => compare_with(alloc, &left, right),
        Err(failure) => refusal_line(alloc, failure),
    }
}

fn compare_with(alloc: Global, left: &Schema, right: &str) -> Mem<String> {
    match parse_schema(alloc, right) {
        Ok(right) => line_of(alloc, if right == *left { "equal" } else { "not equal" }),
        Err(failure) => refusal_line(alloc, failure),
    }
}
