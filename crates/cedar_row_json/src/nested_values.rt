// SPDX-License-Identifier: Apache-2.0
use crate::fault_lines::reading_told;
use crate::shapes::read_as;
use cedar_data::Mem;
use serde_json::{Map, Value, put};
use std::alloc::Global;

/// `nested N [action]`: the first fault of the type of N sets in one another around whole numbers;
/// or of an action with an attribute `v` of N arrays in one another. The values are built by calls,
/// since a text of JSON that nests so deep isn't read.
pub fn nested(alloc: Global, words: &[&str]) -> Mem<String> {
    let Some(count) = words.first().and_then(|word| word.parse::<usize>().ok()) else {
        return Ok(String::from_str(alloc, "no number\n")?);
    };
    match words.get(1) {
        None => value_told(alloc, "type", &sets(alloc, count)?),
        Some(shape) => value_told(alloc, shape, &with_arrays(alloc, count)?),
    }
}

/// The first fault of the value as that shape.
fn value_told(alloc: Global, shape: &str, value: &Value) -> Mem<String> {
    let reading = read_as(alloc, shape, value)?;
    reading_told(alloc, &reading)
}

/// The type of so many sets in one another around whole numbers.
fn sets(alloc: Global, count: usize) -> Mem<Value> {
    let mut ty = object_of(alloc, "type", Value::try_from_str(alloc, "Long")?)?;
    for _ in 0..count {
        ty = set_of(alloc, ty)?;
    }
    Ok(ty)
}

fn set_of(alloc: Global, element: Value) -> Mem<Value> {
    let mut members = Map::new(alloc);
    put(&mut members, alloc, "element", element)?;
    put(
        &mut members,
        alloc,
        "type",
        Value::try_from_str(alloc, "Set")?,
    )?;
    Ok(Value::Object(members))
}

/// The action with an attribute of so many arrays in one another around nothing.
fn with_arrays(alloc: Global, count: usize) -> Mem<Value> {
    let mut value = Value::Null;
    for _ in 0..count {
        value = array_of(alloc, value)?;
    }
    object_of(alloc, "attributes", object_of(alloc, "v", value)?)
}

fn array_of(alloc: Global, item: Value) -> Mem<Value> {
    let mut items = Vec::new(alloc);
    items.push(item)?;
    Ok(Value::Array(items))
}

fn object_of(alloc: Global, key: &str, member: Value) -> Mem<Value> {
    let mut members = Map::new(alloc);
    put(&mut members, alloc, key, member)?;
    Ok(Value::Object(members))
}
