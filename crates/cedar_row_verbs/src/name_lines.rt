// SPDX-License-Identifier: Apache-2.0
use crate::lists::two_lines;
use crate::name_kinds::{Kind, internal_told};
use crate::refusals::{refusal, refusal_line};
use cedar_data::Mem;
use cedar_names::{InternalName, Name};
use std::alloc::Global;
use std::cmp::Ordering;

/// `name KIND..`: a line for each kind, with what the input is read as, or why it is refused.
pub fn name(alloc: Global, words: &[&str], input: &str) -> Mem<String> {
    let mut lines = String::new(alloc);
    for word in words {
        let line = kind_line(alloc, word, input)?;
        lines.push_str(line.as_str())?;
    }
    Ok(lines)
}

fn kind_line(alloc: Global, word: &str, input: &str) -> Mem<String> {
    let Some(kind) = Kind::named(word) else {
        return Ok(format!(in alloc; "no kind `{word}`\n")?);
    };
    let told = kind.told(alloc, input)?;
    Ok(format!(in alloc; "{word} {told}\n")?)
}

/// `qualify [NAMESPACE]`: the name that the input is, within the namespace, which is given as a name that may be
/// reserved and then as one that isn't.
pub fn qualify(alloc: Global, words: &[&str], input: &str) -> Mem<String> {
    let namespace = words.first().copied();
    let internal = qualified(alloc, namespace, input)?;
    let named = qualified_by_name(alloc, namespace, input)?;
    Ok(format!(in alloc; "internal {internal}\nname {named}\n")?)
}

fn qualified(alloc: Global, namespace: Option<&str>, input: &str) -> Mem<String> {
    let name = match InternalName::from_normalized_str(alloc, input) {
        Ok(name) => name,
        Err(failure) => return refusal(alloc, failure),
    };
    match namespace.map(|text| InternalName::from_normalized_str(alloc, text)) {
        None => within(alloc, name, None),
        Some(Ok(outer)) => within(alloc, name, Some(&outer)),
        Some(Err(failure)) => refusal(alloc, failure),
    }
}

fn within(alloc: Global, name: InternalName, outer: Option<&InternalName>) -> Mem<String> {
    let whole = name.qualify_with(alloc, outer)?;
    internal_told(alloc, &whole)
}

fn qualified_by_name(alloc: Global, namespace: Option<&str>, input: &str) -> Mem<String> {
    let name = match InternalName::from_normalized_str(alloc, input) {
        Ok(name) => name,
        Err(failure) => return refusal(alloc, failure),
    };
    match namespace.map(|text| Name::from_normalized_str(alloc, text)) {
        None => within_name(alloc, name, None),
        Some(Ok(outer)) => within_name(alloc, name, Some(&outer)),
        Some(Err(failure)) => refusal(alloc, failure),
    }
}

fn within_name(alloc: Global, name: InternalName, outer: Option<&Name>) -> Mem<String> {
    let whole = name.qualify_with_name(alloc, outer)?;
    internal_told(alloc, &whole)
}

/// `order`: how the names on two lines are ordered, and whether they are equal.
pub fn order(alloc: Global, _words: &[&str], input: &str) -> Mem<String> {
    let (left, right) = two_lines(input);
    match InternalName::from_normalized_str(alloc, left) {
        Ok(left) => order_with(alloc, &left, right),
        Err(failure) => refusal_line(alloc, failure),
    }
}

fn order_with(alloc: Global, left: &InternalName, right: &str) -> Mem<String> {
    match InternalName::from_normalized_str(alloc, right) {
        Ok(right) => order_told(alloc, left, &right),
        Err(failure) => refusal_line(alloc, failure),
    }
}

fn order_told(alloc: Global, left: &InternalName, right: &InternalName) -> Mem<String> {
    let order = match left.cmp(right) {
        Ordering::Less => "less",
        Ordering::Equal => "the same",
        Ordering::Greater => "greater",
    };
    let equality = if left == right { "equal" } else { "not equal" };
    Ok(format!(in alloc; "{order}, {equality}\n")?)
}
