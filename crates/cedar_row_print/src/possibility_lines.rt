// SPDX-License-Identifier: Apache-2.0
use cedar_data::{Failure, Mem, NoMemory};
use cedar_names::InternalName;
use cedar_text::NameFault;
use cedar_written::{ConditionalName, RawName, ReferenceType};
use std::alloc::Global;

/// `possibilities KIND [NAMESPACE]`: the name that the input is, at a place of this kind (`common`, `entity` or `either`)
/// in the namespace: the name as it is written, its kind, and a line for each full name that it may stand for.
pub fn possibilities(alloc: Global, words: &[&str], input: &str) -> Mem<String> {
    let Some(kind) = words.first().and_then(|word| kind_named(word)) else {
        return Ok(String::from_str(alloc, "no such kind\n")?);
    };
    match RawName::from_normalized_str(alloc, input) {
        Ok(name) => within(alloc, kind, words.get(1).copied(), name),
        Err(failure) => refusal(alloc, failure),
    }
}

fn kind_named(word: &str) -> Option<ReferenceType> {
    match word {
        "common" => Some(ReferenceType::Common),
        "entity" => Some(ReferenceType::Entity),
        "either" => Some(ReferenceType::CommonOrEntity),
        _ => None,
    }
}

fn within(
    alloc: Global,
    kind: ReferenceType,
    namespace: Option<&str>,
    name: RawName,
) -> Mem<String> {
    match namespace.map(|text| InternalName::from_normalized_str(alloc, text)) {
        None => qualified(alloc, kind, None, name),
        Some(Ok(outer)) => qualified(alloc, kind, Some(&outer), name),
        Some(Err(failure)) => refusal(alloc, failure),
    }
}

fn qualified(
    alloc: Global,
    kind: ReferenceType,
    namespace: Option<&InternalName>,
    name: RawName,
) -> Mem<String> {
    let name = name.conditionally_qualify_with(alloc, namespace, kind)?;
    told(alloc, &name)
}

fn told(alloc: Global, name: &ConditionalName) -> Mem<String> {
    let kind = match name.reference_type() {
        ReferenceType::Common => "common",
        ReferenceType::Entity => "entity",
        ReferenceType::CommonOrEntity => "either",
    };
    let mut lines = format!(in alloc; "{name} {kind}\n")?;
    for possibility in name.possibilities() {
        let line = format!(in alloc; "{possibility}\n")?;
        lines.push_str(line.as_str())?;
    }
    Ok(lines)
}

fn refusal(alloc: Global, failure: Failure<NameFault>) -> Mem<String> {
    match failure {
        Failure::Refused(fault) => Ok(format!(in alloc; "no name: {fault}\n")?),
        Failure::NoMemory => Err(NoMemory),
    }
}
