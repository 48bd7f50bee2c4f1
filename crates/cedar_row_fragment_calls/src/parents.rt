// SPDX-License-Identifier: Apache-2.0
use cedar_data::{Failure, Mem, NoMemory, Out, Text};
use cedar_fragment::{ActionEntityUID, RawName};
use cedar_names::{InternalName, NameFault};
use std::alloc::Global;

/// `parent ID [NAMESPACE]`: the parent ID of an action, of the type that the input is, and of none where it is
/// empty: what is said of the type as a name without namespace, the parent as it is written, and the same within
/// the namespace.
pub fn parent(alloc: Global, words: &[&str], input: &str) -> Mem<String> {
    let id = words.first().copied().unwrap_or("");
    match parent_lines(alloc, id, words.get(1).copied(), input) {
        Ok(lines) => Ok(lines),
        Err(Failure::Refused(fault)) => Ok(format!(in alloc; "no name: {fault}\n")?),
        Err(Failure::NoMemory) => Err(NoMemory),
    }
}

fn parent_lines(
    alloc: Global,
    id: &str,
    namespace: Option<&str>,
    input: &str,
) -> Out<String, NameFault> {
    let id = Text::new(alloc, id)?;
    if input.is_empty() {
        return within(
            alloc,
            "no type",
            ActionEntityUID::default_type(id),
            namespace,
        );
    }
    match RawName::parse_unqualified_name(alloc, input) {
        Ok(ty) => within(
            alloc,
            "unqualified",
            ActionEntityUID::new(Some(ty), id),
            namespace,
        ),
        Err(Failure::Refused(fault)) => {
            let said = format!(in alloc; "not unqualified: {fault}")?;
            let ty = RawName::from_normalized_str(alloc, input)?;
            within(
                alloc,
                said.as_str(),
                ActionEntityUID::new(Some(ty), id),
                namespace,
            )
        }
        Err(Failure::NoMemory) => Err(Failure::NoMemory),
    }
}

/// What was said of the type, the parent, and the parent within the namespace.
fn within(
    alloc: Global,
    said: &str,
    parent: ActionEntityUID<RawName>,
    namespace: Option<&str>,
) -> Out<String, NameFault> {
    let mut lines = format!(in alloc; "{said}\n{parent}\n")?;
    let namespace = match namespace {
        Some(text) => Some(InternalName::from_normalized_str(alloc, text)?),
        None => None,
    };
    let full = parent.qualify_with(alloc, namespace.as_ref())?;
    let line = format!(in alloc; "{full}\n")?;
    lines.push_str(line.as_str())?;
    Ok(lines)
}
