// SPDX-License-Identifier: Apache-2.0
use crate::lists::ListTold;
use cedar_data::{Failure, Mem, NoMemory, Out, Text};
use cedar_names::{Extensions, ExtensionsFault};
use cedar_text::NameFault;
use std::alloc::Global;

/// `extensions WHICH NAME..`: the extension types, where WHICH is `all`, `none` or `given`, which are the lines of the
/// input; and of each name whether it is one of them.
pub fn extensions(alloc: Global, words: &[&str], input: &str) -> Mem<String> {
    let Some((which, names)) = words.split_first() else {
        return Ok(format!(in alloc; "which?\n")?);
    };
    match which_of(alloc, which, input) {
        Ok(extensions) => extensions_told(alloc, &extensions, names),
        Err(Failure::Refused(fault)) => fault_told(alloc, &fault),
        Err(Failure::NoMemory) => Err(NoMemory),
    }
}

fn which_of(alloc: Global, which: &str, input: &str) -> Out<Extensions, ExtensionsFault> {
    match which {
        "all" => Ok(Extensions::all_available(alloc)?),
        "none" => Ok(Extensions::none(alloc)),
        _ => given(alloc, input),
    }
}

fn given(alloc: Global, input: &str) -> Out<Extensions, ExtensionsFault> {
    let mut names = Vec::new(alloc);
    for line in input.lines() {
        names.push(Text::new(alloc, line)?)?;
    }
    Extensions::new(alloc, names.as_slice())
}

fn extensions_told(alloc: Global, extensions: &Extensions, names: &[&str]) -> Mem<String> {
    let mut lines = all_told(alloc, extensions)?;
    lines.push('\n')?;
    for name in names {
        let verb = if extensions.contains(name) {
            "has"
        } else {
            "lacks"
        };
        let line = format!(in alloc; "{verb} {name}\n")?;
        lines.push_str(line.as_str())?;
    }
    Ok(lines)
}

fn all_told(alloc: Global, extensions: &Extensions) -> Mem<String> {
    let mut told = ListTold::new(alloc);
    for id in extensions.ext_types() {
        told.add(alloc, id)?;
    }
    told.whole(alloc)
}

fn fault_told(alloc: Global, fault: &ExtensionsFault) -> Mem<String> {
    match fault {
        ExtensionsFault::BadName {
            index,
            fault: NameFault::BadToken { at, token: _ },
        } => Ok(format!(in alloc; "name {index} refused at {at}: {fault}\n")?),
        ExtensionsFault::BadName { index, fault: _ } => {
            Ok(format!(in alloc; "name {index} refused: {fault}\n")?)
        }
        ExtensionsFault::RepeatedName { name: _ } | ExtensionsFault::PrimitiveName { name: _ } => {
            Ok(format!(in alloc; "refused: {fault}\n")?)
        }
    }
}
