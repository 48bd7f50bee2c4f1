// SPDX-License-Identifier: Apache-2.0
use crate::declarations::add_definition;
use crate::writing::Writing;
use cedar_data::Mem;
use cedar_fragment::{Fragment, RawName};

/// Adds a fragment: each namespace, and in it what it declares, and a last line.
pub fn add_fragment(writing: &mut Writing, fragment: &Fragment<RawName>) -> Mem<()> {
    for (name, definition) in fragment.0.iter() {
        match name {
            None => writing.add("no namespace\n")?,
            Some(name) => {
                let line = format!(in writing.alloc; "namespace {name}\n")?;
                writing.add(line.as_str())?;
            }
        }
        add_definition(writing, definition)?;
    }
    writing.add("end of fragment\n")
}
