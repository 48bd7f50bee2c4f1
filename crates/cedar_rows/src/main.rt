// SPDX-License-Identifier: Apache-2.0
//! Runs the rows of the files of a folder, and prints each malformed line, each row whose answer differs from what
//! stands beside it, and then how many rows each file has.
#![tactic(auto)]

mod files;
mod verbs;

use anyhow::Result;
use std::env;

/// Runs the files that the words of the process name, or else all of the folder.
fn main(rt: HostRuntime) -> Result<()> {
    let mut words = env::args(&rt)?;
    words.next();
    let mut names: Vec<String> = words.collect(rt.alloc())?;
    if names.is_empty() {
        names = files::all(&rt)?;
    }
    for name in names.iter() {
        files::run(&rt, name.as_str())?;
    }
    Ok(())
}
