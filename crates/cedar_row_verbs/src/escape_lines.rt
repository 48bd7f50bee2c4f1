// SPDX-License-Identifier: Apache-2.0
use cedar_data::{Failure, Mem, NoMemory};
use std::alloc::Global;

/// `escape`: the input, escaped.
pub fn escape(alloc: Global, _words: &[&str], input: &str) -> Mem<String> {
    let escaped = cedar_text::escape(alloc, input)?;
    Ok(format!(in alloc; "{escaped}\n")?)
}

/// `unescape`: the text that the input stands for, or where its first bad escape is.
pub fn unescape(alloc: Global, _words: &[&str], input: &str) -> Mem<String> {
    match cedar_text::unescape(alloc, input) {
        Ok(text) => Ok(format!(in alloc; "text {text}\n")?),
        Err(Failure::Refused(bad)) => Ok(format!(in alloc; "bad escape at {}\n", bad.at)?),
        Err(Failure::NoMemory) => Err(NoMemory),
    }
}
