// SPDX-License-Identifier: Apache-2.0
use cedar_data::Mem;
use cedar_generator::generate;
use std::alloc::Global;

/// The lines of the generated schema of the size that the input writes.
pub fn generated(alloc: Global, input: &str) -> Mem<String> {
    match input.parse::<u32>() {
        Ok(size) => generate(alloc, size),
        Err(_) => Ok(format!(in alloc; "no size\n")?),
    }
}
