// SPDX-License-Identifier: Apache-2.0
use crate::shapes::{Reading, reading_of};
use cedar_data::Mem;
use std::alloc::Global;

/// `to-json [SHAPE]`: the JSON that is written of what the input is, read as that shape.
pub fn to_json(alloc: Global, words: &[&str], input: &str) -> Mem<String> {
    match reading_of(alloc, words, input)? {
        Reading::Written(value) => {
            let mut line = value.to_string(alloc)?;
            line.push('\n')?;
            Ok(line)
        }
        Reading::Faulty(error) => Ok(format!(in alloc; "refused: {error}\n")?),
        Reading::Unread => Ok(String::from_str(alloc, "not read\n")?),
    }
}
