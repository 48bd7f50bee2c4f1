// SPDX-License-Identifier: Apache-2.0
ghost use Rattle.std.specs.Prelude.{◌≡◌, ◌++◌, IfOk};
ghost use Rattle.cedar_text.specs.Words.{has_word};

use cedar_data::{Dup, Items, Mem, Text};
use std::alloc::Global;

/// Whether the text is one of the keys.
pub(crate) fn is_one(keys: &[Text], text: &str) -> bool
    ensures { result ≡ has_word keys.now text.now }
{
    keys.iter().any(|key| text == key.as_str())
}

/// Whether the text is one of these keys, or of those.
pub(crate) fn is_either(these: &[Text], those: &[Text], text: &str) -> bool
    ensures { result ≡ has_word (these.now ++ those.now) text.now }
{
    is_one(these, text) || is_one(those, text)
}

/// Copies of the keys.
pub(crate) fn copied(alloc: Global, keys: &[Text]) -> Mem<Items<Text>>
    ensures { IfOk result (λ copies. copies ≡ keys.now) }
{
    let mut copies = Items::with_room(alloc, keys.len())?;
    for key in keys {
        let copy = key.dup(alloc)?;
        copies.push(copy)?;
    }
    Ok(copies)
}
