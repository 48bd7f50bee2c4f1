// SPDX-License-Identifier: Apache-2.0
ghost use Rattle.std.specs.Prelude.{◌≡◌, IfOk, string_bytes};
ghost use Rattle.serde_json.specs.Written.{compact_text};
ghost use Rattle.cedar_json_write.specs.Written.{fragment_json};

use crate::to_json::ToJson;
use cedar_data::Mem;
use cedar_fragment::{Fragment, RawName};
use std::alloc::Global;

/// The text of the fragment in JSON, with no blanks. It fails only for want of memory.
#[tactic(auto, using(crate::proofs::PlainDeclarations::fragment_plain))]
pub fn fragment_text(alloc: Global, fragment: &Fragment<RawName>) -> Mem<String>
    ensures { IfOk result (λ text. string_bytes text ≡ compact_text (fragment_json fragment.now)) }
{
    let value = fragment.to_json_value(alloc)?;
    let text = value.to_string(alloc)?;
    Ok(text)
}
