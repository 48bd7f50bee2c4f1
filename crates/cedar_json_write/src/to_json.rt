// SPDX-License-Identifier: Apache-2.0
ghost use Rattle.std.specs.Prelude.{◌≡◌, ℕ, List, IfOk, string_bytes};
ghost use Rattle.serde_json.specs.Data.{Data};
ghost use Rattle.serde_json.specs.View.{view};

use cedar_data::Mem;
use serde_json::Value;
use std::alloc::Global;

/// What is written in JSON.
pub trait ToJson {
    /// The value that is written.
    ghost written: { Self → Data };

    /// The value that is written. It fails only for want of memory.
    fn to_json_value(&self, alloc: Global) -> Mem<Value>
        ensures { IfOk result (λ v. view v ≡ written self.now) };
}

/// What is written as the key of a member.
pub(crate) trait ToKey {
    /// The key that is written.
    ghost text: { Self → List ℕ };

    /// The key that is written. It fails only for want of memory.
    fn to_key(&self, alloc: Global) -> Mem<String>
        ensures { IfOk result (λ s. string_bytes s ≡ text self.now) };
}
