// SPDX-License-Identifier: Apache-2.0
ghost use Rattle.std.specs.Prelude.{◌≡◌, ℕ, List, Some, None, IfOk};
ghost use Rattle.cedar_text.specs.Failures.{IfRefused};
ghost use Rattle.serde_json.specs.Data.{Data};
ghost use Rattle.serde_json.specs.View.{view};
ghost use Rattle.cedar_json_types.specs.Faults.{Fault};

use cedar_data::Out;
use cedar_json_fault::JsonDeserializationError;
use serde_json::Value;
use std::alloc::Global;

/// A part of a schema that a JSON value may have the shape of.
pub trait ReadPart: Sized {
    /// The value has the shape of this.
    ghost shapes: { Data → Self → Type 0 };

    /// The first fault of the value.
    ghost fault: { Data → Fault };

    /// What the value has the shape of, where it has no fault; refused with its first fault.
    fn from_json_value(alloc: Global, json: &Value) -> Out<Self, JsonDeserializationError>
        ensures shape { IfOk result (λ v. shapes (view json.now) v) }
        ensures clean { IfOk result (λ _. fault (view json.now) ≡ None) }
        ensures refused { IfRefused result (λ e. fault (view json.now) ≡ Some e) };
}

/// What an absent member of an object may stand for.
pub trait MayBeAbsent: ReadPart {
    /// An absent member stands for this.
    ghost absent: { Self → Type 0 };

    /// What an absent member stands for. It takes no memory.
    fn when_absent(alloc: Global) -> Self
        ensures { absent result };
}

/// What the key of a member of an object may say.
pub trait JsonKey: Sized {
    /// The key says this.
    ghost named: { List ℕ → Self → Type 0 };

    /// What is wrong with the key.
    ghost key_fault: { List ℕ → Fault };

    /// What the key says, where it has no fault; refused with its fault.
    fn from_key(alloc: Global, key: &str) -> Out<Self, JsonDeserializationError>
        ensures shape { IfOk result (λ k. named key.now k) }
        ensures clean { IfOk result (λ _. key_fault key.now ≡ None) }
        ensures refused { IfRefused result (λ e. key_fault key.now ≡ Some e) };
}
