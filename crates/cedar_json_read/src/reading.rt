// SPDX-License-Identifier: Apache-2.0
ghost use Rattle.std.specs.Prelude.{◌≡◌, Some, None, IfOk};
ghost use Rattle.cedar_text.specs.Failures.{IfRefused};
ghost use Rattle.serde_json.specs.Data.{Data};
ghost use Rattle.serde_json.specs.View.{view};
ghost use Rattle.cedar_json_types.specs.Faults.{Fault};

use cedar_data::Out;
use cedar_json_fault::JsonDeserializationError;
use serde_json::Value;
use std::alloc::Global;

/// A declaration that a JSON value may have the shape of.
pub trait ReadDeclaration: Sized {
    /// The value has the shape of this.
    ghost shapes: { Data → Self → Type 0 };

    /// The first fault of the value.
    ghost fault: { Data → Fault };

    /// What the value has the shape of, where it has no fault; refused with its first fault.
    fn from_json_value(alloc: Global, json: &Value) -> Out<Self, JsonDeserializationError>
        ensures shape { IfOk result (λ v. shapes (view json.now) v) }
        ensures clean { IfOk result (λ _. fault (view json.now) ≡ None) }
        ensures refused { IfRefused result (λ e. fault (view json.now) ≡ Some e) };
}
