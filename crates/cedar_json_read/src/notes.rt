// SPDX-License-Identifier: Apache-2.0
ghost use Rattle.std.specs.Prelude.{◌≡◌, None, Some, IfOk};
ghost use Rattle.cedar_text.specs.Failures.{IfRefused};
ghost use Rattle.serde_json.specs.View.{view};
ghost use Rattle.cedar_json_read.specs.Declarations.{Noted, notes_fault};

use cedar_data::Out;
use cedar_json_fault::JsonDeserializationError;
use cedar_json_types::unless_absent;
use cedar_names::Annotations;
use serde_json::Value;
use std::alloc::Global;

/// What was made of a declaration, with the annotations of its value. It is given up where these are refused.
pub(crate) fn with_notes<T: Drop>(
    alloc: Global,
    value: &Value,
    made: T,
) -> Out<(T, Annotations), JsonDeserializationError>
    ensures made { IfOk result (λ r. r.0 ≡ made) }
    ensures shape { IfOk result (λ r. Noted (view value.now) r.1) }
    ensures clean { IfOk result (λ _. notes_fault (view value.now) ≡ None) }
    ensures refused { IfRefused result (λ e. notes_fault (view value.now) ≡ Some e) }
{
    let annotations: Annotations = unless_absent(alloc, value, "annotations")?;
    Ok((made, annotations))
}
