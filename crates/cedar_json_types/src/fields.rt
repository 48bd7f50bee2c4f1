// SPDX-License-Identifier: Apache-2.0
ghost use Rattle.std.specs.Prelude.{◌≡◌, Some, None, IfOk};
ghost use Rattle.cedar_text.specs.Failures.{IfRefused};
ghost use Rattle.serde_json.specs.View.{view};
ghost use Rattle.cedar_json_types.specs.Faults.{needs, allows, unless_null as null_fault};
ghost use Rattle.cedar_json_types.specs.Shapes.{At, MayHave, Nothing, Present, OrNull};

use crate::reading::{MayBeAbsent, ReadPart};
use crate::refusing::{missing, under};
use cedar_data::Out;
use cedar_json_fault::JsonDeserializationError;
use serde_json::Value;
use std::alloc::Global;

/// The member at the key, which has to be there.
pub fn needed<T: ReadPart + Drop>(
    alloc: Global,
    value: &Value,
    key: &str,
) -> Out<T, JsonDeserializationError>
    ensures shape { IfOk result (λ v. At key.now T.shapes (view value.now) v) }
    ensures clean { IfOk result (λ _. needs key.now T.fault (view value.now) ≡ None) }
    ensures refused { IfRefused result (λ e. needs key.now T.fault (view value.now) ≡ Some e) }
{
    let Some(member) = value.get(key) else {
        return missing(alloc, key);
    };
    under(alloc, key, T::from_json_value(alloc, member))
}

/// The member at the key, or what an absent one stands for.
pub fn unless_absent<T: MayBeAbsent + Drop>(
    alloc: Global,
    value: &Value,
    key: &str,
) -> Out<T, JsonDeserializationError>
    ensures shape { IfOk result (λ v. MayHave key.now T.absent T.shapes (view value.now) v) }
    ensures clean { IfOk result (λ _. allows key.now T.fault (view value.now) ≡ None) }
    ensures refused { IfRefused result (λ e. allows key.now T.fault (view value.now) ≡ Some e) }
{
    match value.get(key) {
        None => Ok(T::when_absent(alloc)),
        Some(member) => under(alloc, key, T::from_json_value(alloc, member)),
    }
}

/// What the value has the shape of, as one that is there.
fn present<T: ReadPart + Drop>(
    alloc: Global,
    value: &Value,
) -> Out<Option<T>, JsonDeserializationError>
    ensures shape { IfOk result (λ v. Present T.shapes (view value.now) v) }
    ensures clean { IfOk result (λ _. T.fault (view value.now) ≡ None) }
    ensures refused { IfRefused result (λ e. T.fault (view value.now) ≡ Some e) }
{
    let read = T::from_json_value(alloc, value)?;
    Ok(Some(read))
}

/// The member at the key, where it is there.
pub fn if_there<T: ReadPart + Drop>(
    alloc: Global,
    value: &Value,
    key: &str,
) -> Out<Option<T>, JsonDeserializationError>
    ensures shape { IfOk result
        (λ v. MayHave key.now Nothing (Present T.shapes) (view value.now) v) }
    ensures clean { IfOk result (λ _. allows key.now T.fault (view value.now) ≡ None) }
    ensures refused { IfRefused result (λ e. allows key.now T.fault (view value.now) ≡ Some e) }
{
    match value.get(key) {
        None => Ok(None),
        Some(member) => under(alloc, key, present(alloc, member)),
    }
}

/// What the value has the shape of, and nothing for `null`.
fn unless_null<T: ReadPart + Drop>(
    alloc: Global,
    value: &Value,
) -> Out<Option<T>, JsonDeserializationError>
    ensures shape { IfOk result (λ v. OrNull T.shapes (view value.now) v) }
    ensures clean { IfOk result (λ _. null_fault T.fault (view value.now) ≡ None) }
    ensures refused { IfRefused result (λ e. null_fault T.fault (view value.now) ≡ Some e) }
{
    match value {
        Value::Null => Ok(None),
        _ => {
            let read = T::from_json_value(alloc, value)?;
            Ok(Some(read))
        }
    }
}

/// The member at the key, where it is there and not `null`.
pub fn if_not_null<T: ReadPart + Drop>(
    alloc: Global,
    value: &Value,
    key: &str,
) -> Out<Option<T>, JsonDeserializationError>
    ensures shape { IfOk result
        (λ v. MayHave key.now Nothing (OrNull T.shapes) (view value.now) v) }
    ensures clean { IfOk result (λ _. allows key.now (null_fault T.fault) (view value.now) ≡ None) }
    ensures refused { IfRefused result (λ e. allows key.now (null_fault T.fault) (view value.now)
        ≡ Some e) }
{
    match value.get(key) {
        None => Ok(None),
        Some(member) => under(alloc, key, unless_null(alloc, member)),
    }
}
