// SPDX-License-Identifier: Apache-2.0
ghost use Rattle.std.specs.Prelude.{◌≡◌, Some, None, IfOk};
ghost use Rattle.cedar_text.specs.Failures.{IfRefused};
ghost use Rattle.serde_json.specs.View.{view};
ghost use Rattle.cedar_json_types.specs.Faults.{allows};
ghost use Rattle.cedar_json_types.specs.Shapes.{MayHave, OrNull, Nothing};
ghost use Rattle.cedar_json_types.specs.Faults as faults;
ghost use Rattle.cedar_json_types.specs.Types.{part_fault};
ghost use Rattle.cedar_json_types.specs.declared.keyed.KeySet.TheVariants as set;
ghost use Rattle.cedar_json_read.specs.Declarations.{IsShape, ShapeAt};

use crate::reading::ReadDeclaration;
use cedar_data::Out;
use cedar_fragment::{AttributesOrContext, RawName};
use cedar_json_fault::JsonDeserializationError;
use cedar_json_types::{KeySet, read_outer_type, under};
use serde_json::Value;
use std::alloc::Global;

/// The shape or context that the value has the shape of.
fn read_shape(
    alloc: Global,
    value: &Value,
) -> Out<AttributesOrContext<RawName>, JsonDeserializationError>
    ensures shape { IfOk result (λ s. IsShape (view value.now) s) }
    ensures clean { IfOk result (λ _. part_fault 129 set.Type (view value.now) ≡ None) }
    ensures refused { IfRefused result (λ e. part_fault 129 set.Type (view value.now) ≡ Some e) }
{
    let ty = read_outer_type(alloc, value, KeySet::Type)?;
    Ok(AttributesOrContext(ty))
}

/// The shape or context at the key; an absent one stands for the closed record without attributes.
pub(crate) fn shape_at(
    alloc: Global,
    value: &Value,
    key: &str,
) -> Out<AttributesOrContext<RawName>, JsonDeserializationError>
    ensures shape { IfOk result (λ s. ShapeAt key.now (view value.now) s) }
    ensures clean { IfOk result (λ _. allows key.now (part_fault 129 set.Type) (view value.now)
        ≡ None) }
    ensures refused { IfRefused result
        (λ e. allows key.now (part_fault 129 set.Type) (view value.now) ≡ Some e) }
{
    match value.get(key) {
        None => Ok(AttributesOrContext::empty(alloc)),
        Some(member) => under(alloc, key, read_shape(alloc, member)),
    }
}

/// What the value has the shape of, and nothing for `null`.
fn unless_null<T: ReadDeclaration + Drop>(
    alloc: Global,
    value: &Value,
) -> Out<Option<T>, JsonDeserializationError>
    ensures shape { IfOk result (λ v. OrNull T.shapes (view value.now) v) }
    ensures clean { IfOk result (λ _. faults.unless_null T.fault (view value.now) ≡ None) }
    ensures refused { IfRefused result (λ e. faults.unless_null T.fault (view value.now) ≡ Some e) }
{
    match value {
        Value::Null => Ok(None),
        _ => {
            let read = T::from_json_value(alloc, value)?;
            Ok(Some(read))
        }
    }
}

/// The member at the key, where it is there and not `null`.
pub(crate) fn if_not_null<T: ReadDeclaration + Drop>(
    alloc: Global,
    value: &Value,
    key: &str,
) -> Out<Option<T>, JsonDeserializationError>
    ensures shape { IfOk result
        (λ v. MayHave key.now Nothing (OrNull T.shapes) (view value.now) v) }
    ensures clean { IfOk result (λ _. allows key.now (faults.unless_null T.fault) (view value.now)
        ≡ None) }
    ensures refused { IfRefused result
        (λ e. allows key.now (faults.unless_null T.fault) (view value.now) ≡ Some e) }
{
    match value.get(key) {
        None => Ok(None),
        Some(member) => under(alloc, key, unless_null(alloc, member)),
    }
}
