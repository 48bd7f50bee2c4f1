// SPDX-License-Identifier: Apache-2.0
ghost use Rattle.std.specs.Prelude.{◌≡◌, IfOk, Ok, Err, decimal};
ghost use Rattle.cedar_text.specs.Failures.{IfRefused};
ghost use Rattle.serde_json.specs.View.{view};
ghost use Rattle.cedar_data.specs.declared.memory.Failure.TheVariants.{Refused};
ghost use Rattle.cedar_json_types.specs.Faults as faults;
ghost use Rattle.cedar_json_types.specs.Faults.{IsUnder};

use cedar_data::{Failure, Out, Text};
use cedar_json_fault::{JsonDeserializationError, JsonFault, JsonKind, JsonShape};
use serde_json::Value;
use std::alloc::Global;

/// The kind of a value.
pub fn kind_of(value: &Value) -> JsonKind
    ensures { result ≡ faults.kind (view value.now) }
{
    match value {
        Value::Null => JsonKind::Null,
        Value::Bool(_) => JsonKind::Boolean,
        Value::Number(_) => JsonKind::Number,
        Value::String(_) => JsonKind::String,
        Value::Array(_) => JsonKind::Array,
        Value::Object(_) => JsonKind::Object,
    }
}

/// Refuses the value itself. It takes no memory.
pub fn refuse<T>(alloc: Global, fault: JsonFault) -> Out<T, JsonDeserializationError>
    ensures { result ≡ Err (Refused (faults.here fault)) }
{
    Err(Failure::Refused(JsonDeserializationError::new(fault, Vec::new(alloc), None)))
}

/// Refuses the value for its kind. It takes no memory.
pub fn wrong_type<T>(
    alloc: Global,
    value: &Value,
    wanted: JsonKind,
) -> Out<T, JsonDeserializationError>
    ensures { result ≡ Err (Refused (faults.wrong_type (view value.now) wanted)) }
{
    let found = kind_of(value);
    refuse(alloc, JsonFault::WrongType { found, wanted })
}

/// Refuses an object that lacks the field.
pub fn missing<T>(alloc: Global, field: &str) -> Out<T, JsonDeserializationError>
    ensures ok { IfOk result (λ _. ⊥) }
    ensures refused { IfRefused result (λ e. e ≡ faults.missing field.now) }
{
    let field = Text::new(alloc, field)?;
    refuse(alloc, JsonFault::MissingField { field })
}

/// Refuses an object for a field.
pub fn unknown<T>(alloc: Global, field: &str, shape: JsonShape) -> Out<T, JsonDeserializationError>
    ensures ok { IfOk result (λ _. ⊥) }
    ensures refused { IfRefused result (λ e. e ≡ faults.unknown field.now shape) }
{
    let field = Text::new(alloc, field)?;
    refuse(alloc, JsonFault::UnknownField { field, shape })
}

/// The same answer, with the key before the path where it is a refusal.
pub fn under<T: Drop>(
    alloc: Global,
    key: &str,
    read: Out<T, JsonDeserializationError>,
) -> Out<T, JsonDeserializationError>
    ensures ok { IfOk result (λ v. read ≡ Ok v) }
    ensures refused { IfRefused result (IsUnder key.now read) }
{
    match read {
        Ok(value) => Ok(value),
        Err(Failure::NoMemory) => Err(Failure::NoMemory),
        Err(Failure::Refused(error)) => {
            let error = error.behind(alloc, key)?;
            Err(Failure::Refused(error))
        }
    }
}

/// The same answer, with the place before the path where it is a refusal.
pub fn under_place<T: Drop>(
    alloc: Global,
    place: usize,
    read: Out<T, JsonDeserializationError>,
) -> Out<T, JsonDeserializationError>
    ensures ok { IfOk result (λ v. read ≡ Ok v) }
    ensures refused { IfRefused result (IsUnder (decimal place) read) }
{
    match read {
        Ok(value) => Ok(value),
        Err(Failure::NoMemory) => Err(Failure::NoMemory),
        Err(Failure::Refused(error)) => {
            let digits = place.to_string(alloc)?;
            under(alloc, digits.as_str(), Err(Failure::Refused(error)))
        }
    }
}
