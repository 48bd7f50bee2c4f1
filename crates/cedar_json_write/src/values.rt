// SPDX-License-Identifier: Apache-2.0
ghost use Rattle.std.specs.Prelude.{◌≡◌, IfOk};
ghost use Rattle.serde_json.specs.Data.{array};
ghost use Rattle.serde_json.specs.View.{view};
ghost use Rattle.cedar_json_write.specs.Written.{list_items, value_json, values_json};

use crate::fields::{Members, put_value, text_value};
use crate::to_json::ToJson;
use cedar_data::Mem;
use cedar_types::{CedarValueJson, ValueList, ValueMap};
use serde_json::Value;
use std::alloc::Global;

/// The value of an attribute of an action, as it was read.
#[cycle(write)]
#[tactic(auto, using(crate::proofs::Parts::value_parts))]
fn write_value(alloc: Global, value: &CedarValueJson) -> Mem<Value>
    ensures { IfOk result (λ v. view v ≡ value_json value.now) }
{
    match value {
        CedarValueJson::Null => Ok(Value::Null),
        CedarValueJson::Bool(flag) => Ok(Value::from(*flag)),
        CedarValueJson::Long(long) => Ok(Value::from(*long)),
        CedarValueJson::String(text) => text_value(alloc, text.as_str()),
        CedarValueJson::Set(list) => write_list(alloc, list),
        CedarValueJson::Record(map)
        | CedarValueJson::ExprEscape(map)
        | CedarValueJson::EntityEscape(map)
        | CedarValueJson::ExtnEscape(map) => write_values(alloc, map),
    }
}

/// The array of the values.
#[cycle(write)]
#[tactic(auto, using(crate::proofs::Parts::value_parts))]
fn write_list(alloc: Global, list: &ValueList) -> Mem<Value>
    ensures { IfOk result (λ v. view v ≡ array (list_items list.now)) }
{
    let mut values = Vec::new(alloc);
    for value in list.iter() {
        let value = write_value(alloc, value)?;
        values.push(value)?;
    }
    Ok(Value::from(values))
}

/// The object of the values.
#[cycle(write)]
#[tactic(auto, using(crate::proofs::Parts::value_parts))]
fn write_values(alloc: Global, values: &ValueMap) -> Mem<Value>
    ensures { IfOk result (λ v. view v ≡ values_json values.now) }
{
    let mut members = Members::new(alloc);
    for (name, value) in values.iter() {
        let value = write_value(alloc, value)?;
        put_value(alloc, &mut members, name.as_str(), value)?;
    }
    Ok(Value::from(members))
}

impl ToJson for ValueMap {
    ghost written = { values_json };

    fn to_json_value(&self, alloc: Global) -> Mem<Value> {
        write_values(alloc, self)
    }
}
