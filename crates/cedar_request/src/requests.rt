// SPDX-License-Identifier: Apache-2.0
ghost use Rattle.std.specs.Prelude.{◌≡◌, ℕ, List, Ok, IfOk};
ghost use Rattle.serde_json.specs.View.{view, items_view};
ghost use Rattle.cedar_text.specs.Failures.{IfRefused};
ghost use Rattle.cedar_conform.specs.of_checks.SchemaViews.{schema_in};
ghost use Rattle.cedar_conform.specs.Checks.{Tells, in_array};
ghost use Rattle.cedar_request.specs.Counts.{AreCounted};
ghost use Rattle.cedar_request.specs.RequestChecks.{Says, each_request, of_value, request_check, requests_check};
ghost use Rattle.cedar_request.specs.Requests.{AreRequests};

use crate::entering::enter;
use crate::environments::{Counted, counted_actions};
use crate::fault::RequestFault;
use crate::parts::read_parts;
use crate::refusing::of_value;
use cedar_conform::{Fault, JsonKind, under_place, wrong_kind};
use cedar_data::{Map, Out};
use cedar_names::EntityUID;
use cedar_resolved::{ValidatorSchema, environments_once};
use serde_json::Value;
use std::alloc::Global;

/// The number of the environment in which the value is a request, in 64 bits: `counted` has the actions of the schema.
#[tactic(auto, using(crate::proofs::Said::said), unfolding(crate::specs::RequestChecks::request_check))]
fn check_request(
    alloc: Global,
    schema: &ValidatorSchema,
    counted: &Map<EntityUID, Counted<'_>>,
    place: usize,
    value: &Value,
) -> Out<u64, RequestFault>
    requires { AreCounted schema.now counted.now }
    ensures { Says (λ n. n) result (request_check (schema_in schema.now) place (view value.now)) }
{
    let parts = of_value(under_place(alloc, place, read_parts(alloc, value)))?;
    enter(alloc, schema, counted, place, &parts)
}

/// The numbers of the environments in which the items are requests, in 64 bits.
#[tactic(auto, using(crate::proofs::Said::said, crate::proofs::RequestLoops::each_request_reads))]
fn check_items(
    alloc: Global,
    schema: &ValidatorSchema,
    counted: &Map<EntityUID, Counted<'_>>,
    items: &Vec<Value>,
) -> Out<Vec<u64>, RequestFault>
    requires { AreCounted schema.now counted.now }
    ensures { Says (λ numbers. numbers.items) result
        (each_request (schema_in schema.now) 0 (items_view items.now.items)) }
{
    let mut numbers = Vec::with_capacity(alloc, items.len())?;
    let mut place = 0usize;
    for item in items {
        let number = check_request(alloc, schema, counted, place, item)?;
        numbers.push(number)?;
        place += 1;
    }
    Ok(numbers)
}

/// The items of the array that the value is.
fn items_of<'a>(alloc: Global, value: &'a Value) -> Out<&'a Vec<Value>, Fault>
    ensures { Tells (λ items. items_view items.now.items) result (in_array Ok (view value.now)) }
{
    match value.as_array() {
        Some(items) => Ok(items),
        None => wrong_kind(alloc, value, JsonKind::Array),
    }
}

/// The numbers of the environments in which the requests are that the value lists, in 64 bits.
#[tactic(auto, using(crate::proofs::Said::said), unfolding(crate::specs::RequestChecks::requests_check))]
fn check_list(alloc: Global, schema: &ValidatorSchema, value: &Value) -> Out<Vec<u64>, RequestFault>
    ensures { Says (λ numbers. numbers.items) result
        (requests_check (schema_in schema.now) (view value.now)) }
{
    let items = of_value(items_of(alloc, value))?;
    let counted = counted_actions(alloc, schema)?;
    check_items(alloc, schema, &counted, items)
}

/// For a value in JSON that is an array of requests, the number of the request environment of each, counted from 0 in
/// the order of `ValidatorSchema::unlinked_request_envs`; the greatest `u64` stands for each greater number. A request
/// is an object with exactly the keys `principal`, `action` and `resource`, references as `read_ref` takes them, and
/// `context`, a value of the type of the action's contexts; the schema has to know the principal and the resource.
/// Refused with the first fault, request by request: the unknown keys, then `principal`, `action` and `resource`, each
/// missing or no reference, then that `context` is missing, then an unknown action, then the principal, of a type that
/// the action isn't for, or that the schema doesn't know, then the resource in the same way, then the context.
#[tactic(auto, using(crate::proofs::PassingRequests::passing_requests))]
pub fn check_requests(
    alloc: Global,
    schema: &ValidatorSchema,
    v: &Value,
) -> Out<Vec<u64>, RequestFault>
    ensures told { Says (λ numbers. numbers.items) result
        (requests_check (schema_in schema.now) (view v.now)) }
    ensures fits { IfOk result
        (λ numbers. AreRequests (schema_in schema.now) (view v.now) numbers.items) }
    ensures only { IfOk result (λ numbers. (ns : List ℕ)
        → AreRequests (schema_in schema.now) (view v.now) ns → ns ≡ numbers.items) }
    ensures unfit { IfRefused result (λ _. (ns : List ℕ)
        → AreRequests (schema_in schema.now) (view v.now) ns → ⊥) }
{
    environments_once(schema);
    check_list(alloc, schema, v)
}
