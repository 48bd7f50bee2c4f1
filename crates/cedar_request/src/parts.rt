// SPDX-License-Identifier: Apache-2.0
ghost use Rattle.std.specs.Prelude.{◌≡◌, Ok};
ghost use Rattle.serde_json.specs.View.{view};
ghost use Rattle.cedar_schema_error.specs.FullNames.{uid_in};
ghost use Rattle.cedar_conform.specs.Checks.{Tells, needs};
ghost use Rattle.cedar_conform.specs.ValueChecks.{reference_check};
ghost use Rattle.cedar_request.specs.PartViews.{IsBeside, parts_in};
ghost use Rattle.cedar_request.specs.RequestChecks.{parts_check};

use crate::keys::check_keys;
use cedar_conform::{Fault, missing, read_ref, under};
use cedar_data::Out;
use cedar_names::EntityUID;
use serde_json::Value;
use std::alloc::Global;

/// What a request names.
#[derive(Drop)]
pub(crate) struct Parts<'a> {
    /// Who asks.
    pub(crate) principal: EntityUID,
    /// What for.
    pub(crate) action: EntityUID,
    /// On what.
    pub(crate) resource: EntityUID,
    /// What else is known.
    pub(crate) context: &'a Value,
}

/// The entity to which the member at the key refers.
fn reference_at(alloc: Global, value: &Value, key: &str) -> Out<EntityUID, Fault>
    ensures { Tells uid_in result (needs key.now reference_check (view value.now)) }
{
    match value.get(key) {
        Some(member) => under(alloc, key, read_ref(alloc, member)),
        None => missing(alloc, key),
    }
}

/// The member at the key.
fn member_at<'a>(alloc: Global, value: &'a Value, key: &str) -> Out<&'a Value, Fault>
    ensures { Tells (λ member. view member.now) result (needs key.now Ok (view value.now)) }
{
    match value.get(key) {
        Some(member) => Ok(member),
        None => missing(alloc, key),
    }
}

/// A value beside what is read behind it, which it is given up with where that is refused.
fn beside<T: Drop, U: Drop>(first: T, read: Out<U, Fault>) -> Out<(T, U), Fault>
    ensures { IsBeside first read result }
{
    match read {
        Ok(second) => Ok((first, second)),
        Err(failure) => Err(failure),
    }
}

/// What the value names, if it is an object with the keys of a request and with references where they have to be.
#[tactic(auto, using(cedar_conform::proofs::Told::told, crate::proofs::Beside::besides), unfolding(crate::specs::RequestChecks::parts_check))]
pub(crate) fn read_parts<'a>(alloc: Global, value: &'a Value) -> Out<Parts<'a>, Fault>
    ensures { Tells parts_in result (parts_check (view value.now)) }
{
    check_keys(alloc, value)?;
    let principal = reference_at(alloc, value, "principal")?;
    let pair = beside(principal, reference_at(alloc, value, "action"))?;
    let references = beside(pair, reference_at(alloc, value, "resource"))?;
    let parts = beside(references, member_at(alloc, value, "context"))?;
    let (((principal, action), resource), context) = parts;
    Ok(Parts {
        principal,
        action,
        resource,
        context,
    })
}
