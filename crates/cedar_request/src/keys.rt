// SPDX-License-Identifier: Apache-2.0
ghost use Rattle.std.specs.Prelude.{◌≡◌};
ghost use Rattle.serde_json.specs.View.{view, members_view};
ghost use Rattle.cedar_text.specs.Words.{has_word};
ghost use Rattle.cedar_conform.specs.Checks.{Tells, each_member, key_check, keys_check, passed};
ghost use Rattle.cedar_request.specs.Requests.{request_keys};

use cedar_conform::{Fault, FaultKind, JsonKind, refuse, wrong_kind};
use cedar_data::{Out, Text};
use serde_json::{Map as Members, Value};
use std::alloc::Global;

/// Whether a request may have this key.
fn may_have(key: &str) -> bool
    ensures { result ≡ has_word request_keys key.now }
{
    key == "principal" || key == "action" || key == "resource" || key == "context"
}

/// Refuses a key that a request may not have.
fn check_key(alloc: Global, key: &str) -> Out<(), Fault>
    ensures { Tells passed result (key_check request_keys key.now) }
{
    if may_have(key) {
        return Ok(());
    }
    let field = Text::new(alloc, key)?;
    refuse(alloc, FaultKind::UnknownField { field })
}

/// Refuses members of which one has a key that a request may not have.
#[tactic(auto, using(cedar_conform::proofs::Members::each_member_passes))]
fn check_each_key(alloc: Global, members: &Members<String, Value>) -> Out<(), Fault>
    ensures { Tells passed result
        (each_member (λ k d. key_check request_keys k) (members_view members.now.entries)) }
{
    for (key, _) in members.iter() {
        check_key(alloc, key.as_str())?;
    }
    Ok(())
}

/// Refuses what is no object, and an object with a key that a request may not have.
#[tactic(auto, using(cedar_conform::proofs::ByKind::kinds_of_values))]
pub(crate) fn check_keys(alloc: Global, value: &Value) -> Out<(), Fault>
    ensures { Tells passed result (keys_check request_keys (view value.now)) }
{
    match value.as_object() {
        Some(members) => check_each_key(alloc, members),
        None => wrong_kind(alloc, value, JsonKind::Object),
    }
}
