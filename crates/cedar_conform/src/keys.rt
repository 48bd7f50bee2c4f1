// SPDX-License-Identifier: Apache-2.0
ghost use Rattle.std.specs.Prelude.{◌≡◌};
ghost use Rattle.serde_json.specs.View.{view, members_view};
ghost use Rattle.cedar_text.specs.Words.{has_word};
ghost use Rattle.cedar_conform.specs.Checks.{Tells, each_member, key_check, keys_check, passed};
ghost use Rattle.cedar_conform.specs.Keys.{keys_of};

use crate::refusing::{refuse, wrong_kind};
use cedar_conform_fault::{Fault, FaultKind};
use cedar_data::{Out, Text};
use cedar_json_fault::JsonKind;
use serde_json::{Map as Members, Value};
use std::alloc::Global;

/// The objects that have a fixed set of keys.
#[derive(Clone, Copy, Debug, PartialEq, Eq)]
pub(crate) enum Keyed {
    /// An entity.
    Entity,
    /// A reference to an entity.
    Reference,
}

impl Keyed {
    /// Whether such an object may have this key.
    fn may_have(self, key: &str) -> bool
        ensures { result ≡ has_word (keys_of self) key.now }
    {
        match self {
            Keyed::Entity => key == "uid" || key == "attrs" || key == "parents" || key == "tags",
            Keyed::Reference => key == "type" || key == "id",
        }
    }
}

/// Refuses a key that such an object may not have.
fn check_key(alloc: Global, key: &str, keyed: Keyed) -> Out<(), Fault>
    ensures { Tells passed result (key_check (keys_of keyed) key.now) }
{
    if keyed.may_have(key) {
        return Ok(());
    }
    let field = Text::new(alloc, key)?;
    refuse(alloc, FaultKind::UnknownField { field })
}

/// Refuses members of which one has a key that such an object may not have.
#[tactic(auto, using(crate::proofs::Members::each_member_passes))]
fn check_each_key(alloc: Global, members: &Members<String, Value>, keyed: Keyed) -> Out<(), Fault>
    ensures { Tells passed result (each_member (λ k d. key_check (keys_of keyed) k)
        (members_view members.now.entries)) }
{
    for (key, _) in members.iter() {
        check_key(alloc, key.as_str(), keyed)?;
    }
    Ok(())
}

/// Refuses what is no object, and an object with a key that such an object may not have.
#[tactic(auto, using(crate::proofs::ByKind::kinds_of_values))]
pub(crate) fn check_keys(alloc: Global, value: &Value, keyed: Keyed) -> Out<(), Fault>
    ensures { Tells passed result (keys_check (keys_of keyed) (view value.now)) }
{
    match value.as_object() {
        Some(members) => check_each_key(alloc, members, keyed),
        None => wrong_kind(alloc, value, JsonKind::Object),
    }
}
