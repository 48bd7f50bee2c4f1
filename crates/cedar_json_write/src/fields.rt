// SPDX-License-Identifier: Apache-2.0
ghost use Rattle.std.specs.Prelude.{◌≡◌, IfOk, OnOk, string_bytes};
ghost use Rattle.serde_json.specs.Data.{put, string};
ghost use Rattle.serde_json.specs.View.{view, members_view};
ghost use Rattle.cedar_json_write.specs.Written.{if_any, if_some, put_all};

use crate::to_json::ToJson;
use cedar_data::Mem;
use serde_json::{Map, Value};
use std::alloc::Global;

/// The members of an object, in the order of their keys.
pub(crate) type Members = Map<String, Value>;

/// The text as a value.
pub(crate) fn text_value(alloc: Global, text: &str) -> Mem<Value>
    ensures { IfOk result (λ v. view v ≡ string text.now) }
{
    let text = String::from_str(alloc, text)?;
    Ok(Value::from(text))
}

/// Puts the value at the key.
#[tactic(auto, using(crate::proofs::Building::inserts))]
pub(crate) fn put_at(members: &mut Members, key: String, value: Value) -> Mem<()>
    ensures { OnOk result (members_view members.new.entries
        ≡ put (string_bytes key) (view value) (members_view members.old.entries)) }
{
    members.insert(key, value)?;
    Ok(())
}

/// Puts the value at a copy of the key.
pub(crate) fn put_value(alloc: Global, members: &mut Members, key: &str, value: Value) -> Mem<()>
    ensures { OnOk result (members_view members.new.entries
        ≡ put key.now (view value) (members_view members.old.entries)) }
{
    let key = String::from_str(alloc, key)?;
    put_at(members, key, value)
}

/// Puts the text at the key.
pub(crate) fn put_text(alloc: Global, members: &mut Members, key: &str, text: &str) -> Mem<()>
    ensures { OnOk result (members_view members.new.entries
        ≡ put key.now (string text.now) (members_view members.old.entries)) }
{
    let value = text_value(alloc, text)?;
    put_value(alloc, members, key, value)
}

/// Puts what is written at the key.
pub(crate) fn put_json<T: ToJson>(
    alloc: Global,
    members: &mut Members,
    key: &str,
    item: &T,
) -> Mem<()>
    ensures { OnOk result (members_view members.new.entries
        ≡ put key.now (T.written item.now) (members_view members.old.entries)) }
{
    let value = item.to_json_value(alloc)?;
    put_value(alloc, members, key, value)
}

/// Puts what is written at the key, where there is something.
pub(crate) fn put_some<T: ToJson>(
    alloc: Global,
    members: &mut Members,
    key: &str,
    item: &Option<T>,
) -> Mem<()>
    ensures { OnOk result (members_view members.new.entries
        ≡ put_all (if_some key.now T.written item.now) (members_view members.old.entries)) }
{
    match item {
        Some(item) => put_json(alloc, members, key, item),
        None => Ok(()),
    }
}
