// SPDX-License-Identifier: Apache-2.0
ghost use Rattle.std.specs.Prelude.{◌≡◌, ◌≤◌, length};
ghost use Rattle.serde_json.specs.View.{view, items_view, members_view};
ghost use Rattle.cedar_json_counts.specs.Counts as counts;
ghost use Rattle.cedar_json_counts.specs.declared.counting.Within.TheVariants as within;
ghost use Rattle.cedar_json_counts.specs.Counts.{capped, members_in, members_in_items, members_in_members};

use serde_json::{Map, Value};

/// Where a byte of a text in JSON stands.
#[derive(Clone, Copy, Debug, PartialEq, Eq)]
pub enum Within {
    /// Outside string literals.
    Plain,
    /// In a string literal.
    Literal,
    /// In a string literal, behind a backslash.
    Escape,
}

/// What stands behind a string literal, from what stands behind the quote that opens it.
fn behind_literal(bytes: &[u8]) -> &[u8]
    ensures colons { counts.colons_from within.Plain result.now
        ≡ counts.colons_from within.Literal bytes.now }
    ensures shorter { length result.now ≤ length bytes.now }
{
    let mut rest = bytes;
    while let Some((byte, after)) = rest.split_first() {
        match *byte {
            b'"' => return after,
            b'\\' => rest = behind_escape(after),
            _ => rest = after,
        }
    }
    rest
}

/// What stands behind the first byte of an escape, from what stands behind its backslash.
fn behind_escape(bytes: &[u8]) -> &[u8]
    ensures colons { counts.colons_from within.Literal result.now
        ≡ counts.colons_from within.Escape bytes.now }
    ensures shorter { length result.now ≤ length bytes.now }
{
    match bytes.split_first() {
        Some((_, after)) => after,
        None => bytes,
    }
}

/// How many colons stand outside the string literals of the text; it stops at the greatest count.
pub fn count_colons(text: &str) -> u64
    ensures { result ≡ capped (counts.colons text.now) }
{
    let mut count = 0u64;
    let mut rest = text.as_bytes();
    while let Some((byte, after)) = rest.split_first() {
        match *byte {
            b'"' => rest = behind_literal(after),
            b':' => {
                count = count.saturating_add(1);
                rest = after;
            }
            _ => rest = after,
        }
    }
    count
}

/// How many members the value has, those of the values inside counted; it stops at the greatest count.
#[cycle(count)]
pub fn count_members(value: &Value) -> u64
    ensures { result ≡ capped (members_in (view value.now)) }
{
    match value {
        Value::Array(items) => count_in_items(items),
        Value::Object(members) => count_in_members(members),
        _ => 0,
    }
}

#[cycle(count)]
fn count_in_items(items: &Vec<Value>) -> u64
    ensures { result ≡ capped (members_in_items (items_view items.now.items)) }
{
    let mut count = 0u64;
    for item in items {
        count = count.saturating_add(count_members(item));
    }
    count
}

#[cycle(count)]
fn count_in_members(members: &Map<String, Value>) -> u64
    ensures { result ≡ capped (members_in_members (members_view members.now.entries)) }
{
    let mut count = 0u64;
    for (_, member) in members.iter() {
        count = count
            .saturating_add(1)
            .saturating_add(count_members(member));
    }
    count
}
