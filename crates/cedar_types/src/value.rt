// SPDX-License-Identifier: Apache-2.0
ghost use Rattle.std.specs.Prelude.{◌≡◌, [], ◌∷◌, ◌++◌, ℕ, List, cond, Some, length, IfOk, OnOk, OnErr};
ghost use Rattle.std.specs.BTreeMap.{insert_entry};
ghost use Rattle.std.specs.Cmp.Lexicographic.{slice_cmp};
ghost use Rattle.std.specs.Option.{option_copied};
ghost use Rattle.std.specs.Ordering.{nat_cmp};
ghost use Rattle.std.specs.Slice.Iter.{iter_rest};
ghost use Rattle.cedar_closure.specs.of_data.Maps.{get_text, is_text, IsSortedMap};
ghost use Rattle.cedar_types.specs.Values.{members, list_values};

use cedar_closure::{Dup, Items, Map, MapIter, Mem, Text};
use std::alloc::Global;
use std::slice;

/// A value of an attribute of an action, as JSON writes it.
#[cycle(value)]
#[derive(Debug, Drop, PartialEq, Eq)]
pub enum CedarValueJson {
    /// An object with the key `__expr`, with all its members.
    ExprEscape(ValueMap),
    /// An object with the key `__entity`, with all its members.
    EntityEscape(ValueMap),
    /// An object with the key `__extn`, with all its members.
    ExtnEscape(ValueMap),
    /// True or false.
    Bool(bool),
    /// A whole number.
    Long(i64),
    /// A text.
    String(Text),
    /// An array.
    Set(ValueList),
    /// Any other object.
    Record(ValueMap),
    /// No value.
    Null,
}

/// Values by name, in the order of the names.
#[cycle(value)]
#[derive(Debug, Drop, PartialEq, Eq)]
pub struct ValueMap {
    map: Map<Text, CedarValueJson>,
}

/// Values in a row.
#[cycle(value)]
#[derive(Debug, Drop, PartialEq, Eq)]
pub struct ValueList {
    items: Items<CedarValueJson>,
}

/// Values by name, in the order of the names.
pub type ValueMapIter<'a> = MapIter<'a, Text, CedarValueJson>;

/// Values in a row.
pub type ValueListIter<'a> = slice::Iter<'a, CedarValueJson>;

impl ValueMap {
    /// No values.
    pub fn new(alloc: Global) -> ValueMap
        ensures { members result ≡ [] }
    {
        ValueMap {
            map: Map::new(alloc),
        }
    }

    /// Puts the value at the name, in place of one that was there. It fails only for want of memory, and then changes
    /// nothing.
    pub fn insert(&mut self, key: Text, v: CedarValueJson) -> Mem<()>
        ensures ok { OnOk result (members self.new
            ≡ insert_entry (slice_cmp nat_cmp) (members self.old) key v) }
        ensures puts { OnOk result ((name : List ℕ) → get_text (members self.new) name
            ≡ cond (is_text key name) (Some v) (get_text (members self.old) name)) }
        ensures err { OnErr result (self.new ≡ self.old) }
    {
        self.map.put(key, v)
    }

    /// The value at the name with these bytes, if there is one.
    pub fn get(&self, key: &str) -> Option<&CedarValueJson>
        ensures { option_copied result ≡ get_text (members self.now) key.now }
    {
        self.map.get_text(key)
    }

    /// The values with their names, in the order of the names.
    pub fn iter(&self) -> ValueMapIter<'_>
        ensures rest { result ≡ members self.now }
        ensures ordered { IsSortedMap (slice_cmp nat_cmp) (members self.now) }
    {
        self.map.iter()
    }

    /// How many values there are.
    pub fn len(&self) -> usize
        ensures { result ≡ length (members self.now) }
    {
        self.map.len()
    }
}

impl ValueList {
    /// No values.
    pub fn new(alloc: Global) -> ValueList
        ensures { list_values result ≡ [] }
    {
        ValueList {
            items: Items::new(alloc),
        }
    }

    /// Puts a value after the last. It fails only for want of memory, and then changes nothing.
    pub fn push(&mut self, v: CedarValueJson) -> Mem<()>
        ensures ok { OnOk result (list_values self.new ≡ list_values self.old ++ v ∷ []) }
        ensures err { OnErr result (self.new ≡ self.old) }
    {
        self.items.push(v)
    }

    /// The values in their order.
    pub fn iter(&self) -> ValueListIter<'_>
        ensures { iter_rest result ≡ list_values self.now }
    {
        self.items.iter()
    }

    /// How many values there are.
    pub fn len(&self) -> usize
        ensures { result ≡ length (list_values self.now) }
    {
        self.items.len()
    }
}

impl Dup for CedarValueJson {
    #[cycle(value_dup)]
    fn dup(&self, alloc: Global) -> Mem<CedarValueJson> {
        match self {
            CedarValueJson::ExprEscape(map) => Ok(CedarValueJson::ExprEscape(map.dup(alloc)?)),
            CedarValueJson::EntityEscape(map) => Ok(CedarValueJson::EntityEscape(map.dup(alloc)?)),
            CedarValueJson::ExtnEscape(map) => Ok(CedarValueJson::ExtnEscape(map.dup(alloc)?)),
            CedarValueJson::Bool(value) => Ok(CedarValueJson::Bool(*value)),
            CedarValueJson::Long(value) => Ok(CedarValueJson::Long(*value)),
            CedarValueJson::String(text) => Ok(CedarValueJson::String(text.dup(alloc)?)),
            CedarValueJson::Set(list) => Ok(CedarValueJson::Set(list.dup(alloc)?)),
            CedarValueJson::Record(map) => Ok(CedarValueJson::Record(map.dup(alloc)?)),
            CedarValueJson::Null => Ok(CedarValueJson::Null),
        }
    }
}

impl Dup for ValueMap {
    #[cycle(value_dup)]
    fn dup(&self, alloc: Global) -> Mem<ValueMap> {
        let map = dup_members(alloc, &self.map)?;
        Ok(ValueMap { map })
    }
}

impl Dup for ValueList {
    #[cycle(value_dup)]
    fn dup(&self, alloc: Global) -> Mem<ValueList> {
        let items = dup_values(alloc, &self.items)?;
        Ok(ValueList { items })
    }
}

/// A copy of the values by name.
#[cycle(value_dup)]
fn dup_members(alloc: Global, values: &Map<Text, CedarValueJson>) -> Mem<Map<Text, CedarValueJson>>
    ensures { IfOk result (λ copy. copy ≡ values.now) }
{
    let mut copies = Map::new(alloc);
    for (name, value) in values.iter() {
        let name = name.dup(alloc)?;
        let value = value.dup(alloc)?;
        copies.push_last(name, value)?;
    }
    Ok(copies)
}

/// A copy of the values in a row.
#[cycle(value_dup)]
fn dup_values(alloc: Global, values: &Items<CedarValueJson>) -> Mem<Items<CedarValueJson>>
    ensures { IfOk result (λ copy. copy ≡ values.now) }
{
    let mut copies = Items::new(alloc);
    for value in values.as_slice() {
        copies.push(value.dup(alloc)?)?;
    }
    Ok(copies)
}
