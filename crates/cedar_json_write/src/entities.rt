// SPDX-License-Identifier: Apache-2.0
ghost use Rattle.std.specs.Prelude.{◌≡◌, IfOk, OnOk};
ghost use Rattle.serde_json.specs.Data.{string};
ghost use Rattle.serde_json.specs.View.{view, members_view};
ghost use Rattle.cedar_text.specs.Lists.{elements};
ghost use Rattle.cedar_json_write.specs.Written.{all_of, common_json, entity_json, kind_fields, put_all, shape_at, standard_fields};

use crate::collections::{push_item, push_items, put_items};
use crate::fields::{Members, put_json, put_some, put_value};
use crate::names::put_notes;
use crate::to_json::ToJson;
use crate::types::put_type;
use cedar_data::{Mem, Text};
use cedar_fragment::{
    AttributesOrContext, CommonType, EntityType, EntityTypeKind, RawName, StandardEntityType,
};
use cedar_text::NonEmpty;
use serde_json::Value;
use std::alloc::Global;

/// Puts the shape or context at the key, unless it is the closed record without attributes.
pub(crate) fn put_shape(
    alloc: Global,
    members: &mut Members,
    key: &str,
    shape: &AttributesOrContext<RawName>,
) -> Mem<()>
    ensures { OnOk result (members_view members.new.entries
        ≡ put_all (shape_at key.now shape.now) (members_view members.old.entries)) }
{
    if shape.is_empty_record() {
        return Ok(());
    }
    put_json(alloc, members, key, &shape.0)
}

impl ToJson for CommonType<RawName> {
    ghost written = { common_json };

    #[tactic(auto, using(crate::proofs::Parts::type_parts))]
    fn to_json_value(&self, alloc: Global) -> Mem<Value> {
        let mut members = Members::new(alloc);
        put_type(alloc, &self.ty, &mut members)?;
        put_notes(alloc, &mut members, &self.annotations)?;
        Ok(Value::from(members))
    }
}

/// Puts the members of an entity type whose entities have attributes.
#[tactic(auto, using(crate::proofs::Parts::type_parts))]
fn put_standard(
    alloc: Global,
    members: &mut Members,
    standard: &StandardEntityType<RawName>,
) -> Mem<()>
    ensures { OnOk result (members_view members.new.entries
        ≡ put_all (standard_fields standard.now) (members_view members.old.entries)) }
{
    put_items(alloc, members, "memberOfTypes", &standard.member_of_types)?;
    put_shape(alloc, members, "shape", &standard.shape)?;
    put_some(alloc, members, "tags", &standard.tags)
}

/// The array of the ids of the entities of an enumerated entity type.
fn write_choices(alloc: Global, choices: &NonEmpty<Text>) -> Mem<Value>
    ensures { IfOk result (λ v. view v ≡ all_of string (elements choices.now)) }
{
    let mut values = Vec::new(alloc);
    push_item(alloc, &mut values, &choices.head)?;
    push_items(alloc, &mut values, choices.tail.as_slice())?;
    Ok(Value::from(values))
}

/// Puts the members of an entity type of any kind.
fn put_kind(alloc: Global, members: &mut Members, kind: &EntityTypeKind<RawName>) -> Mem<()>
    ensures { OnOk result (members_view members.new.entries
        ≡ put_all (kind_fields kind.now) (members_view members.old.entries)) }
{
    match kind {
        EntityTypeKind::Standard(standard) => put_standard(alloc, members, standard),
        EntityTypeKind::Enum { choices } => {
            let choices = write_choices(alloc, choices)?;
            put_value(alloc, members, "enum", choices)
        }
    }
}

impl ToJson for EntityType<RawName> {
    ghost written = { entity_json };

    #[tactic(auto, using(crate::proofs::Parts::type_parts))]
    fn to_json_value(&self, alloc: Global) -> Mem<Value> {
        let mut members = Members::new(alloc);
        put_kind(alloc, &mut members, &self.kind)?;
        put_notes(alloc, &mut members, &self.annotations)?;
        Ok(Value::from(members))
    }
}
