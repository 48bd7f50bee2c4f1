// SPDX-License-Identifier: Apache-2.0
ghost use Rattle.std.specs.Prelude.{flat_map};
ghost use Rattle.std.specs.Map.{values_of};
ghost use Rattle.cedar_listing.specs.Listing.{entity_line, action_line, listing};
ghost use Rattle.cedar_listing.specs.Rows.{entity_line_of, action_line_of, applies_text};
ghost use Rattle.cedar_streams.specs.Writes.{Writes};
ghost use Rattle.cedar_resolved.specs.Schemas.{types, action_types};

use crate::kinds::write_kind;
use crate::lists::write_list;
use crate::names::{write_entity_name, write_uid};
use crate::type_text::write_type;
use crate::warnings::write_warnings;
use cedar_convert_warnings::SchemaWarning;
use cedar_data::SetIter;
use cedar_names::{EntityType, EntityUID};
use cedar_resolved::{
    ValidatorActionId, ValidatorEntityType, ValidatorEntityTypeKind, ValidatorSchema,
};
use cedar_streams::{Sink, SinkFailed, write_str};
use cedar_types::{Attributes, Type};

/// Writes the lines of a schema and of warnings: those of its entity types, those of its actions, and then those of the
/// warnings, each in order. It takes no memory. A failure leaves a front of the lines written.
#[tactic(auto, using(cedar_streams::proofs::InOrder::in_order))]
pub fn write_listing<K: Sink>(
    schema: &ValidatorSchema,
    warnings: &[SchemaWarning],
    out: &mut K,
) -> Result<(), SinkFailed>
    ensures { Writes K.written K.faults out.old out.new (listing schema.now warnings.now) result }
{
    write_entities(schema, out)?;
    write_actions(schema, out)?;
    write_warnings(warnings, out)
}

/// Writes the lines of the entity types of a schema.
fn write_entities<K: Sink>(schema: &ValidatorSchema, out: &mut K) -> Result<(), SinkFailed>
    ensures { Writes K.written K.faults out.old out.new
        (flat_map entity_line (values_of (types schema.now))) result }
{
    for ty in schema.entity_types() {
        write_entity(ty, out)?;
    }
    Ok(())
}

/// Writes the lines of the actions of a schema.
fn write_actions<K: Sink>(schema: &ValidatorSchema, out: &mut K) -> Result<(), SinkFailed>
    ensures { Writes K.written K.faults out.old out.new
        (flat_map action_line (values_of (action_types schema.now))) result }
{
    for action in schema.action_ids() {
        write_action(action, out)?;
    }
    Ok(())
}

/// Writes the line of an entity type.
fn write_entity<K: Sink>(ty: &ValidatorEntityType, out: &mut K) -> Result<(), SinkFailed>
    ensures { Writes K.written K.faults out.old out.new (entity_line ty.now) result }
{
    write_entity_line(
        ty.name(),
        ty.descendants.iter(),
        ty.attributes(),
        &ty.kind,
        out,
    )
}

/// Writes the line of the entity type of this name.
#[tactic(auto, using(cedar_streams::proofs::InOrder::in_order))]
fn write_entity_line<K: Sink>(
    name: &EntityType,
    descendants: SetIter<'_, EntityType>,
    attributes: &Attributes,
    kind: &ValidatorEntityTypeKind,
    out: &mut K,
) -> Result<(), SinkFailed>
    ensures { Writes K.written K.faults out.old out.new
        (entity_line_of name.now descendants.entry attributes.now kind.now) result }
{
    write_str(out, "entity ")?;
    write_entity_name(name, out)?;
    write_str(out, " descendants ")?;
    write_list(descendants, out)?;
    write_kind(attributes, kind, out)?;
    write_str(out, "\n")
}

/// Writes the line of an action.
fn write_action<K: Sink>(action: &ValidatorActionId, out: &mut K) -> Result<(), SinkFailed>
    ensures { Writes K.written K.faults out.old out.new (action_line action.now) result }
{
    write_action_line(
        action.name(),
        action.descendants(),
        action.principals(),
        action.resources(),
        action.context(),
        out,
    )
}

/// Writes the line of the action of this name.
#[tactic(auto, using(cedar_streams::proofs::InOrder::in_order))]
fn write_action_line<K: Sink>(
    name: &EntityUID,
    descendants: SetIter<'_, EntityUID>,
    principals: SetIter<'_, EntityType>,
    resources: SetIter<'_, EntityType>,
    context: &Type,
    out: &mut K,
) -> Result<(), SinkFailed>
    ensures { Writes K.written K.faults out.old out.new
        (action_line_of name.now descendants.entry principals.entry resources.entry context.now) result }
{
    write_str(out, "action ")?;
    write_uid(name, out)?;
    write_str(out, " descendants ")?;
    write_list(descendants, out)?;
    write_applies(principals, resources, context, out)
}

/// Writes what an action applies to, up to the end of its line.
#[tactic(auto, using(cedar_streams::proofs::InOrder::in_order))]
fn write_applies<K: Sink>(
    principals: SetIter<'_, EntityType>,
    resources: SetIter<'_, EntityType>,
    context: &Type,
    out: &mut K,
) -> Result<(), SinkFailed>
    ensures { Writes K.written K.faults out.old out.new
        (applies_text principals.entry resources.entry context.now) result }
{
    write_str(out, " principals ")?;
    write_list(principals, out)?;
    write_str(out, " resources ")?;
    write_list(resources, out)?;
    write_str(out, " context ")?;
    write_type(context, out)?;
    write_str(out, "\n")
}
