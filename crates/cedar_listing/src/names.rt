// SPDX-License-Identifier: Apache-2.0
ghost use Rattle.cedar_names.specs.Components.{components};
ghost use Rattle.cedar_names.specs.EntityUids.{eid_text};
ghost use Rattle.cedar_names.specs.Names.{name_words};
ghost use Rattle.cedar_listing.specs.Listing.{name_text, entity_text, quoted_text, uid_line_text};
ghost use Rattle.cedar_listing.specs.Rows.{typed_id_text};
ghost use Rattle.cedar_streams.specs.Writes.{Writes};

use crate::quoting::write_quoted;
use cedar_names::{Eid, EntityType, EntityUID, InternalName, Name};
use cedar_streams::{Sink, SinkFailed, write_all, write_str};

/// Writes an entity's id.
pub(crate) fn write_uid<K: Sink>(uid: &EntityUID, out: &mut K) -> Result<(), SinkFailed>
    ensures { Writes K.written K.faults out.old out.new (uid_line_text uid.now) result }
{
    write_typed_id(uid.entity_type(), uid.eid(), out)
}

/// Writes an id behind its type.
#[tactic(auto, using(cedar_streams::proofs::InOrder::in_order))]
fn write_typed_id<K: Sink>(ty: &EntityType, eid: &Eid, out: &mut K) -> Result<(), SinkFailed>
    ensures { Writes K.written K.faults out.old out.new (typed_id_text ty.now eid.now) result }
{
    write_entity_name(ty, out)?;
    write_str(out, "::")?;
    write_id(eid, out)
}

/// Writes an id without its type.
fn write_id<K: Sink>(eid: &Eid, out: &mut K) -> Result<(), SinkFailed>
    ensures { Writes K.written K.faults out.old out.new (quoted_text (eid_text eid.now)) result }
{
    write_quoted(eid.as_str(), out)
}

/// Writes the name of an entity type.
pub(crate) fn write_entity_name<K: Sink>(ty: &EntityType, out: &mut K) -> Result<(), SinkFailed>
    ensures { Writes K.written K.faults out.old out.new (entity_text ty.now) result }
{
    write_type_name(ty.name(), out)
}

/// Writes the name of a type.
pub(crate) fn write_type_name<K: Sink>(name: &Name, out: &mut K) -> Result<(), SinkFailed>
    ensures { Writes K.written K.faults out.old out.new (name_text (name_words name.now)) result }
{
    write_name(name.as_internal(), out)
}

/// Writes the components of a name with `::` between them.
fn write_name<K: Sink>(name: &InternalName, out: &mut K) -> Result<(), SinkFailed>
    ensures { Writes K.written K.faults out.old out.new (name_text (components name.now)) result }
{
    let mut separator: &[u8] = b"";
    for id in name.components() {
        write_all(out, separator)?;
        write_str(out, id.as_ref())?;
        separator = b"::";
    }
    Ok(())
}
