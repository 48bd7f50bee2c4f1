// SPDX-License-Identifier: Apache-2.0
ghost use Rattle.std.specs.Prelude.{map, codes};
ghost use Rattle.cedar_listing.specs.Listing.{quoted_text, type_text, attributes_text};
ghost use Rattle.cedar_listing.specs.Rows.{row_text, mark_text};
ghost use Rattle.cedar_streams.specs.Texts.{joined};
ghost use Rattle.cedar_streams.specs.Writes.{Writes};
ghost use Rattle.cedar_types.specs.Types.{entries};

use crate::names::{write_entity_name, write_type_name};
use crate::quoting::write_quoted;
use cedar_data::Text;
use cedar_streams::{Sink, SinkFailed, write_all, write_str};
use cedar_types::{AttributeType, Attributes, Type, TypeView};

/// Writes a type.
#[cycle(types)]
#[tactic(auto, using(cedar_streams::proofs::InOrder::in_order))]
pub(crate) fn write_type<K: Sink>(ty: &Type, out: &mut K) -> Result<(), SinkFailed>
    ensures { Writes K.written K.faults out.old out.new (type_text ty.now) result }
{
    match ty.view() {
        TypeView::Bool => write_str(out, "Bool"),
        TypeView::Long => write_str(out, "Long"),
        TypeView::String => write_str(out, "String"),
        TypeView::Set(element) => {
            write_str(out, "Set<")?;
            write_type(element, out)?;
            write_str(out, ">")
        }
        TypeView::Record(attributes, _) => write_attributes(attributes, out),
        TypeView::Entity(entity) => {
            write_str(out, "entity ")?;
            write_entity_name(entity, out)
        }
        TypeView::Extension(name) => {
            write_str(out, "extension ")?;
            write_type_name(name, out)
        }
    }
}

/// Writes attributes in braces.
#[cycle(types)]
#[tactic(auto, using(cedar_streams::proofs::InOrder::in_order))]
pub(crate) fn write_attributes<K: Sink>(
    attributes: &Attributes,
    out: &mut K,
) -> Result<(), SinkFailed>
    ensures { Writes K.written K.faults out.old out.new (attributes_text attributes.now) result }
{
    write_str(out, "{")?;
    write_rows(attributes, out)?;
    write_str(out, "}")
}

/// Writes attributes with commas between them.
#[cycle(types)]
fn write_rows<K: Sink>(attributes: &Attributes, out: &mut K) -> Result<(), SinkFailed>
    ensures { Writes K.written K.faults out.old out.new
        (joined (codes ", ") (map row_text (entries attributes.now))) result }
{
    let mut separator: &[u8] = b"";
    for (name, attribute) in attributes.iter() {
        write_all(out, separator)?;
        write_row(name, attribute, out)?;
        separator = b", ";
    }
    Ok(())
}

/// Writes an attribute: its name between quotes, `?` where it isn't required, and its type.
#[cycle(types)]
#[tactic(auto, using(cedar_streams::proofs::InOrder::in_order))]
fn write_row<K: Sink>(name: &Text, attribute: &AttributeType, out: &mut K) -> Result<(), SinkFailed>
    ensures { Writes K.written K.faults out.old out.new
        (row_text (name.now, attribute.now)) result }
{
    write_attribute_name(name, out)?;
    write_mark(attribute.is_required, out)?;
    write_str(out, ": ")?;
    write_type(&attribute.attr_type, out)
}

/// Writes the name of an attribute between quotes.
fn write_attribute_name<K: Sink>(name: &Text, out: &mut K) -> Result<(), SinkFailed>
    ensures { Writes K.written K.faults out.old out.new (quoted_text name.now) result }
{
    write_quoted(name.as_str(), out)
}

/// Writes `?` where an attribute isn't required.
fn write_mark<K: Sink>(is_required: bool, out: &mut K) -> Result<(), SinkFailed>
    ensures { Writes K.written K.faults out.old out.new (mark_text is_required) result }
{
    if is_required {
        write_str(out, "")
    } else {
        write_str(out, "?")
    }
}
