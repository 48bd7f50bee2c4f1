// SPDX-License-Identifier: Apache-2.0
ghost use Rattle.std.specs.Prelude.{map, codes};
ghost use Rattle.std.specs.Option.{option_copied};
ghost use Rattle.cedar_listing.specs.Listing.{enum_text, kind_text, quoted_text, standard_text, tags_text};
ghost use Rattle.cedar_streams.specs.Texts.{joined};
ghost use Rattle.cedar_streams.specs.Writes.{Writes};
ghost use Rattle.cedar_text.specs.Lists.{elements};

use crate::quoting::write_quoted;
use crate::type_text::{write_attributes, write_type};
use cedar_data::Text;
use cedar_resolved::ValidatorEntityTypeKind;
use cedar_streams::{Sink, SinkFailed, write_all, write_str};
use cedar_text::NonEmpty;
use cedar_types::{Attributes, Type};

/// Writes what the entities of a type may have, or which they are.
pub(crate) fn write_kind<K: Sink>(
    attributes: &Attributes,
    kind: &ValidatorEntityTypeKind,
    out: &mut K,
) -> Result<(), SinkFailed>
    ensures { Writes K.written K.faults out.old out.new (kind_text attributes.now kind.now) result }
{
    match kind {
        ValidatorEntityTypeKind::Standard(standard) => {
            write_standard(attributes, standard.tag_type(), out)
        }
        ValidatorEntityTypeKind::Enum(ids) => write_enum(ids, out),
    }
}

/// Writes the attributes and the tags that entities may have.
#[tactic(auto, using(cedar_streams::proofs::InOrder::in_order))]
fn write_standard<K: Sink>(
    attributes: &Attributes,
    tags: Option<&Type>,
    out: &mut K,
) -> Result<(), SinkFailed>
    ensures { Writes K.written K.faults out.old out.new
        (standard_text attributes.now (option_copied tags.entry)) result }
{
    write_str(out, " attributes ")?;
    write_attributes(attributes, out)?;
    write_tags(tags, out)
}

/// Writes the type of tags, where there are any.
#[tactic(auto, using(cedar_streams::proofs::InOrder::in_order))]
fn write_tags<K: Sink>(tags: Option<&Type>, out: &mut K) -> Result<(), SinkFailed>
    ensures { Writes K.written K.faults out.old out.new
        (tags_text (option_copied tags.entry)) result }
{
    match tags {
        None => write_str(out, ""),
        Some(ty) => {
            write_str(out, " tags ")?;
            write_type(ty, out)
        }
    }
}

/// Writes the entities that are listed.
#[tactic(auto, using(cedar_streams::proofs::InOrder::in_order))]
fn write_enum<K: Sink>(ids: &NonEmpty<Text>, out: &mut K) -> Result<(), SinkFailed>
    ensures { Writes K.written K.faults out.old out.new (enum_text (elements ids.now)) result }
{
    write_str(out, " enum ")?;
    write_str(out, "[")?;
    write_ids(ids, out)?;
    write_str(out, "]")
}

/// Writes ids between quotes with commas between them.
fn write_ids<K: Sink>(ids: &NonEmpty<Text>, out: &mut K) -> Result<(), SinkFailed>
    ensures { Writes K.written K.faults out.old out.new
        (joined (codes ", ") (map quoted_text (elements ids.now))) result }
{
    let mut separator: &[u8] = b"";
    for id in ids.iter() {
        write_all(out, separator)?;
        write_quoted(id.as_str(), out)?;
        separator = b", ";
    }
    Ok(())
}
