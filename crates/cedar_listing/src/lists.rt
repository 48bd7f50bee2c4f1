// SPDX-License-Identifier: Apache-2.0
ghost use Rattle.std.specs.Prelude.{ℕ, List, map, codes};
ghost use Rattle.cedar_listing.specs.Listing.{entity_text, uid_line_text, list_text};
ghost use Rattle.cedar_streams.specs.Texts.{joined};
ghost use Rattle.cedar_streams.specs.Writes.{Writes};

use crate::names::{write_entity_name, write_uid};
use cedar_data::SetIter;
use cedar_names::{EntityType, EntityUID};
use cedar_streams::{Sink, SinkFailed, write_all, write_str};

/// What stands in the lists of a listing.
pub(crate) trait Listed {
    /// Its text.
    ghost text_of: { Self → List ℕ };

    /// Writes its text.
    fn write<K: Sink>(&self, out: &mut K) -> Result<(), SinkFailed>
        ensures { Writes K.written K.faults out.old out.new (text_of self.now) result };
}

impl Listed for EntityType {
    ghost text_of = { entity_text };

    fn write<K: Sink>(&self, out: &mut K) -> Result<(), SinkFailed> {
        write_entity_name(self, out)
    }
}

impl Listed for EntityUID {
    ghost text_of = { uid_line_text };

    fn write<K: Sink>(&self, out: &mut K) -> Result<(), SinkFailed> {
        write_uid(self, out)
    }
}

/// Writes a list: its items in brackets.
#[tactic(auto, using(cedar_streams::proofs::InOrder::in_order))]
pub(crate) fn write_list<X: Listed + Ord, K: Sink>(
    items: SetIter<'_, X>,
    out: &mut K,
) -> Result<(), SinkFailed>
    ensures { Writes K.written K.faults out.old out.new
        (list_text (map X.text_of items.entry)) result }
{
    write_str(out, "[")?;
    write_items(items, out)?;
    write_str(out, "]")
}

/// Writes items with commas between them.
fn write_items<X: Listed + Ord, K: Sink>(
    items: SetIter<'_, X>,
    out: &mut K,
) -> Result<(), SinkFailed>
    ensures { Writes K.written K.faults out.old out.new
        (joined (codes ", ") (map X.text_of items.entry)) result }
{
    let mut separator: &[u8] = b"";
    for item in items {
        write_all(out, separator)?;
        item.write(out)?;
        separator = b", ";
    }
    Ok(())
}
