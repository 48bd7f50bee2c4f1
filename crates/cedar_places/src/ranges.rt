// SPDX-License-Identifier: Apache-2.0
ghost use Rattle.std.specs.Prelude.{◌≡◌, ◌++◌, IfOk, OnOk};
ghost use Rattle.std.specs.Option.{option_copied};
ghost use Rattle.cedar_places.specs.Places.{range};

use cedar_names::{Loc, Mem, Span};
use std::alloc::Global;

/// Puts the range of a place, in bytes, behind the others, if there is one. It fails only for want of memory.
pub fn push_range(spans: &mut Vec<Span>, place: Option<&Loc>) -> Mem<()>
    ensures { OnOk result (spans.new.items
        ≡ spans.old.items ++ range (option_copied place.entry)) }
{
    if let Some(loc) = place {
        spans.push(loc.span())?;
    }
    Ok(())
}

/// The range of a place, if there is one. It fails only for want of memory.
pub fn range_of(alloc: Global, place: Option<&Loc>) -> Mem<Vec<Span>>
    ensures { IfOk result (λ spans. spans.items ≡ range (option_copied place.entry)) }
{
    let mut spans = Vec::new(alloc);
    push_range(&mut spans, place)?;
    Ok(spans)
}

/// The ranges of those of two places that there are, in order. It fails only for want of memory.
pub fn both_ranges(alloc: Global, first: Option<&Loc>, second: Option<&Loc>) -> Mem<Vec<Span>>
    ensures { IfOk result (λ spans. spans.items ≡ range (option_copied first.entry)
        ++ range (option_copied second.entry)) }
{
    let mut spans = range_of(alloc, first)?;
    push_range(&mut spans, second)?;
    Ok(spans)
}
