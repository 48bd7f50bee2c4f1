// SPDX-License-Identifier: Apache-2.0
use cedar_data::Mem;
use cedar_row_trees::Lines;
use cedar_types::{Attributes, OpenTag, Type, TypeView};

/// Attributes so deep, each with its type below it.
pub fn add_attributes(lines: &mut Lines, depth: usize, attributes: &Attributes) -> Mem<()> {
    for (name, attribute) in attributes.iter() {
        let mark = if attribute.is_required { "" } else { "?" };
        let line = format!(in lines.alloc; "{name}{mark}")?;
        lines.add_deep(depth, line.as_str())?;
        add_view(lines, depth.saturating_add(1), &attribute.attr_type)?;
    }
    Ok(())
}

/// A type so deep, and below it the elements of a set.
pub fn add_view(lines: &mut Lines, depth: usize, ty: &Type) -> Mem<()> {
    match ty.view() {
        TypeView::Bool => lines.add_deep(depth, "Bool"),
        TypeView::Long => lines.add_deep(depth, "Long"),
        TypeView::String => lines.add_deep(depth, "String"),
        TypeView::Set(element) => {
            lines.add_deep(depth, "set")?;
            add_view(lines, depth.saturating_add(1), element)
        }
        TypeView::Record(_, OpenTag::ClosedAttributes) => lines.add_deep(depth, "closed record"),
        TypeView::Record(_, OpenTag::OpenAttributes) => lines.add_deep(depth, "open record"),
        TypeView::Entity(_) => lines.add_deep(depth, "entity"),
        TypeView::Extension(_) => lines.add_deep(depth, "extension"),
    }
}
