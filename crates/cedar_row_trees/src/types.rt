// SPDX-License-Identifier: Apache-2.0
use crate::lines::Lines;
use crate::pieces::{add_annotations, add_path, add_word};
use cedar_data::{Items, Mem};
use cedar_names::{Loc, Node};
use cedar_syntax::{Annotated, AttrDecl, Type};

/// Adds a type at a place, and deeper what it is made of.
#[cycle(pieces)]
pub fn add_type(lines: &mut Lines, depth: usize, ty: &Type, loc: &Loc) -> Mem<()> {
    match ty {
        Type::Ident(path) => add_path(lines, depth, path),
        Type::Set(element) => {
            lines.add_at(depth, loc, "set")?;
            let element = element.get();
            add_type(lines, depth.saturating_add(1), &element.node, &element.loc)
        }
        Type::Record(attrs) => {
            lines.add_at(depth, loc, "record")?;
            add_attributes(lines, depth.saturating_add(1), attrs)
        }
    }
}

/// Adds attributes, each with its annotations, its name and its type.
#[cycle(pieces)]
pub fn add_attributes(
    lines: &mut Lines,
    depth: usize,
    attrs: &Items<Node<Annotated<AttrDecl>>>,
) -> Mem<()> {
    for attr in attrs.as_slice() {
        let attribute = &attr.node.item;
        let form = if attribute.required {
            "attribute"
        } else {
            "optional attribute"
        };
        lines.add_at(depth, &attr.loc, form)?;
        let inside = depth.saturating_add(1);
        add_annotations(lines, inside, &attr.node.annotations)?;
        add_word(
            lines,
            inside,
            &attribute.name.loc,
            attribute.name.node.as_str(),
        )?;
        add_type(lines, inside, &attribute.ty.node, &attribute.ty.loc)?;
    }
    Ok(())
}
