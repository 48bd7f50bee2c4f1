// SPDX-License-Identifier: Apache-2.0
use crate::lines::Lines;
use crate::telling::refusal_line;
use cedar_data::Mem;
use cedar_syntax::{Decl, Declaration, EntityDecl, Schema, parse_schema};
use std::alloc::Global;

/// The names that each declaration of a schema gives, with their places; or why the text is no schema.
pub fn names(alloc: Global, input: &str) -> Mem<String> {
    match parse_schema(alloc, input) {
        Ok(schema) => names_told(alloc, &schema),
        Err(failure) => refusal_line(alloc, failure),
    }
}

fn names_told(alloc: Global, schema: &Schema) -> Mem<String> {
    let mut lines = Lines::new(alloc);
    add_names(&mut lines, schema)?;
    Ok(lines.into_text())
}

fn add_names(lines: &mut Lines, schema: &Schema) -> Mem<()> {
    for namespace in schema.as_slice() {
        for decl in namespace.item.decls.as_slice() {
            add_declaration(lines, &decl.item.node)?;
        }
    }
    Ok(())
}

fn add_declaration(lines: &mut Lines, decl: &Declaration) -> Mem<()> {
    match decl {
        Declaration::Entity(decl) => add_entity(lines, decl),
        Declaration::Action(decl) => add_decl(lines, decl),
        Declaration::Common(decl) => add_decl(lines, decl),
    }
}

fn add_entity(lines: &mut Lines, decl: &EntityDecl) -> Mem<()> {
    for name in decl.names() {
        let word = name.node.as_ref();
        let what = format!(in lines.alloc; "{word:?}")?;
        lines.add_at(0, &name.loc, what.as_str())?;
    }
    Ok(())
}

fn add_decl<D: Decl>(lines: &mut Lines, decl: &D) -> Mem<()> {
    let names = decl.names(lines.alloc)?;
    for name in names.iter() {
        let word = name.node.as_str();
        let what = format!(in lines.alloc; "{word:?}")?;
        lines.add_at(0, &name.loc, what.as_str())?;
    }
    Ok(())
}
