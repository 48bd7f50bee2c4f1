// SPDX-License-Identifier: Apache-2.0
use crate::lines::Lines;
use crate::pieces::{add_annotations, add_ids, add_path, add_texts, add_word};
use crate::types::{add_attributes, add_type};
use cedar_data::Mem;
use cedar_names::{Node, NonEmpty};
use cedar_syntax::{
    ActionDecl, Annotated, AppDecl, ContextDecl, Declaration, EntityDecl, EnumEntityDecl,
    Namespace, PRAppDecl, QualName, Schema, StandardEntityDecl, TypeDecl,
};

/// Adds the pieces of a schema: a line for each, with its place, deeper than the piece that it is in.
pub fn add_schema(lines: &mut Lines, schema: &Schema) -> Mem<()> {
    lines.add("a schema")?;
    for namespace in schema.as_slice() {
        add_namespace(lines, namespace)?;
    }
    Ok(())
}

fn add_namespace(lines: &mut Lines, namespace: &Annotated<Namespace>) -> Mem<()> {
    match &namespace.item.loc {
        Some(loc) => lines.add_at(0, loc, "namespace")?,
        None => lines.add("no namespace")?,
    }
    add_annotations(lines, 1, &namespace.annotations)?;
    if let Some(name) = &namespace.item.name {
        add_path(lines, 1, name)?;
    }
    for decl in namespace.item.decls.as_slice() {
        add_declaration(lines, decl)?;
    }
    Ok(())
}

fn add_declaration(lines: &mut Lines, decl: &Annotated<Node<Declaration>>) -> Mem<()> {
    let loc = &decl.item.loc;
    lines.add_at(1, loc, form_of(&decl.item.node))?;
    add_annotations(lines, 2, &decl.annotations)?;
    match &decl.item.node {
        Declaration::Entity(EntityDecl::Standard(entity)) => add_entity(lines, entity),
        Declaration::Entity(EntityDecl::Enum(entity)) => add_enum(lines, entity),
        Declaration::Action(action) => add_action(lines, action),
        Declaration::Common(common) => add_common(lines, common),
    }
}

/// The word for the form of a declaration.
fn form_of(decl: &Declaration) -> &'static str {
    match decl {
        Declaration::Entity(EntityDecl::Standard(_)) => "entity",
        Declaration::Entity(EntityDecl::Enum(_)) => "enum",
        Declaration::Action(_) => "action",
        Declaration::Common(_) => "type",
    }
}

fn add_common(lines: &mut Lines, common: &TypeDecl) -> Mem<()> {
    add_word(lines, 2, &common.name.loc, common.name.node.as_ref())?;
    add_type(lines, 2, &common.def.node, &common.def.loc)
}

fn add_enum(lines: &mut Lines, entity: &EnumEntityDecl) -> Mem<()> {
    add_ids(lines, 2, &entity.names)?;
    lines.add_deep(2, "of")?;
    add_texts(lines, 3, &entity.choices)
}

fn add_entity(lines: &mut Lines, entity: &StandardEntityDecl) -> Mem<()> {
    add_ids(lines, 2, &entity.names)?;
    for parent in entity.member_of_types.as_slice() {
        add_path(lines, 2, parent)?;
    }
    add_shape(lines, &entity.attrs)?;
    if let Some(tags) = &entity.tags {
        let tags = tags.get();
        lines.add_at(2, &tags.loc, "tags")?;
        add_type(lines, 3, &tags.node, &tags.loc)?;
    }
    Ok(())
}

/// Adds the shape of entity types: the name of a type, or a record, which may not be written.
fn add_shape(lines: &mut Lines, shape: &ContextDecl) -> Mem<()> {
    match shape {
        ContextDecl::Path(path) => {
            lines.add_at(2, path.loc(), "shape")?;
            add_path(lines, 3, path)
        }
        ContextDecl::Record(record) => {
            let is_written = record.loc.start < record.loc.end;
            let form = if is_written { "record" } else { "no record" };
            lines.add_at(2, &record.loc, form)?;
            add_attributes(lines, 3, &record.node)
        }
    }
}

fn add_action(lines: &mut Lines, action: &ActionDecl) -> Mem<()> {
    add_texts(lines, 2, &action.names)?;
    if let Some(parents) = &action.parents {
        add_parents(lines, parents.get())?;
    }
    if let Some(applies) = &action.app_decls {
        let applies = applies.get();
        lines.add_at(2, &applies.loc, "applies")?;
        for part in applies.node.iter() {
            add_part(lines, part)?;
        }
    }
    Ok(())
}

fn add_parents(lines: &mut Lines, parents: &NonEmpty<Node<QualName>>) -> Mem<()> {
    for parent in parents.iter() {
        let id = parent.node.eid.as_str();
        let what = format!(in lines.alloc; "parent {id:?}")?;
        lines.add_at(2, &parent.loc, what.as_str())?;
        if let Some(path) = &parent.node.path {
            add_path(lines, 3, path)?;
        }
    }
    Ok(())
}

fn add_part(lines: &mut Lines, part: &Node<AppDecl>) -> Mem<()> {
    match &part.node {
        AppDecl::PR(list) => {
            lines.add_at(3, &part.loc, "list")?;
            add_list(lines, list)
        }
        AppDecl::Context(ContextDecl::Path(path)) => {
            lines.add_at(3, &part.loc, "context")?;
            add_path(lines, 4, path)
        }
        AppDecl::Context(ContextDecl::Record(record)) => {
            lines.add_at(3, &part.loc, "context")?;
            lines.add_at(4, &record.loc, "record")?;
            add_attributes(lines, 5, &record.node)
        }
    }
}

/// Adds whether principals or resources are listed, and the entity types, where there are any.
fn add_list(lines: &mut Lines, list: &PRAppDecl) -> Mem<()> {
    let kind = &list.kind.node;
    let what = format!(in lines.alloc; "{kind}")?;
    lines.add_at(4, &list.kind.loc, what.as_str())?;
    if let Some(types) = &list.entity_tys {
        for ty in types.iter() {
            add_path(lines, 4, ty)?;
        }
    }
    Ok(())
}
