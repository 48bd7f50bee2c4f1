// SPDX-License-Identifier: Apache-2.0
use crate::telling::add_faults;
use cedar_convert_fragment::cedar_type_to_json_type;
use cedar_convert_namespaces::from_annotated_namespace;
use cedar_convert_text::ToJsonSchemaErrors;
use cedar_data::{Dup, Failure, Mem, NoMemory, Out};
use cedar_fragment::{NamespaceDefinition, RawName, SchemaType};
use cedar_row_fragments::{Writing, add_definition, add_type};
use cedar_syntax::parse_schema;
use cedar_text::Node;
use cedar_tree::{Annotated, Declaration, Namespace, Schema, Type, TypeDecl};
use std::alloc::Global;

/// `by-pieces`: what each namespace of the input declares by itself, behind the types of its common types, each by
/// itself; or what is wrong with that piece.
pub fn by_pieces(alloc: Global, input: &str) -> Mem<String> {
    match parse_schema(alloc, input) {
        Ok(schema) => pieces_told(alloc, &schema),
        Err(Failure::Refused(_)) => Ok(String::from_str(alloc, "no tree\n")?),
        Err(Failure::NoMemory) => Err(NoMemory),
    }
}

fn pieces_told(alloc: Global, schema: &Schema) -> Mem<String> {
    let mut writing = Writing::new(alloc, true);
    for namespace in schema.as_slice() {
        add_types(&mut writing, &namespace.item)?;
        add_namespace(&mut writing, namespace)?;
    }
    Ok(writing.into_text())
}

/// Adds the types of the common types of a namespace.
fn add_types(writing: &mut Writing, namespace: &Namespace) -> Mem<()> {
    for declaration in namespace.decls.as_slice() {
        if let Declaration::Common(TypeDecl { def, .. }) = &declaration.item.node {
            add_written(writing, def)?;
        }
    }
    Ok(())
}

fn add_written(writing: &mut Writing, ty: &Node<Type>) -> Mem<()> {
    let made = cedar_type_to_json_type(writing.alloc, ty.dup(writing.alloc)?);
    let added = add_declared_type(writing, &made);
    drop(made);
    added
}

fn add_declared_type(
    writing: &mut Writing,
    made: &Out<SchemaType<RawName>, ToJsonSchemaErrors>,
) -> Mem<()> {
    match made {
        Ok(ty) => add_type_line(writing, ty),
        Err(Failure::Refused(errors)) => add_faults(writing, errors),
        Err(Failure::NoMemory) => Err(NoMemory),
    }
}

fn add_type_line(writing: &mut Writing, ty: &SchemaType<RawName>) -> Mem<()> {
    writing.add("type ")?;
    add_type(writing, ty)?;
    writing.add("\n")
}

fn add_namespace(writing: &mut Writing, namespace: &Annotated<Namespace>) -> Mem<()> {
    let made = from_annotated_namespace(writing.alloc, namespace.dup(writing.alloc)?);
    let added = add_declared(writing, &made);
    drop(made);
    added
}

fn add_declared(
    writing: &mut Writing,
    made: &Out<NamespaceDefinition<RawName>, ToJsonSchemaErrors>,
) -> Mem<()> {
    match made {
        Ok(definition) => add_namespace_lines(writing, definition),
        Err(Failure::Refused(errors)) => add_faults(writing, errors),
        Err(Failure::NoMemory) => Err(NoMemory),
    }
}

fn add_namespace_lines(
    writing: &mut Writing,
    definition: &NamespaceDefinition<RawName>,
) -> Mem<()> {
    writing.add("namespace\n")?;
    add_definition(writing, definition)
}
