// SPDX-License-Identifier: Apache-2.0
ghost use Rattle.std.specs.Fmt.{DisplaysOnOk};
ghost use Rattle.std.specs.List.{flat_map};
ghost use Rattle.cedar_print.specs.Annotations.{nameless};
ghost use Rattle.cedar_print.specs.Pieces.{text_of};
ghost use Rattle.cedar_fragment.specs.Printed.{action_head, common_head, entity_head, namespace_head, print, print_action_declaration, print_common, print_entity_declaration, print_named, print_namespace, print_under};

use crate::definitions::{ActionType, CommonType, EntityType, Fragment, NamespaceDefinition};
use cedar_json_fault::{CommonTypeId, Quoted, RefName, write_annotations};
use cedar_types::{Map, Name, Text, UnreservedId};
use std::fmt::{self, Display};

/// The schema, as the human syntax writes it: each namespace in order.
impl<N: RefName + fmt::Display> fmt::Display for Fragment<N> {
    ghost output = { λ fragment. text_of N.output (print fragment) };

    #[tactic(auto, using(cedar_print::proofs::Prints::prints))]
    fn fmt<W: fmt::Write>(&self, f: &mut fmt::Formatter<W>) -> fmt::Result {
        for (path, definition) in self.0.iter() {
            write_namespace(path, definition, f)?;
        }
        Ok(())
    }
}

/// The declarations of the namespace: common types, entity types, actions.
impl<N: RefName + fmt::Display> fmt::Display for NamespaceDefinition<N> {
    ghost output = { λ definition. text_of N.output (print_namespace definition) };

    fn fmt<W: fmt::Write>(&self, f: &mut fmt::Formatter<W>) -> fmt::Result {
        write_common_types(&self.common_types, f)?;
        write_entity_types(&self.entity_types, f)?;
        write_actions(&self.actions, f)
    }
}

/// Writes a namespace: the unnamed one as its declarations, a named one in braces.
fn write_namespace<N: RefName + fmt::Display, W: fmt::Write>(
    path: &Option<Name>,
    definition: &NamespaceDefinition<N>,
    f: &mut fmt::Formatter<W>,
) -> fmt::Result
    ensures { DisplaysOnOk W.write_str_gives f.old result
        (text_of N.output (print_under path.now definition.now)) f.new }
{
    match path {
        None => definition.fmt(f),
        Some(path) => write_named(path, definition, f),
    }
}

/// Writes a named namespace.
fn write_named<N: RefName + fmt::Display, W: fmt::Write>(
    path: &Name,
    definition: &NamespaceDefinition<N>,
    f: &mut fmt::Formatter<W>,
) -> fmt::Result
    ensures { DisplaysOnOk W.write_str_gives f.old result
        (text_of N.output (print_named path.now definition.now)) f.new }
{
    write_annotations(&definition.annotations, f)?;
    write_namespace_head(path, f)?;
    definition.fmt(f)?;
    f.write_str("}\n")
}

/// Writes the line that opens a namespace.
fn write_namespace_head<W: fmt::Write>(path: &Name, f: &mut fmt::Formatter<W>) -> fmt::Result
    ensures { DisplaysOnOk W.write_str_gives f.old result
        (text_of nameless (namespace_head path.now)) f.new }
{
    write!(f, "namespace {path} {{\n")
}

/// Writes the common types, in order.
#[tactic(auto, using(cedar_print::proofs::Prints::prints))]
fn write_common_types<N: fmt::Display, W: fmt::Write>(
    common_types: &Map<CommonTypeId, CommonType<N>>,
    f: &mut fmt::Formatter<W>,
) -> fmt::Result
    ensures { DisplaysOnOk W.write_str_gives f.old result
        (text_of N.output (flat_map print_common common_types.now)) f.new }
{
    for (id, common) in common_types.iter() {
        write_common_type(id, common, f)?;
    }
    Ok(())
}

/// Writes a common type.
fn write_common_type<N: fmt::Display, W: fmt::Write>(
    id: &CommonTypeId,
    common: &CommonType<N>,
    f: &mut fmt::Formatter<W>,
) -> fmt::Result
    ensures { DisplaysOnOk W.write_str_gives f.old result
        (text_of N.output (print_common (id.now, common.now))) f.new }
{
    write_annotations(&common.annotations, f)?;
    write_common_head(id, f)?;
    common.ty.fmt(f)?;
    f.write_str(";\n")
}

/// Writes what stands before the type that a common type is.
fn write_common_head<W: fmt::Write>(id: &CommonTypeId, f: &mut fmt::Formatter<W>) -> fmt::Result
    ensures { DisplaysOnOk W.write_str_gives f.old result
        (text_of nameless (common_head id.now)) f.new }
{
    f.write_str("type ")?;
    f.write_str(id.as_ref().as_ref())?;
    f.write_str(" = ")
}

/// Writes the entity types, in order.
#[tactic(auto, using(cedar_print::proofs::Prints::prints))]
fn write_entity_types<N: fmt::Display, W: fmt::Write>(
    entity_types: &Map<UnreservedId, EntityType<N>>,
    f: &mut fmt::Formatter<W>,
) -> fmt::Result
    ensures { DisplaysOnOk W.write_str_gives f.old result
        (text_of N.output (flat_map print_entity_declaration entity_types.now)) f.new }
{
    for (id, entity) in entity_types.iter() {
        write_entity_type(id, entity, f)?;
    }
    Ok(())
}

/// Writes an entity type.
fn write_entity_type<N: fmt::Display, W: fmt::Write>(
    id: &UnreservedId,
    entity: &EntityType<N>,
    f: &mut fmt::Formatter<W>,
) -> fmt::Result
    ensures { DisplaysOnOk W.write_str_gives f.old result
        (text_of N.output (print_entity_declaration (id.now, entity.now))) f.new }
{
    write_annotations(&entity.annotations, f)?;
    write_entity_head(id, f)?;
    entity.fmt(f)?;
    f.write_str(";\n")
}

/// Writes the name of an entity type.
fn write_entity_head<W: fmt::Write>(id: &UnreservedId, f: &mut fmt::Formatter<W>) -> fmt::Result
    ensures { DisplaysOnOk W.write_str_gives f.old result
        (text_of nameless (entity_head id.now)) f.new }
{
    f.write_str("entity ")?;
    f.write_str(id.as_ref())
}

/// Writes the actions, in order.
#[tactic(auto, using(cedar_print::proofs::Prints::prints))]
fn write_actions<N: RefName + fmt::Display, W: fmt::Write>(
    actions: &Map<Text, ActionType<N>>,
    f: &mut fmt::Formatter<W>,
) -> fmt::Result
    ensures { DisplaysOnOk W.write_str_gives f.old result
        (text_of N.output (flat_map print_action_declaration actions.now)) f.new }
{
    for (id, action) in actions.iter() {
        write_action(id, action, f)?;
    }
    Ok(())
}

/// Writes an action.
fn write_action<N: RefName + fmt::Display, W: fmt::Write>(
    id: &Text,
    action: &ActionType<N>,
    f: &mut fmt::Formatter<W>,
) -> fmt::Result
    ensures { DisplaysOnOk W.write_str_gives f.old result
        (text_of N.output (print_action_declaration (id.now, action.now))) f.new }
{
    write_annotations(&action.annotations, f)?;
    write_action_head(id, f)?;
    action.fmt(f)?;
    f.write_str(";\n")
}

/// Writes the id of an action.
fn write_action_head<W: fmt::Write>(id: &Text, f: &mut fmt::Formatter<W>) -> fmt::Result
    ensures { DisplaysOnOk W.write_str_gives f.old result
        (text_of nameless (action_head id.now)) f.new }
{
    f.write_str("action ")?;
    Quoted(id).fmt(f)
}
