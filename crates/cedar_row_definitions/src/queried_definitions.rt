// SPDX-License-Identifier: Apache-2.0
use crate::qualified_definitions::add_qualified;
use cedar_data::{Dup, Failure, Mem, NoMemory, Out};
use cedar_declared::AllDefs;
use cedar_definitions::{EntityTypeFragment, ValidatorNamespaceDef, ValidatorSchemaFragment};
use cedar_fragment::{Fragment, NamespaceDefinition, RawName};
use cedar_names::{Extensions, InternalName, Name, UnreservedId};
use cedar_namespace_definitions::FromNamespaceDefinition;
use cedar_row_queries::Bracketed;
use cedar_row_trees::Lines;
use cedar_schema_error::{ActionBehavior, SchemaError};
use cedar_written::ConditionalName;
use std::alloc::Global;
use std::collections::BTreeMap;

/// The definition of a namespace over names that are not resolved.
type Definition = ValidatorNamespaceDef<ConditionalName, ConditionalName>;

/// The definitions of a schema over names that are not resolved.
pub(crate) type Definitions = ValidatorSchemaFragment<ConditionalName, ConditionalName>;

/// What the calls of the definitions tell that the fragment declares, and what they and the names that they declare say
/// of each word; and to which entity types the actions apply, where each word is declared as a common type. Or the error
/// with which it is refused.
pub fn definitions(
    alloc: Global,
    words: &[&str],
    fragment: &Fragment<RawName>,
    extensions: &Extensions,
) -> Out<String, SchemaError> {
    let definitions = all_defined(alloc, fragment, extensions)?;
    Ok(definitions_told(alloc, words, &definitions)?)
}

/// The definitions that the fragment declares.
pub(crate) fn all_defined(
    alloc: Global,
    fragment: &Fragment<RawName>,
    extensions: &Extensions,
) -> Out<Definitions, SchemaError> {
    let mut list = Vec::new(alloc);
    for (name, declared) in fragment.0.iter() {
        let definition = defined(alloc, name.as_ref(), declared, extensions)?;
        list.push(definition)?;
    }
    Ok(ValidatorSchemaFragment::from_namespaces(list))
}

fn defined(
    alloc: Global,
    name: Option<&Name>,
    declared: &NamespaceDefinition<RawName>,
    extensions: &Extensions,
) -> Out<Definition, SchemaError> {
    let namespace = match name {
        Some(name) => Some(name.as_internal().dup(alloc)?),
        None => None,
    };
    let declared = declared.dup(alloc)?;
    let behavior = ActionBehavior::ProhibitAttributes;
    ValidatorNamespaceDef::from_namespace_definition(
        alloc, namespace, declared, behavior, extensions,
    )
}

fn definitions_told(alloc: Global, words: &[&str], definitions: &Definitions) -> Mem<String> {
    let mut lines = Lines::new(alloc);
    add_namespaces(&mut lines, definitions)?;
    for definition in definitions.definitions() {
        add_definition(&mut lines, definition)?;
    }
    add_names(&mut lines, words, definitions)?;
    Ok(lines.into_text())
}

/// What the declared names say of each word, and to which entity types the actions apply once each
/// word is marked as a common type.
fn add_names(lines: &mut Lines, words: &[&str], definitions: &Definitions) -> Mem<()> {
    let mut names = AllDefs::single_fragment(lines.alloc, definitions)?;
    for word in words {
        add_declared(lines, &names, word)?;
    }
    mark_all(lines.alloc, &mut names, words)?;
    add_qualified(lines, definitions, &names)
}

/// Marks each word that is a name as a common type.
pub(crate) fn mark_all(alloc: Global, names: &mut AllDefs, words: &[&str]) -> Mem<()> {
    for word in words {
        match InternalName::from_normalized_str(alloc, word) {
            Ok(name) => names.mark_as_defined_as_common_type(name)?,
            Err(Failure::Refused(_fault)) => (),
            Err(Failure::NoMemory) => return Err(NoMemory),
        }
    }
    Ok(())
}

/// A line of the namespaces.
fn add_namespaces(lines: &mut Lines, definitions: &Definitions) -> Mem<()> {
    let mut namespaces = Bracketed::new(lines.alloc);
    for namespace in definitions.namespaces() {
        match namespace {
            Some(name) => namespaces.add_name(name)?,
            None => namespaces.add("unnamed")?,
        }
    }
    let namespaces = namespaces.told()?;
    lines.add_line(format!(in lines.alloc; "namespaces {namespaces}")?)
}

/// The names that a definition declares, the parents of its entity types, and its common types alone.
fn add_definition(lines: &mut Lines, definition: &Definition) -> Mem<()> {
    let alloc = lines.alloc;
    let types = entity_types_told(alloc, definition)?;
    let actions = actions_told(alloc, definition)?;
    let common = common_told(alloc, definition)?;
    lines.add_line(format!(in alloc;
        "entity types {types}, actions {actions}, common types {common}"
    )?)?;
    add_parents(lines, definition)?;
    add_common_alone(lines, definition)
}

fn entity_types_told(alloc: Global, definition: &Definition) -> Mem<String> {
    let mut types = Bracketed::new(alloc);
    for name in definition.all_declared_entity_type_names() {
        types.add_type(name)?;
    }
    types.told()
}

fn actions_told(alloc: Global, definition: &Definition) -> Mem<String> {
    let mut actions = Bracketed::new(alloc);
    for uid in definition.all_declared_action_names() {
        actions.add_uid(uid)?;
    }
    actions.told()
}

/// A line of the parents of each entity type.
fn add_parents(lines: &mut Lines, definition: &Definition) -> Mem<()> {
    for (name, ty) in definition.entity_types.defs.iter() {
        let parents = parents_told(lines.alloc, ty)?;
        let line = format!(in lines.alloc; "{name} in {parents}")?;
        lines.add_deep(1, line.as_str())?;
    }
    Ok(())
}

/// A line of the common types as a definition of their own.
fn add_common_alone(lines: &mut Lines, definition: &Definition) -> Mem<()> {
    let alone = common_alone(lines.alloc, definition)?;
    let alone = common_told(lines.alloc, &alone)?;
    let line = format!(in lines.alloc; "common types alone {alone}")?;
    lines.add_deep(1, line.as_str())
}

fn common_told(alloc: Global, definition: &Definition) -> Mem<String> {
    let mut names = Bracketed::new(alloc);
    for name in definition.all_declared_common_type_names() {
        names.add_name(name)?;
    }
    names.told()
}

fn parents_told(alloc: Global, ty: &EntityTypeFragment<ConditionalName>) -> Mem<String> {
    let mut parents = Bracketed::new(alloc);
    for parent in ty.parents() {
        let shown = format!(in alloc; "{parent}")?;
        parents.add(shown.as_str())?;
    }
    parents.told()
}

/// The common types of a definition as a definition of their own.
fn common_alone(alloc: Global, definition: &Definition) -> Mem<Definition> {
    let mut types = BTreeMap::new(alloc);
    for (name, ty) in definition.common_types.defs.iter() {
        let id = name.basename().dup(alloc)?;
        match UnreservedId::try_from_id(alloc, id) {
            Ok(id) => {
                let ty = ty.dup(alloc)?;
                types.insert(id, ty)?;
            }
            Err(_) => (),
        }
    }
    let namespace = definition.namespace.dup(alloc)?;
    ValidatorNamespaceDef::from_common_type_defs(alloc, namespace, types)
}

/// What a name is declared as, and whether it is a common type once it is marked as one.
fn add_declared(lines: &mut Lines, names: &AllDefs, word: &str) -> Mem<()> {
    match InternalName::from_normalized_str(lines.alloc, word) {
        Ok(name) => add_name(lines, names, name),
        Err(Failure::Refused(_)) => lines.add("no name"),
        Err(Failure::NoMemory) => Err(NoMemory),
    }
}

fn add_name(lines: &mut Lines, names: &AllDefs, name: InternalName) -> Mem<()> {
    let alloc = lines.alloc;
    let is_entity = names.is_defined_as_entity(&name);
    let is_common = names.is_defined_as_common(&name);
    let mut marked = names.dup(alloc)?;
    marked.mark_as_defined_as_common_type(name.dup(alloc)?)?;
    let is_marked = marked.is_defined_as_common(&name);
    let still = marked.is_defined_as_entity(&name);
    lines.add_line(format!(in alloc;
        "{name}: entity {is_entity}, common {is_common}; marked as common: entity {still}, common {is_marked}"
    )?)
}
