// SPDX-License-Identifier: Apache-2.0
use crate::full_types::{Scope, add_error, add_full, add_shape, add_type};
use crate::queried_definitions::{Definitions, all_defined, mark_all};
use cedar_data::{Dup, Failure, Mem, NoMemory, Out};
use cedar_declared::{AllDefs, FullyQualify};
use cedar_fragment::{
    ActionEntityUID, ActionType, ApplySpec, EntityType, EntityTypeKind, Fragment,
    NamespaceDefinition, RawName,
};
use cedar_names::{Extensions, InternalName, Name};
use cedar_row_queries::Bracketed;
use cedar_row_trees::Lines;
use cedar_schema_error::SchemaError;
use std::alloc::Global;

/// The definitions of each namespace of the fragment with the full name that each reference means,
/// and the same of each structure of them by itself, where each word is declared as a common type;
/// or what is said of the first reference that means nothing. Or the error with which the
/// definitions are refused.
pub fn full_names(
    alloc: Global,
    words: &[&str],
    fragment: &Fragment<RawName>,
    extensions: &Extensions,
) -> Out<String, SchemaError> {
    let definitions = all_defined(alloc, fragment, extensions)?;
    Ok(declared_told(alloc, words, &definitions, fragment)?)
}

/// The same among the names that the definitions declare.
fn declared_told(
    alloc: Global,
    words: &[&str],
    definitions: &Definitions,
    fragment: &Fragment<RawName>,
) -> Mem<String> {
    let mut names = AllDefs::single_fragment(alloc, definitions)?;
    mark_all(alloc, &mut names, words)?;
    fragment_told(alloc, &names, fragment)
}

fn fragment_told(alloc: Global, names: &AllDefs, fragment: &Fragment<RawName>) -> Mem<String> {
    let mut lines = Lines::new(alloc);
    for (name, definition) in fragment.0.iter() {
        let namespace = namespace_of(name);
        add_definition(&mut lines, Scope { names, namespace }, definition)?;
    }
    Ok(lines.into_text())
}

fn namespace_of(name: &Option<Name>) -> Option<&InternalName> {
    match name {
        Some(name) => Some(name.as_internal()),
        None => None,
    }
}

fn add_definition(
    lines: &mut Lines,
    scope: Scope<'_>,
    definition: &NamespaceDefinition<RawName>,
) -> Mem<()> {
    add_whole(lines, scope, definition)?;
    add_common_types(lines, scope, definition)?;
    add_entity_types(lines, scope, definition)?;
    add_actions(lines, scope, definition)
}

fn add_common_types(
    lines: &mut Lines,
    scope: Scope<'_>,
    definition: &NamespaceDefinition<RawName>,
) -> Mem<()> {
    for (_, common) in definition.common_types.iter() {
        add_type(lines, scope, &common.ty)?;
    }
    Ok(())
}

fn add_entity_types(
    lines: &mut Lines,
    scope: Scope<'_>,
    definition: &NamespaceDefinition<RawName>,
) -> Mem<()> {
    for (_, entity) in definition.entity_types.iter() {
        add_entity(lines, scope, entity)?;
    }
    Ok(())
}

fn add_actions(
    lines: &mut Lines,
    scope: Scope<'_>,
    definition: &NamespaceDefinition<RawName>,
) -> Mem<()> {
    for (_, action) in definition.actions.iter() {
        add_action(lines, scope, action)?;
    }
    Ok(())
}

/// Adds the definitions of a namespace as a whole.
fn add_whole(
    lines: &mut Lines,
    scope: Scope<'_>,
    definition: &NamespaceDefinition<RawName>,
) -> Mem<()> {
    let copy = definition.dup(lines.alloc)?;
    let part = copy.conditionally_qualify_type_references(lines.alloc, scope.namespace)?;
    let made = part.fully_qualify_type_references(lines.alloc, scope.names);
    let added = add_made_whole(lines, &made);
    drop(made);
    added
}

fn add_made_whole(
    lines: &mut Lines,
    made: &Out<NamespaceDefinition<InternalName>, SchemaError>,
) -> Mem<()> {
    match made {
        Ok(definition) => {
            let shown = format!(in lines.alloc; "{definition}")?;
            lines.add(shown.as_str().trim_end())
        }
        Err(Failure::Refused(error)) => lines.add_line(format!(in lines.alloc; "{error}")?),
        Err(Failure::NoMemory) => Err(NoMemory),
    }
}

fn add_entity(lines: &mut Lines, scope: Scope<'_>, entity: &EntityType<RawName>) -> Mem<()> {
    let copy = entity.dup(lines.alloc)?;
    let part = copy.conditionally_qualify_type_references(lines.alloc, scope.namespace)?;
    add_full(lines, "entity", part, scope.names)?;
    match &entity.kind {
        EntityTypeKind::Standard(standard) => add_shape(lines, scope, &standard.shape),
        EntityTypeKind::Enum { .. } => Ok(()),
    }
}

fn add_action(lines: &mut Lines, scope: Scope<'_>, action: &ActionType<RawName>) -> Mem<()> {
    let copy = action.dup(lines.alloc)?;
    let part = copy.conditionally_qualify_type_references(lines.alloc, scope.namespace)?;
    add_full(lines, "action", part, scope.names)?;
    if let Some(applies_to) = &action.applies_to {
        add_applies_to(lines, scope, applies_to)?;
    }
    match &action.member_of {
        Some(parents) => add_parents(lines, scope, parents.as_slice()),
        None => Ok(()),
    }
}

fn add_parents(
    lines: &mut Lines,
    scope: Scope<'_>,
    parents: &[ActionEntityUID<RawName>],
) -> Mem<()> {
    for parent in parents {
        add_parent(lines, scope, parent)?;
    }
    Ok(())
}

fn add_parent(lines: &mut Lines, scope: Scope<'_>, parent: &ActionEntityUID<RawName>) -> Mem<()> {
    let copy = parent.dup(lines.alloc)?;
    let part = copy.conditionally_qualify_type_references(lines.alloc, scope.namespace)?;
    add_full(lines, "parent ", part, scope.names)
}

fn add_applies_to(lines: &mut Lines, scope: Scope<'_>, spec: &ApplySpec<RawName>) -> Mem<()> {
    let copy = spec.dup(lines.alloc)?;
    let part = copy.conditionally_qualify_type_references(lines.alloc, scope.namespace)?;
    let made = part.fully_qualify_type_references(lines.alloc, scope.names);
    let added = add_made_spec(lines, &made);
    drop(made);
    added
}

fn add_made_spec(lines: &mut Lines, made: &Out<ApplySpec<InternalName>, SchemaError>) -> Mem<()> {
    match made {
        Ok(spec) => add_spec(lines, spec),
        Err(Failure::Refused(error)) => add_error(lines, error),
        Err(Failure::NoMemory) => Err(NoMemory),
    }
}

/// Adds a line of the principals, the resources and the context to which an action applies.
fn add_spec(lines: &mut Lines, spec: &ApplySpec<InternalName>) -> Mem<()> {
    let principals = names_told(lines.alloc, spec.principal_types.as_slice())?;
    let resources = names_told(lines.alloc, spec.resource_types.as_slice())?;
    let context = &spec.context;
    let line = format!(in lines.alloc; "applies to {principals}, {resources}, {context}")?;
    lines.add_deep(1, line.as_str())
}

fn names_told(alloc: Global, names: &[InternalName]) -> Mem<String> {
    let mut told = Bracketed::new(alloc);
    for name in names {
        told.add_name(name)?;
    }
    told.told()
}
