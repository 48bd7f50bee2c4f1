// SPDX-License-Identifier: Apache-2.0
use crate::queried_definitions::Definitions;
use cedar_complete::FullyQualifyDefinitions;
use cedar_data::{Dup, Failure, Mem, NoMemory, Out};
use cedar_declared::AllDefs;
use cedar_definitions::{ActionFragment, ValidatorApplySpec, ValidatorSchemaFragment};
use cedar_names::{EntityType, EntityUID, InternalName};
use cedar_row_queries::{Bracketed, types_told};
use cedar_row_trees::Lines;
use cedar_schema_error::SchemaError;
use std::alloc::Global;

/// The definitions of a schema over full names.
type FullDefinitions = ValidatorSchemaFragment<InternalName, EntityType>;

/// Adds to which entity types the actions of the definitions apply, where these names are declared; or what is said of
/// the references that mean nothing.
pub(crate) fn add_qualified(
    lines: &mut Lines,
    definitions: &Definitions,
    names: &AllDefs,
) -> Mem<()> {
    let copy = definitions.dup(lines.alloc)?;
    let made = copy.fully_qualify_type_references(lines.alloc, names);
    add_made(lines, made)
}

fn add_made(lines: &mut Lines, made: Out<FullDefinitions, SchemaError>) -> Mem<()> {
    match made {
        Ok(definitions) => add_full(lines, &definitions),
        Err(Failure::Refused(error)) => lines.add_line(format!(in lines.alloc; "{error}")?),
        Err(Failure::NoMemory) => Err(NoMemory),
    }
}

fn add_full(lines: &mut Lines, definitions: &FullDefinitions) -> Mem<()> {
    for definition in definitions.definitions() {
        for (uid, action) in definition.actions.actions.iter() {
            add_action(lines, uid, action)?;
        }
    }
    Ok(())
}

fn add_action(
    lines: &mut Lines,
    uid: &EntityUID,
    action: &ActionFragment<InternalName, EntityType>,
) -> Mem<()> {
    let alloc = lines.alloc;
    let principals = types_told(alloc, action.applies_to.applicable_principal_types())?;
    let resources = types_told(alloc, action.applies_to.applicable_resource_types())?;
    let both = both_told(alloc, &action.applies_to)?;
    lines.add_line(format!(in alloc; "{uid} applies to {principals}, {resources}, both as {both}")?)
}

/// The entity types to which an action applies as principals and as resources.
fn both_told(alloc: Global, applies_to: &ValidatorApplySpec<EntityType>) -> Mem<String> {
    let mut both = Bracketed::new(alloc);
    for ty in applies_to.applicable_principal_types() {
        if applies_to.is_applicable_resource_type(ty)
            && applies_to.is_applicable_principal_type(ty)
        {
            both.add_type(ty)?;
        }
    }
    both.told()
}
