// SPDX-License-Identifier: Apache-2.0
use crate::bracketed::Bracketed;
use crate::queried_actions::{add_action_lookup, add_actions};
use crate::queried_types::{add_type_lookup, add_types};
use cedar_data::{Dup, Failure, Mem, NoMemory};
use cedar_names::{EntityType, EntityUID};
use cedar_resolved::{Entity, RequestEnv, ValidatorSchema};
use cedar_row_trees::Lines;
use std::alloc::Global;

/// What the queries of a schema give, those by name for each of its names and for each word.
pub fn queries(alloc: Global, words: &[&str], schema: &ValidatorSchema) -> Mem<String> {
    let mut lines = Lines::new(alloc);
    add_types(&mut lines, schema)?;
    add_actions(&mut lines, schema)?;
    add_environments(&mut lines, schema)?;
    add_action_entities(&mut lines, schema)?;
    for word in words {
        add_lookup(&mut lines, schema, word)?;
    }
    Ok(lines.into_text())
}

/// A line for each request environment.
fn add_environments(lines: &mut Lines, schema: &ValidatorSchema) -> Mem<()> {
    for env in schema.unlinked_request_envs() {
        let RequestEnv::DeclaredAction {
            principal,
            action,
            resource,
            context: _,
        } = env;
        let line = format!(in lines.alloc; "environment {principal}, {action}, {resource}")?;
        lines.add_line(line)?;
    }
    Ok(())
}

/// A line for each action as an entity.
fn add_action_entities(lines: &mut Lines, schema: &ValidatorSchema) -> Mem<()> {
    let entities = schema.action_entities(lines.alloc)?;
    add_entities(lines, entities.as_slice())
}

fn add_entities(lines: &mut Lines, entities: &[Entity]) -> Mem<()> {
    for entity in entities {
        add_copy(lines, entity)?;
    }
    Ok(())
}

/// A line for a copy of an entity.
fn add_copy(lines: &mut Lines, entity: &Entity) -> Mem<()> {
    let copy = entity.dup(lines.alloc)?;
    add_entity(lines, &copy)
}

fn add_entity(lines: &mut Lines, entity: &Entity) -> Mem<()> {
    let ancestors = ancestors_told(lines.alloc, entity)?;
    let attributes = attributes_told(lines.alloc, entity)?;
    let uid = &entity.uid;
    lines.add_line(format!(in lines.alloc;
        "as an entity {uid}, ancestors {ancestors}, attributes {attributes}"
    )?)
}

fn ancestors_told(alloc: Global, entity: &Entity) -> Mem<String> {
    let mut ancestors = Bracketed::new(alloc);
    for ancestor in entity.ancestors.iter() {
        ancestors.add_uid(ancestor)?;
    }
    ancestors.told()
}

fn attributes_told(alloc: Global, entity: &Entity) -> Mem<String> {
    let mut attributes = Bracketed::new(alloc);
    for (name, _) in entity.attributes.iter() {
        attributes.add(name.as_str())?;
    }
    attributes.told()
}

/// What the queries by name say of a name: of an action, or else of an entity type.
fn add_lookup(lines: &mut Lines, schema: &ValidatorSchema, word: &str) -> Mem<()> {
    match EntityUID::from_normalized_str(lines.alloc, word) {
        Ok(uid) => return add_action_lookup(lines, schema, &uid),
        Err(Failure::Refused(_)) => (),
        Err(Failure::NoMemory) => return Err(NoMemory),
    }
    match EntityType::from_normalized_str(lines.alloc, word) {
        Ok(ty) => add_type_lookup(lines, schema, &ty),
        Err(Failure::Refused(_)) => lines.add("no name"),
        Err(Failure::NoMemory) => Err(NoMemory),
    }
}
