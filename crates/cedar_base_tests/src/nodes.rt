// SPDX-License-Identifier: Apache-2.0
use crate::holding::all_hold;
use cedar_data::Mem;
use cedar_names::EntityType;
use cedar_resolved::ValidatorEntityType;
use cedar_types::{Attributes, OpenTag, TcNode};
use std::alloc::Global;
use std::test::Fail;

/// The entity type of a word.
fn entity(alloc: Global, word: &str) -> Option<EntityType> {
    EntityType::from_normalized_str(alloc, word).ok()
}

/// An entity type of a name, without attributes.
fn bare(alloc: Global, name: EntityType) -> Mem<ValidatorEntityType> {
    let attributes = Attributes::with_attributes(alloc, Vec::new(alloc))?;
    ValidatorEntityType::new_standard(
        alloc,
        name,
        Vec::new(alloc),
        attributes,
        OpenTag::ClosedAttributes,
        None,
        None,
    )
}

/// The entity type of a word, without attributes.
fn made(alloc: Global, word: &str) -> Option<ValidatorEntityType> {
    let name = entity(alloc, word)?;
    bare(alloc, name).ok()
}

/// Adds an edge, and tells whether that succeeds.
fn lengthen(node: &mut ValidatorEntityType, key: Option<EntityType>) -> bool {
    match key {
        Some(key) => node.add_edge_to(key).is_ok(),
        None => false,
    }
}

/// Whether an edge leads to a key.
fn leads_to(node: &ValidatorEntityType, key: Option<EntityType>) -> Option<bool> {
    match key {
        Some(key) => Some(node.has_edge_to(&key)),
        None => None,
    }
}

/// Whether an entity type takes an edge to `G`, and then has one to it and none to `H`.
fn takes_edge(alloc: Global, node: &mut ValidatorEntityType) -> bool {
    let is_added = lengthen(node, entity(alloc, "G"));
    let leads = leads_to(node, entity(alloc, "G"));
    let strays = leads_to(node, entity(alloc, "H"));
    is_added && leads == Some(true) && strays == Some(false)
}

fn is_edge_taken(alloc: Global, made: Option<ValidatorEntityType>) -> bool {
    match made {
        Some(mut node) => takes_edge(alloc, &mut node),
        None => false,
    }
}

#[test]
fn of_schemas(rt: HostRuntime) -> Result<(), Fail> {
    let alloc = rt.alloc();
    all_hold(&[(
        "an entity type takes an edge",
        is_edge_taken(alloc, made(alloc, "F")),
    )])
}
