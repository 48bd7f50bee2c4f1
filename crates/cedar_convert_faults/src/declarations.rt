// SPDX-License-Identifier: Apache-2.0
ghost use Rattle.std.specs.Prelude.{◌≡◌, ◌↔◌, ◌∷◌, [], map, flat_map, option_map, option_to_list, IfOk};
ghost use Rattle.cedar_names.specs.Identifiers.{id_word};
ghost use Rattle.cedar_text.specs.Lists.{elements};
ghost use Rattle.cedar_tree.specs.Meanings.{action_tree, alias_tree, annotated_tree, app_tree, decl_tree, node_of};
ghost use Rattle.cedar_tree.specs.Trees.{Action, Common};
ghost use Rattle.cedar_convert_faults.specs.Conditions.{AreDeclared, AreSound};
ghost use Rattle.cedar_convert_faults.specs.Faults.{action_faults, applies_faults, common_faults, declarations, entity_faults, faults_among, faults_of, name_faults};
ghost use Rattle.cedar_convert_faults.specs.Gathering.{gathered_tree};
ghost use Rattle.cedar_convert_faults.specs.Lists.{first_found};

use crate::bindings::binding_faults;
use crate::clauses::applies_fault;
use crate::entities::{add_entity_faults, find_repeat, reserved_name};
use crate::gathering::Gathered;
use cedar_convert_errors::{ReservedSchemaKeyword, ToJsonSchemaError};
use cedar_data::{Boxed, Dup, Items, Mem, Text};
use cedar_text::{Node, NonEmpty, push_all};
use cedar_tree::{ActionDecl, Annotated, AppDecl, Declaration, Id, TypeDecl, UnreservedId};
use cedar_written::CommonTypeId;
use std::alloc::Global;

/// What is wrong with the name of a common type, if anything is: it is `__cedar`, or one of the words that no common
/// type may have.
fn common_name_fault(alloc: Global, name: &Node<Id>) -> Mem<Option<ToJsonSchemaError>>
    ensures { IfOk result (λ fault. option_to_list fault ≡ name_faults (node_of id_word name.now)) }
{
    let id = name.node.dup(alloc)?;
    let Ok(id) = UnreservedId::try_from_id(alloc, id) else {
        let fault = reserved_name(alloc, name)?;
        return Ok(Some(fault));
    };
    if CommonTypeId::new(id).is_ok() {
        return Ok(None);
    }
    let keyword = name.node.as_text().dup(alloc)?;
    let loc = name.loc.dup(alloc)?;
    Ok(Some(ToJsonSchemaError::ReservedSchemaKeyword(ReservedSchemaKeyword { keyword, loc })))
}

/// What is wrong with a common type, if anything is: with its name, or else the leftmost repeat of its type.
fn common_fault(alloc: Global, decl: &TypeDecl) -> Mem<Option<ToJsonSchemaError>>
    ensures { IfOk result (λ fault. option_to_list fault
        ≡ common_faults (Common (alias_tree decl.now))) }
{
    if let Some(fault) = common_name_fault(alloc, &decl.name)? {
        return Ok(Some(fault));
    }
    find_repeat(alloc, &decl.def.node)
}

/// What is wrong with the clauses of an `appliesTo` of actions, told of the one of this name, if anything is.
fn clauses_fault(
    alloc: Global,
    name: &Node<Text>,
    clauses: &Option<Boxed<Node<NonEmpty<Node<AppDecl>>>>>,
) -> Mem<Option<ToJsonSchemaError>>
    ensures { IfOk result (λ fault. option_to_list fault
        ≡ flat_map (λ lines. applies_faults name.now lines.node) (option_to_list
        (option_map (node_of (λ lines. map (node_of app_tree) (elements lines))) clauses.now))) }
{
    match clauses {
        None => Ok(None),
        Some(clauses) => applies_fault(alloc, name, &clauses.get().node),
    }
}

/// What is wrong with a declaration of actions, if anything is.
fn action_fault(alloc: Global, decl: &ActionDecl) -> Mem<Option<ToJsonSchemaError>>
    ensures { IfOk result (λ fault. option_to_list fault
        ≡ action_faults (Action (action_tree decl.now))) }
{
    clauses_fault(alloc, &decl.names.head, &decl.app_decls)
}

/// What is wrong with the entity types of these declarations.
fn entities_faults(
    alloc: Global,
    decls: &Items<Annotated<Node<Declaration>>>,
) -> Mem<Vec<ToJsonSchemaError>>
    ensures { IfOk result (λ faults. faults.items ≡ flat_map (λ d. entity_faults d.item.node)
        (map (annotated_tree (node_of decl_tree)) decls.now)) }
{
    let mut faults = Vec::new(alloc);
    for decl in decls.iter() {
        if let Declaration::Entity(entity) = &decl.item.node {
            add_entity_faults(alloc, entity, &mut faults)?;
        }
    }
    Ok(faults)
}

/// What is wrong with the actions of these declarations.
fn actions_faults(
    alloc: Global,
    decls: &Items<Annotated<Node<Declaration>>>,
) -> Mem<Vec<ToJsonSchemaError>>
    ensures { IfOk result (λ faults. faults.items ≡ flat_map (λ d. action_faults d.item.node)
        (map (annotated_tree (node_of decl_tree)) decls.now)) }
{
    let mut faults = Vec::new(alloc);
    for decl in decls.iter() {
        if let Declaration::Action(action) = &decl.item.node {
            if let Some(fault) = action_fault(alloc, action)? {
                faults.push(fault)?;
            }
        }
    }
    Ok(faults)
}

/// What is wrong with the first faulty common type of these declarations, if one is.
fn commons_fault(
    alloc: Global,
    decls: &Items<Annotated<Node<Declaration>>>,
) -> Mem<Option<ToJsonSchemaError>>
    ensures { IfOk result (λ fault. option_to_list fault
        ≡ first_found (map (λ d. common_faults d.item.node)
        (map (annotated_tree (node_of decl_tree)) decls.now))) }
{
    for decl in decls.iter() {
        if let Declaration::Common(common) = &decl.item.node {
            if let Some(fault) = common_fault(alloc, common)? {
                return Ok(Some(fault));
            }
        }
    }
    Ok(None)
}

/// What is wrong with declarations: with entity types, or else with actions, or else with the first common type that is
/// wrong.
fn find_faults(
    alloc: Global,
    decls: &Items<Annotated<Node<Declaration>>>,
) -> Mem<Vec<ToJsonSchemaError>>
    ensures { IfOk result (λ faults. faults.items
        ≡ faults_among (map (annotated_tree (node_of decl_tree)) decls.now)) }
{
    let of_entities = entities_faults(alloc, decls)?;
    if !of_entities.is_empty() {
        return Ok(of_entities);
    }
    let mut faults = actions_faults(alloc, decls)?;
    if !faults.is_empty() {
        return Ok(faults);
    }
    if let Some(fault) = commons_fault(alloc, decls)? {
        faults.push(fault)?;
    }
    Ok(faults)
}

/// What is wrong with the declarations of a namespace, in order: with each of its entity types, or else with each of its
/// actions, or else with the first common type that is wrong. It fails only for want of memory.
pub fn faults_among(
    alloc: Global,
    decls: &Items<Annotated<Node<Declaration>>>,
) -> Mem<Vec<ToJsonSchemaError>>
    ensures faults { IfOk result (λ faults. faults.items
        ≡ faults_among (map (annotated_tree (node_of decl_tree)) decls.now)) }
    ensures sound { IfOk result (λ faults. (faults.items ≡ [])
        ↔ AreSound (map (annotated_tree (node_of decl_tree)) decls.now)) }
{
    find_faults(alloc, decls)
}

/// What is wrong with the declarations of each namespace, in order.
fn declaration_faults(alloc: Global, all: &Items<Gathered>) -> Mem<Vec<ToJsonSchemaError>>
    ensures { IfOk result (λ faults. faults.items ≡ declarations (map gathered_tree all.now)) }
{
    let mut faults = Vec::new(alloc);
    for gathered in all.iter() {
        let more = find_faults(alloc, &gathered.decls)?;
        push_all(more, &mut faults)?;
    }
    Ok(faults)
}

/// What is wrong with the names of namespaces, or else with their declarations.
fn find_all_faults(alloc: Global, all: &Items<Gathered>) -> Mem<Vec<ToJsonSchemaError>>
    ensures { IfOk result (λ faults. faults.items ≡ faults_of (map gathered_tree all.now)) }
{
    let faults = binding_faults(alloc, all)?;
    if !faults.is_empty() {
        return Ok(faults);
    }
    declaration_faults(alloc, all)
}

/// What is wrong with namespaces, in order: with the names that each declares, or else with the first named one that
/// stands again, or else with the declarations of each. It fails only for want of memory.
pub fn schema_faults(alloc: Global, all: &Items<Gathered>) -> Mem<Vec<ToJsonSchemaError>>
    ensures faults { IfOk result (λ faults. faults.items ≡ faults_of (map gathered_tree all.now)) }
    ensures declared { IfOk result (λ faults. (faults.items ≡ [])
        ↔ AreDeclared (map gathered_tree all.now)) }
{
    find_all_faults(alloc, all)
}
