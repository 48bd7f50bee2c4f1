// SPDX-License-Identifier: Apache-2.0
ghost use Rattle.std.specs.Prelude.{◌≡◌, ◌↔◌, ◌++◌, [], flat_map, option_map, option_to_list, IfOk, OnOk};
ghost use Rattle.cedar_names.specs.Identifiers.{id_word};
ghost use Rattle.cedar_tree.specs.Meanings.{context_tree, entity_tree, node_of, type_tree};
ghost use Rattle.cedar_tree.specs.Trees.{Entity};
ghost use Rattle.cedar_convert_faults.specs.Bindings.{entity_names};
ghost use Rattle.cedar_convert_faults.specs.Conditions.{HasNoRepeat};
ghost use Rattle.cedar_convert_faults.specs.Faults.{entity_faults, entity_repeat, reserved_name, reserved_names};
ghost use Rattle.cedar_convert_faults.specs.TypeRepeats.{leftmost_repeat, repeat_fault, shape_repeat};

use crate::attributes::{leftmost_repeat, repeat_among};
use crate::repeats::Repeat;
use cedar_convert_errors::{DuplicateAttribute, ReservedName, ToJsonSchemaError};
use cedar_data::{Boxed, Dup, Mem};
use cedar_text::{Node, is_cedar};
use cedar_tree::{ContextDecl, EntityDecl, Id, Type};
use std::alloc::Global;

/// The fault of a repeat, if there is one.
fn repeat_fault(repeat: Option<Repeat>) -> Option<ToJsonSchemaError>
    ensures { option_to_list result ≡ repeat_fault repeat }
{
    match repeat {
        None => None,
        Some(repeat) => {
            let Repeat {
                name,
                first,
                second,
            } = repeat;
            Some(ToJsonSchemaError::DuplicateAttribute(DuplicateAttribute {
                name,
                loc1: first,
                loc2: second,
            }))
        }
    }
}

/// The leftmost repeat of a type, if it has one.
pub(crate) fn find_repeat(alloc: Global, ty: &Type) -> Mem<Option<ToJsonSchemaError>>
    ensures { IfOk result (λ fault. option_to_list fault
        ≡ repeat_fault (leftmost_repeat (type_tree ty.now))) }
{
    let repeat = leftmost_repeat(alloc, ty)?;
    Ok(repeat_fault(repeat))
}

/// The leftmost repeat of a type, if it has one. It fails only for want of memory.
pub fn type_fault(alloc: Global, ty: &Type) -> Mem<Option<ToJsonSchemaError>>
    ensures fault { IfOk result (λ fault. option_to_list fault
        ≡ repeat_fault (leftmost_repeat (type_tree ty.now))) }
    ensures once { IfOk result (λ fault. (option_to_list fault ≡ [])
        ↔ HasNoRepeat (type_tree ty.now)) }
{
    find_repeat(alloc, ty)
}

/// The leftmost repeat of a context or a shape, if it has one.
pub(crate) fn shape_fault(alloc: Global, shape: &ContextDecl) -> Mem<Option<ToJsonSchemaError>>
    ensures { IfOk result (λ fault. option_to_list fault
        ≡ repeat_fault (shape_repeat (context_tree shape.now))) }
{
    match shape {
        ContextDecl::Path(_) => Ok(None),
        ContextDecl::Record(attrs) => {
            let repeat = repeat_among(alloc, &attrs.node)?;
            Ok(repeat_fault(repeat))
        }
    }
}

/// The leftmost repeat of the type of tags, if there is one.
fn tags_fault(alloc: Global, tags: &Option<Boxed<Node<Type>>>) -> Mem<Option<ToJsonSchemaError>>
    ensures { IfOk result (λ fault. option_to_list fault
        ≡ flat_map (λ t. repeat_fault (leftmost_repeat t.node))
        (option_to_list (option_map (node_of type_tree) tags.now))) }
{
    match tags {
        None => Ok(None),
        Some(ty) => find_repeat(alloc, &ty.get().node),
    }
}

/// The leftmost repeat of a shape, or else of the type of tags, if there is one.
fn entity_repeat(alloc: Global, entity: &EntityDecl) -> Mem<Option<ToJsonSchemaError>>
    ensures { IfOk result (λ fault. option_to_list fault ≡ entity_repeat (entity_tree entity.now)) }
{
    let EntityDecl::Standard(standard) = entity else {
        return Ok(None);
    };
    if let Some(fault) = shape_fault(alloc, &standard.attrs)? {
        return Ok(Some(fault));
    }
    tags_fault(alloc, &standard.tags)
}

/// The name, as one that is kept for the language.
pub(crate) fn reserved_name(alloc: Global, name: &Node<Id>) -> Mem<ToJsonSchemaError>
    ensures { IfOk result (λ fault. fault ≡ reserved_name (node_of id_word name.now)) }
{
    let loc = name.loc.dup(alloc)?;
    let name = name.node.as_text().dup(alloc)?;
    Ok(ToJsonSchemaError::ReservedName(ReservedName { name, loc }))
}

/// Puts each name of these entity types that is `__cedar` behind the others.
fn add_reserved_names(
    alloc: Global,
    entity: &EntityDecl,
    faults: &mut Vec<ToJsonSchemaError>,
) -> Mem<()>
    ensures { OnOk result (faults.new.items
        ≡ faults.old.items ++ reserved_names (entity_names (Entity (entity_tree entity.now)))) }
{
    for name in entity.names() {
        if is_cedar(name.node.as_ref()) {
            let fault = reserved_name(alloc, name)?;
            faults.push(fault)?;
        }
    }
    Ok(())
}

/// Puts what is wrong with entity types behind the others: their leftmost repeat, or else each name that is `__cedar`.
pub(crate) fn add_entity_faults(
    alloc: Global,
    entity: &EntityDecl,
    faults: &mut Vec<ToJsonSchemaError>,
) -> Mem<()>
    ensures { OnOk result (faults.new.items
        ≡ faults.old.items ++ entity_faults (Entity (entity_tree entity.now))) }
{
    match entity_repeat(alloc, entity)? {
        Some(fault) => {
            faults.push(fault)?;
            Ok(())
        }
        None => add_reserved_names(alloc, entity, faults),
    }
}
