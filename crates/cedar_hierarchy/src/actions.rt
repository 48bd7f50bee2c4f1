// SPDX-License-Identifier: Apache-2.0
ghost use Rattle.std.specs.Prelude.{◌≡◌, [], map, IfOk};
ghost use Rattle.std.specs.List.{AllZip};
ghost use Rattle.std.specs.Map.{keys_of};
ghost use Rattle.cedar_closure.specs.Closure.{IsAcyclic, IsClosure, IsLeastOnCycle};
ghost use Rattle.cedar_data.specs.Firsts.{IsLeast};
ghost use Rattle.cedar_outlines.specs.of_declared.Held.{names_of};
ghost use Rattle.cedar_hierarchy.specs.Made.{MakesAction, context_at_use};
ghost use Rattle.cedar_hierarchy.specs.Nodes.{IsActionNode, TellsCycle};
ghost use Rattle.cedar_hierarchy.specs.Outlined.{ActionOutlineDescends};
ghost use Rattle.cedar_hierarchy.specs.Parents.{is_action_parent};
ghost use Rattle.cedar_hierarchy.specs.Targets.{AreMeant};
ghost use Rattle.cedar_hierarchy.specs.Uses.{type_at_use};
ghost use Rattle.cedar_names.specs.declared.entity_uid.EntityUID.{EntityUID};
ghost use Rattle.cedar_resolved.specs.Schemas.{action_descendants, action_name, action_with};
ghost use Rattle.cedar_resolved.specs.Schemas as resolved;
ghost use Rattle.cedar_schema_error.specs.FullNames.{Uid, uid_cmp};
ghost use Rattle.cedar_schema_error.specs.KeptDeclarations.{KeepsAmong, placed_action};
ghost use Rattle.cedar_schema_error.specs.Refusals.{CycleInActionHierarchy};
ghost use Rattle.cedar_schema_error.specs.Told.{told};
ghost use Rattle.cedar_schema_error.specs.declared.use_place.UsePlace.TheVariants.{Context};
ghost use Rattle.cedar_outlines.specs.Outlines.{action_outline_in};
ghost use Rattle.cedar_text.specs.Failures.{IfRefused};

use crate::children::{Children, children_of};
use crate::gathered::{HasParents, gather};
use crate::searches::Searches;
use crate::targets::all_meant;
use crate::uses::{Uses, copy_at};
use cedar_closure::close_map;
use cedar_data::{Dup, Failure, Map, Mem, Near, Out, Set};
use cedar_names::{EntityType, EntityUID};
use cedar_outlines::{ActionOutline, AllDefs};
use cedar_resolved::ValidatorActionId;
use cedar_schema_error::{SchemaError, UsePlace};
use cedar_types::{Attributes, OpenTag, Type};
use cedar_written::ConditionalName;
use std::alloc::Global;

impl HasParents<EntityUID> for ActionOutline {
    ghost is_parent = { is_action_parent };

    fn parents(&self, alloc: Global, all_defs: &AllDefs) -> Mem<Set<EntityUID>> {
        all_meant(alloc, all_defs, &self.parents)
    }
}

/// The entity types that references mean, but for those with the component `__cedar`.
fn types_meant(
    alloc: Global,
    all_defs: &AllDefs,
    references: &Set<ConditionalName>,
) -> Mem<Set<EntityType>>
    ensures { IfOk result (AreMeant (names_of all_defs.now) references.now) }
{
    let types = all_meant(alloc, all_defs, references)?;
    Ok(types)
}

/// The type of the context of an action, where a use tells it.
fn told_context(alloc: Global, uid: &EntityUID, uses: &Uses, near: &mut Near) -> Mem<Option<Type>>
    ensures { IfOk result (λ ty. ty ≡ type_at_use uses.now (Context uid.now)) }
{
    let place = UsePlace::Context(uid.dup(alloc)?);
    copy_at(alloc, uses, near, &place)
}

/// The type of the context of an action: an empty record where no use tells it.
fn context_of(alloc: Global, uid: &EntityUID, uses: &Uses, near: &mut Near) -> Mem<Type>
    ensures { IfOk result (λ ty. ty ≡ context_at_use (type_at_use uses.now (Context uid.now))) }
{
    match told_context(alloc, uid, uses, near)? {
        Some(ty) => Ok(ty),
        None => {
            let none = Attributes::none(alloc)?;
            Type::record_with_attributes(alloc, none, OpenTag::ClosedAttributes)
        }
    }
}

/// The action of an outline, under its id, with its children as descendants.
fn action_node(
    alloc: Global,
    all_defs: &AllDefs,
    uid: EntityUID,
    outline: ActionOutline,
    children: &Children<EntityUID>,
    uses: &Uses,
    searches: &mut Searches,
) -> Mem<(EntityUID, ValidatorActionId)>
    ensures { IfOk result
        (IsActionNode (names_of all_defs.now) children.now uses.now (uid, outline)) }
{
    let principals = types_meant(alloc, all_defs, &outline.applies_to.principal_apply_spec)?;
    let resources = types_meant(alloc, all_defs, &outline.applies_to.resource_apply_spec)?;
    let descendants = children_of(alloc, &uid, children, &mut searches.children)?;
    let context = context_of(alloc, &uid, uses, &mut searches.contexts)?;
    let key = uid.dup(alloc)?;
    let ActionOutline {
        parents: _,
        applies_to: _,
        attribute_types,
        attributes,
        loc,
    } = outline;
    let action = ValidatorActionId::from_parts(
        uid,
        principals,
        resources,
        descendants,
        context,
        attribute_types,
        attributes,
        loc,
    );
    Ok((key, action))
}

/// The actions of outlines, each with its children as descendants.
fn action_nodes(
    alloc: Global,
    all_defs: &AllDefs,
    outlines: Map<EntityUID, ActionOutline>,
    children: &Children<EntityUID>,
    uses: &Uses,
) -> Mem<Map<EntityUID, ValidatorActionId>>
    ensures { IfOk result
        (AllZip (IsActionNode (names_of all_defs.now) children.now uses.now) outlines) }
{
    let mut nodes = Map::with_room(alloc, outlines.len())?;
    let mut searches = Searches::none();
    for (uid, outline) in outlines.into_entries() {
        let (key, action) = action_node(
            alloc,
            all_defs,
            uid,
            outline,
            children,
            uses,
            &mut searches,
        )?;
        nodes.push_last(key, action)?;
    }
    Ok(nodes)
}

/// The same actions with all that descend from them; refused with the least that descends from itself.
fn close_actions(
    alloc: Global,
    nodes: Map<EntityUID, ValidatorActionId>,
) -> Out<Map<EntityUID, ValidatorActionId>, SchemaError>
    ensures closed { IfOk result
        (IsClosure resolved.uid_cmp action_name action_descendants (action_with []) nodes) }
    ensures acyclic { IfOk result (λ _. IsAcyclic resolved.uid_cmp action_descendants nodes) }
    ensures refused { IfRefused result (TellsCycle nodes) }
{
    match close_map(alloc, nodes, true) {
        Ok(closed) => Ok(closed),
        Err(Failure::Refused(error)) => Err(Failure::Refused(SchemaError::from(error))),
        Err(Failure::NoMemory) => Err(Failure::NoMemory),
    }
}

/// The actions of a resolved schema, each with all that descends from it: those of the outlines, with the types that
/// their contexts unfold to. Refused with the least action that descends from itself, as it is declared, with its place.
pub fn resolved_actions(
    alloc: Global,
    all_defs: &AllDefs,
    outlines: Map<EntityUID, ActionOutline>,
    uses: &Map<UsePlace, Type>,
) -> Out<Map<EntityUID, ValidatorActionId>, SchemaError>
    ensures made { IfOk result
        (AllZip (MakesAction (names_of all_defs.now)
        (map action_outline_in outlines) uses.now) outlines) }
    ensures acyclic { IfOk result (λ _. (uid : Uid)
        → ActionOutlineDescends (names_of all_defs.now) (map action_outline_in outlines) uid uid
        → ⊥) }
    ensures refused { IfRefused result (λ e. (uid : Uid) × (told e ≡ CycleInActionHierarchy uid)
        × IsLeast uid_cmp
        (λ u. ActionOutlineDescends (names_of all_defs.now)
        (map action_outline_in outlines) u u) uid) }
    ensures kept { IfRefused result (KeepsAmong [] (map placed_action (keys_of outlines))) }
{
    let children = gather(alloc, all_defs, &outlines)?;
    let nodes = action_nodes(alloc, all_defs, outlines, &children, uses)?;
    close_actions(alloc, nodes)
}
