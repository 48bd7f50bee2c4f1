// SPDX-License-Identifier: Apache-2.0
ghost use Rattle.std.specs.Prelude.{◌≡◌, ◌++◌, map, IfOk, OnOk};
ghost use Rattle.std.specs.List.{flat_map};
ghost use Rattle.cedar_data.specs.Maps.{IsSortedMap, map_of, map_values};
ghost use Rattle.cedar_declared.specs.Gathering.{action_cmp};
ghost use Rattle.cedar_names.specs.Names.{entity_cmp, internal_cmp};
ghost use Rattle.cedar_tables.specs.Declarations.{action_places, common_types_of, entity_places};
ghost use Rattle.cedar_outlines.specs.Outlines.{action_outline, action_outline_in, action_place, entity_outline, entity_outline_in, entity_place, use_in};
ghost use Rattle.cedar_tables.specs.Splits.{action_outline_of, all_uses, outline_of, use_cmp, uses_kept};
ghost use Rattle.cedar_meaning.specs.DefinitionViews.{common_type_in, namespace_in};
ghost use Rattle.cedar_meaning.specs.Worlds.{actions_in, common_types_in, entity_types_in, uses_in};

use crate::declarations::{CommonType, Declarations, Definition};
use crate::splits::{ActionSplits, EntitySplits, Use};
use cedar_data::{Map, Mem};
use cedar_declared::{UsePlace, ValidatorNamespaceDef};
use cedar_names::InternalName;
use cedar_outlines::Tables;
use cedar_written::{ConditionalName, SchemaType};
use std::alloc::Global;

/// Puts uses behind the others.
fn append_uses(more: Vec<Use>, uses: &mut Vec<Use>) -> Mem<()>
    ensures { OnOk result (uses.new.items ≡ uses.old.items ++ more.items) }
{
    uses.reserve(more.len())?;
    for entry in more {
        uses.push(entry)?;
    }
    Ok(())
}

/// The uses of types by place, where these are shapes, types of tags, and contexts, each in order.
fn uses_by_place(
    alloc: Global,
    shapes: Vec<Use>,
    tags: Vec<Use>,
    contexts: Vec<Use>,
) -> Mem<Map<UsePlace, SchemaType<ConditionalName>>>
    requires { IsSortedMap use_cmp ((shapes.items ++ tags.items) ++ contexts.items) }
    ensures { IfOk result (λ uses. uses ≡ (shapes.items ++ tags.items) ++ contexts.items) }
{
    let mut uses = shapes;
    append_uses(tags, &mut uses)?;
    append_uses(contexts, &mut uses)?;
    Map::from_sorted(alloc, uses)
}

/// The tables of these common types and of what is parted.
fn joined(
    alloc: Global,
    common_types: Map<InternalName, SchemaType<ConditionalName>>,
    entities: EntitySplits,
    actions: ActionSplits,
) -> Mem<Tables>
    requires { IsSortedMap use_cmp
        ((entities.shapes.items ++ entities.tags.items) ++ actions.contexts.items) }
    ensures common_types { IfOk result (λ t. t.common_types ≡ common_types) }
    ensures uses { IfOk result (λ t. t.uses
        ≡ (entities.shapes.items ++ entities.tags.items) ++ actions.contexts.items) }
    ensures entity_types { IfOk result (λ t. t.entity_types ≡ entities.outlines) }
    ensures actions { IfOk result (λ t. t.actions ≡ actions.outlines) }
{
    let uses = uses_by_place(alloc, entities.shapes, entities.tags, actions.contexts)?;
    Ok(Tables {
        common_types,
        uses,
        entity_types: entities.outlines,
        actions: actions.outlines,
    })
}

/// The tables of what is declared. Of several of one name the last counts.
fn tables_from(alloc: Global, declared: Declarations) -> Mem<Tables>
    ensures common_types { IfOk result (λ t. t.common_types
        ≡ map_of internal_cmp declared.common_types.items) }
    ensures uses { IfOk result (λ t. t.uses ≡ all_uses
        (map_of entity_cmp declared.entity_types.items)
        (map_of action_cmp declared.actions.items)) }
    ensures entity_types { IfOk result (λ t. t.entity_types
        ≡ map_values outline_of (map_of entity_cmp declared.entity_types.items)) }
    ensures actions { IfOk result (λ t. t.actions
        ≡ map_values action_outline_of (map_of action_cmp declared.actions.items)) }
{
    let Declarations {
        common_types,
        entity_types,
        actions,
    } = declared;
    let entities = EntitySplits::new(alloc, entity_types)?;
    let actions = ActionSplits::new(alloc, actions)?;
    let common_types = Map::from_pairs(alloc, common_types)?;
    joined(alloc, common_types, entities, actions)
}

/// Definitions taken apart, without a copy of a type: the common types, the uses of types, and what
/// is left of entity types and actions. Of several of one name the last counts. It fails only for
/// want of memory.
#[tactic(auto, using(crate::proofs::Views::told))]
pub fn tables_of(
    alloc: Global,
    definitions: Vec<ValidatorNamespaceDef<ConditionalName, ConditionalName>>,
) -> Mem<Tables>
    ensures common_types { IfOk result (λ t. map common_type_in t.common_types
        ≡ common_types_in (map namespace_in definitions.items)) }
    ensures uses { IfOk result (λ t. map use_in t.uses
        ≡ uses_in (map namespace_in definitions.items)) }
    ensures entity_types { IfOk result (λ t. map entity_outline_in t.entity_types
        ≡ map entity_outline (entity_types_in (map namespace_in definitions.items))) }
    ensures actions { IfOk result (λ t. map action_outline_in t.actions
        ≡ map action_outline (actions_in (map namespace_in definitions.items))) }
    ensures entity_places { IfOk result (λ t. map entity_place t.entity_types
        ≡ map_of entity_cmp (flat_map entity_places definitions.items)) }
    ensures action_places { IfOk result (λ t. map action_place t.actions
        ≡ map_of action_cmp (flat_map action_places definitions.items)) }
    ensures kept_common_types { IfOk result (λ t. t.common_types
        ≡ map_of internal_cmp (common_types_of definitions.items)) }
    ensures kept_uses { IfOk result (λ t. t.uses ≡ uses_kept definitions.items) }
{
    let declared = Declarations::gather(alloc, definitions)?;
    tables_from(alloc, declared)
}
