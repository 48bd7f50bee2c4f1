// SPDX-License-Identifier: Apache-2.0
ghost use Rattle.std.specs.Prelude.{IfSome};
ghost use Rattle.std.specs.List.{AllByRecursion};
ghost use Rattle.std.specs.Option.{option_map};
ghost use Rattle.cedar_convert_fragment.specs.Views.{action_seen, actions_seen, apply_seen, common_seen, commons_seen, entities_seen, entity_seen, kind_seen, type_seen};
ghost use Rattle.cedar_in_order.specs.InOrder.{ByNameInOrder, InOrder, TypeInOrder};
ghost use Rattle.cedar_reread.specs.EachType.{EachOfAction, EachOfEntity};

use crate::types::{annotations_in_order, type_in_order};
use cedar_data::{Map, Text};
use cedar_fragment::{
    ActionType, ApplySpec, CommonType, CommonTypeId, EntityType, EntityTypeKind, RawName,
    SchemaType,
};
use cedar_names::UnreservedId;

/// A law: the maps of a common type ascend at every depth. It changes nothing when it runs.
fn common_type_in_order(common: &CommonType<RawName>)
    ensures annotations { InOrder (common_seen common.now).annotations }
    ensures ty { TypeInOrder (common_seen common.now).content }
{
    annotations_in_order(&common.annotations);
    type_in_order(&common.ty);
}

/// The same of common types by name.
#[tactic(auto, using(crate::proofs::DeclarationsSeen::each_declaration))]
pub(crate) fn common_types_in_order(common_types: &Map<CommonTypeId, CommonType<RawName>>)
    ensures maps { ByNameInOrder (commons_seen common_types.now) }
    ensures types { AllByRecursion (λ e. TypeInOrder e.1.content) (commons_seen common_types.now) }
{
    for (_, common) in common_types.iter() {
        common_type_in_order(common);
    }
}

/// The same of the type of tags, if there is one.
fn tags_in_order(tags: &Option<SchemaType<RawName>>)
    ensures { IfSome (option_map type_seen tags.now) TypeInOrder }
{
    if let Some(ty) = tags {
        type_in_order(ty);
    }
}

/// The same of a kind of entity type.
fn kind_in_order(kind: &EntityTypeKind<RawName>)
    ensures { EachOfEntity TypeInOrder (kind_seen kind.now) }
{
    match kind {
        EntityTypeKind::Standard(standard) => {
            type_in_order(&standard.shape.0);
            tags_in_order(&standard.tags);
        }
        EntityTypeKind::Enum { choices: _ } => (),
    }
}

/// The same of an entity type.
fn entity_type_in_order(entity: &EntityType<RawName>)
    ensures annotations { InOrder (entity_seen entity.now).annotations }
    ensures types { EachOfEntity TypeInOrder (entity_seen entity.now).content }
{
    annotations_in_order(&entity.annotations);
    kind_in_order(&entity.kind);
}

/// The same of entity types by name.
#[tactic(auto, using(crate::proofs::DeclarationsSeen::each_declaration))]
pub(crate) fn entity_types_in_order(entity_types: &Map<UnreservedId, EntityType<RawName>>)
    ensures maps { ByNameInOrder (entities_seen entity_types.now) }
    ensures types { AllByRecursion (λ e. EachOfEntity TypeInOrder e.1.content)
        (entities_seen entity_types.now) }
{
    for (_, entity) in entity_types.iter() {
        entity_type_in_order(entity);
    }
}

/// The same of what an action applies to, if that is said.
fn applies_to_in_order(applies_to: &Option<ApplySpec<RawName>>)
    ensures { IfSome (option_map apply_seen applies_to.now)
        (λ applies. TypeInOrder applies.context) }
{
    if let Some(applies) = applies_to {
        type_in_order(&applies.context.0);
    }
}

/// The same of an action.
fn action_in_order(action: &ActionType<RawName>)
    ensures annotations { InOrder (action_seen action.now).annotations }
    ensures types { EachOfAction TypeInOrder (action_seen action.now).content }
{
    annotations_in_order(&action.annotations);
    applies_to_in_order(&action.applies_to);
}

/// The same of actions by name.
#[tactic(auto, using(crate::proofs::DeclarationsSeen::each_declaration))]
pub(crate) fn actions_in_order(actions: &Map<Text, ActionType<RawName>>)
    ensures maps { ByNameInOrder (actions_seen actions.now) }
    ensures types { AllByRecursion (λ e. EachOfAction TypeInOrder e.1.content)
        (actions_seen actions.now) }
{
    for (_, action) in actions.iter() {
        action_in_order(action);
    }
}
