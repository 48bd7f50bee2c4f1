// SPDX-License-Identifier: Apache-2.0
ghost use Rattle.std.specs.Prelude.{◌≡◌, count_by};
ghost use Rattle.cedar_data.specs.Sets.{contains};
ghost use Rattle.cedar_names.specs.Names.{entity_cmp};
ghost use Rattle.cedar_names.specs.declared.entity_uid.EntityUID.{EntityUID};
ghost use Rattle.cedar_names.specs.declared.name.EntityType.{EntityType};
ghost use Rattle.cedar_resolved.specs.Environments.{ActionsInOrder, applies, environments_of_all, is_of, one_if};
ghost use Rattle.cedar_resolved.specs.Queries.{ancestors_of, is_ancestor};
ghost use Rattle.cedar_resolved.specs.Schemas.{action_types};

use crate::schema::ValidatorSchema;

/// A law: the ancestors of an entity type are exactly the entity types of the schema that have it among their
/// descendants. It changes nothing.
pub fn ancestors_descend(schema: &ValidatorSchema)
    ensures { (ty above : EntityType)
        → contains entity_cmp (ancestors_of schema.now ty) above ≡ is_ancestor schema.now above ty }
{
    schema.by_type().iter();
}

/// A law: an action with one of its principals and one of its resources stands once among the request environments,
/// and any other three don't stand there. It changes nothing.
pub fn environments_once(schema: &ValidatorSchema)
    ensures { (principal : EntityType) (action : EntityUID) (resource : EntityType)
        → count_by (is_of principal action resource) (environments_of_all (action_types schema.now))
        ≡ one_if (applies schema.now principal action resource) }
{
    see_order(schema);
}

/// The actions of a schema are in order, and so are their principals and resources. It changes nothing.
fn see_order(schema: &ValidatorSchema)
    ensures { ActionsInOrder schema.now }
{
    for (_, action) in schema.by_action().iter() {
        action.principals();
        action.resources();
    }
}
