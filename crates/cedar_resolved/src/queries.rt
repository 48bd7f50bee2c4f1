// SPDX-License-Identifier: Apache-2.0
ghost use Rattle.std.specs.Prelude.{◌≡◌, IfSome, is_some};
ghost use Rattle.std.specs.Map.{values_of};
ghost use Rattle.std.specs.Option.{option_copied, option_map};
ghost use Rattle.cedar_resolved.specs.Environments.{environments_left, environments_of_all};
ghost use Rattle.cedar_resolved.specs.Queries.{ancestors_left, ancestors_of, groups_left, groups_of, principals_left, principals_of, resources_left, resources_of};
ghost use Rattle.cedar_resolved.specs.Schemas.{action_at, action_context, action_principals, action_resources, action_types, type_at};

use crate::action::ValidatorActionId;
use crate::ancestors::{AncestorIter, GroupIter};
use crate::applicable::{PrincipalIter, ResourceIter};
use crate::entity_type::ValidatorEntityType;
use crate::request_env::EnvIter;
use crate::schema::ValidatorSchema;
use cedar_data::SetIter;
use cedar_names::{EntityType, EntityUID};
use cedar_types::Type;

impl ValidatorSchema {
    /// The entity type of this name, if the schema has it.
    pub fn get_entity_type(&self, ty: &EntityType) -> Option<&ValidatorEntityType>
        ensures { option_copied result ≡ type_at self.now ty.now }
    {
        self.by_type().get(ty)
    }

    /// The action of this name, if the schema has it.
    pub fn get_action_id(&self, action_id: &EntityUID) -> Option<&ValidatorActionId>
        ensures { option_copied result ≡ action_at self.now action_id.now }
    {
        self.by_action().get(action_id)
    }

    /// The entity types of the principals of an action, in order, if the schema has the action.
    pub fn principals_for_action(&self, action: &EntityUID) -> Option<SetIter<'_, EntityType>>
        ensures { result ≡ option_map action_principals (action_at self.now action.now) }
    {
        match self.get_action_id(action) {
            Some(found) => Some(found.principals()),
            None => None,
        }
    }

    /// The entity types of the resources of an action, in order, if the schema has the action.
    pub fn resources_for_action(&self, action: &EntityUID) -> Option<SetIter<'_, EntityType>>
        ensures { result ≡ option_map action_resources (action_at self.now action.now) }
    {
        match self.get_action_id(action) {
            Some(found) => Some(found.resources()),
            None => None,
        }
    }

    /// The type of the context of an action, if the schema has the action.
    pub fn context_type(&self, action: &EntityUID) -> Option<&Type>
        ensures { option_copied result ≡ option_map action_context (action_at self.now action.now) }
    {
        match self.get_action_id(action) {
            Some(found) => Some(found.context()),
            None => None,
        }
    }

    /// The entity types of the principals of each action, in order, so that a type may come again.
    pub fn principals(&self) -> PrincipalIter<'_>
        ensures { principals_left result ≡ principals_of (values_of (action_types self.now)) }
    {
        PrincipalIter::of(self.action_ids())
    }

    /// The entity types of the resources of each action, in order, so that a type may come again.
    pub fn resources(&self) -> ResourceIter<'_>
        ensures { resources_left result ≡ resources_of (values_of (action_types self.now)) }
    {
        ResourceIter::of(self.action_ids())
    }

    /// The entity types that have this one among their descendants, in order, if the schema has it.
    pub fn ancestors<'a>(&'a self, ty: &'a EntityType) -> Option<AncestorIter<'a>>
        ensures declared { is_some result ≡ is_some (type_at self.now ty.now) }
        ensures all { IfSome result (λ it. ancestors_left it ≡ ancestors_of self.now ty.now) }
    {
        match self.get_entity_type(ty) {
            Some(_) => Some(AncestorIter::of(ty, self.by_type().iter())),
            None => None,
        }
    }

    /// The actions that have descendants, in order.
    pub fn action_groups(&self) -> GroupIter<'_>
        ensures { groups_left result ≡ groups_of (action_types self.now) }
    {
        GroupIter::of(self.by_action().iter())
    }

    /// The request environments: for each action in order, for each of its principals in order, each of its resources
    /// in order.
    pub fn unlinked_request_envs(&self) -> EnvIter<'_>
        ensures { environments_left result ≡ environments_of_all (action_types self.now) }
    {
        EnvIter::of(self.by_action().iter())
    }
}
