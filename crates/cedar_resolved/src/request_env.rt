// SPDX-License-Identifier: Apache-2.0
ghost use Rattle.std.specs.Prelude.{◌≡◌, [], ◌∷◌, ◌++◌, MatchOption};
ghost use Rattle.std.specs.Iterator.{YieldsFirstBy, item_count};
ghost use Rattle.cedar_resolved.specs.Environments.{action_left, environment, environment_of, environments_left, environments_of, environments_of_all};

use crate::action::ValidatorActionId;
use cedar_data::{MapIter, SetIter};
use cedar_names::{EntityType, EntityUID};
use cedar_types::Type;

/// What a request may be of: which principals take which action on which resources in which context.
#[derive(Debug, Drop)]
pub enum RequestEnv<'a> {
    /// An action of the schema.
    DeclaredAction {
        /// The entity type of the principal.
        principal: &'a EntityType,
        /// The action.
        action: &'a EntityUID,
        /// The entity type of the resource.
        resource: &'a EntityType,
        /// The type of the context.
        context: &'a Type,
    },
}

/// The request environments of actions: for each action in order, for each of its principals in order, each of its
/// resources in order.
#[derive(Debug, Drop)]
pub struct EnvIter<'a> {
    current: Option<ActionEnvs<'a>>,
    actions: MapIter<'a, EntityUID, ValidatorActionId>,
}

/// The request environments of one action that are left.
#[derive(Debug, Drop)]
struct ActionEnvs<'a> {
    name: &'a EntityUID,
    action: &'a ValidatorActionId,
    principal: Option<&'a EntityType>,
    resources: SetIter<'a, EntityType>,
    principals: SetIter<'a, EntityType>,
}

impl<'a> ActionEnvs<'a> {
    /// All those of an action.
    fn of(name: &'a EntityUID, action: &'a ValidatorActionId) -> ActionEnvs<'a>
        ensures { action_left result ≡ environments_of (name.now, action.now) }
    {
        let mut principals = action.principals();
        let principal = principals.next();
        ActionEnvs {
            name,
            action,
            principal,
            resources: action.resources(),
            principals,
        }
    }

    /// The environment of the action with this principal and this resource.
    fn with(&self, principal: &'a EntityType, resource: &'a EntityType) -> RequestEnv<'a>
        ensures { environment result
            ≡ environment_of (self.now.name.now, self.now.action.now) principal.now resource.now }
    {
        RequestEnv::DeclaredAction {
            principal,
            action: self.name,
            resource,
            context: self.action.context(),
        }
    }

    /// The first that is left. An action without resources has none.
    fn take_first(&mut self) -> Option<RequestEnv<'a>>
        ensures { MatchOption result ((action_left self.old ≡ []) × (action_left self.new ≡ []))
            (λ env. action_left self.old ≡ environment env ∷ action_left self.new) }
    {
        let principal = self.principal?;
        if let Some(resource) = self.resources.next() {
            return Some(self.with(principal, resource));
        }
        self.principal = self.principals.next();
        self.resources = self.action.resources();
        let principal = self.principal?;
        match self.resources.next() {
            Some(resource) => Some(self.with(principal, resource)),
            None => None,
        }
    }
}

/// The first environment of the first action that has one, with the others of the action.
fn first_environment<'a>(
    actions: &mut MapIter<'a, EntityUID, ValidatorActionId>,
) -> Option<(RequestEnv<'a>, ActionEnvs<'a>)>
    ensures { MatchOption result ((environments_of_all actions.old ≡ []) × (actions.new ≡ []))
        (λ found. environments_of_all actions.old
        ≡ environment found.0 ∷ (action_left found.1 ++ environments_of_all actions.new)) }
{
    while let Some((name, action)) = actions.next() {
        let mut environments = ActionEnvs::of(name, action);
        if let Some(first) = environments.take_first() {
            return Some((first, environments));
        }
    }
    None
}

impl<'a> EnvIter<'a> {
    /// Those of these actions.
    pub(crate) fn of(actions: MapIter<'a, EntityUID, ValidatorActionId>) -> EnvIter<'a>
        ensures { environments_left result ≡ environments_of_all actions.entry }
    {
        EnvIter {
            current: None,
            actions,
        }
    }
}

impl<'a> Iterator for EnvIter<'a> {
    type Item = RequestEnv<'a>;

    ghost next_gives = { YieldsFirstBy environment environments_left };

    ghost remaining = { item_count environments_left };

    fn next(&mut self) -> Option<RequestEnv<'a>> {
        if let Some(current) = &mut self.current {
            if let Some(env) = current.take_first() {
                return Some(env);
            }
        }
        match first_environment(&mut self.actions) {
            Some((env, others)) => {
                self.current = Some(others);
                Some(env)
            }
            None => None,
        }
    }
}
