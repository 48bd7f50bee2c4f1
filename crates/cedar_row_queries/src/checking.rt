// SPDX-License-Identifier: Apache-2.0
ghost use Rattle.std.specs.Prelude.{◌≡◌};
ghost use Rattle.cedar_resolved.specs.Environments.{applies};

use cedar_data::{Failure, Mem, NoMemory, Out};
use cedar_names::{EntityType, EntityUID, NameFault};
use cedar_resolved::{RequestEnv, ValidatorSchema};
use cedar_row_trees::line_of;
use std::alloc::Global;

/// Whether the schema knows such a request: the action applies to the principal's type and to the resource's.
fn is_known(
    schema: &ValidatorSchema,
    principal: &EntityType,
    action: &EntityUID,
    resource: &EntityType,
) -> bool
    ensures { result ≡ applies schema.now principal.now action.now resource.now }
{
    match schema.get_action_id(action) {
        Some(found) => {
            found.is_applicable_principal_type(principal)
                && found.is_applicable_resource_type(resource)
        }
        None => false,
    }
}

/// Whether each principal of each request has an attribute of this name.
fn all_principals_have(schema: &ValidatorSchema, name: &str) -> bool {
    for env in schema.unlinked_request_envs() {
        let RequestEnv::DeclaredAction { principal, .. } = env;
        let found = schema.get_entity_type(principal);
        if found.and_then(|ty| ty.attr(name)).is_none() {
            return false;
        }
    }
    true
}

/// `ATTRIBUTE` or `PRINCIPAL ACTION RESOURCE`: what a small checker says of the schema: whether each principal of each
/// request has such an attribute, or whether it knows such requests.
pub fn checked(alloc: Global, words: &[&str], schema: &ValidatorSchema) -> Mem<String> {
    match words {
        [name] => line_of(alloc, answer_told(all_principals_have(schema, name))),
        [principal, action, resource] => match asked(alloc, schema, principal, action, resource) {
            Ok(is_known) => line_of(alloc, answer_told(is_known)),
            Err(Failure::Refused(_)) => line_of(alloc, "no request"),
            Err(Failure::NoMemory) => Err(NoMemory),
        },
        _ => line_of(alloc, "no question"),
    }
}

/// Whether a schema knows the request of these texts.
fn asked(
    alloc: Global,
    schema: &ValidatorSchema,
    principal: &str,
    action: &str,
    resource: &str,
) -> Out<bool, NameFault> {
    let principal = EntityType::from_normalized_str(alloc, principal)?;
    let action = EntityUID::from_normalized_str(alloc, action)?;
    let resource = EntityType::from_normalized_str(alloc, resource)?;
    Ok(is_known(schema, &principal, &action, &resource))
}

fn answer_told(is_so: bool) -> &'static str {
    if is_so { "yes" } else { "no" }
}
