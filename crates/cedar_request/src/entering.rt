// SPDX-License-Identifier: Apache-2.0
ghost use Rattle.std.specs.Prelude.{◌≡◌, map, Ok, IfOk};
ghost use Rattle.cedar_written.specs.Answers.{and_then};
ghost use Rattle.cedar_conform.specs.of_checks.SchemaViews.{action_in, action_of, schema_in};
ghost use Rattle.cedar_schema_error.specs.FullNames.{uid_in};
ghost use Rattle.cedar_names.specs.Names.{entity_words};
ghost use Rattle.cedar_conform.specs.Checks.{Tells, passed};
ghost use Rattle.cedar_conform.specs.ValueChecks.{known_check};
ghost use Rattle.cedar_resolved.specs.Schemas.{action_types};
ghost use Rattle.cedar_request.specs.Counts.{AreCounted, HasPlaces};
ghost use Rattle.cedar_request.specs.Numbers.{size_before};
ghost use Rattle.cedar_request.specs.PartViews.{parts_in};
ghost use Rattle.cedar_request.specs.RequestChecks.{Says, action_check, context_check, entity_known, environment_check, principal_check, resource_check, type_check};
ghost use Rattle.cedar_request.specs.RequestFlaws.{no_principal, no_resource};
ghost use Rattle.cedar_request.specs.Requests.{in_64_bits};

use crate::environments::{Counted, number_of};
use crate::fault::RequestFault;
use crate::parts::Parts;
use crate::refusing::{of_value, refuse};
use cedar_conform::{Fault, conforms_value, known, under, under_place};
use cedar_data::{Dup, Map, Out, dup_two};
use cedar_names::{EntityType, EntityUID};
use cedar_resolved::{ValidatorActionId, ValidatorSchema};
use std::alloc::Global;

/// The action of this name, among those of the schema.
#[tactic(auto, using(crate::proofs::Counting::named, crate::proofs::Actions::actions))]
fn action_named<'m, 'a>(
    alloc: Global,
    schema: &ValidatorSchema,
    counted: &'m Map<EntityUID, Counted<'a>>,
    place: usize,
    uid: &EntityUID,
) -> Out<&'m Counted<'a>, RequestFault>
    requires { AreCounted schema.now counted.now }
    ensures action { Says (λ found. action_of found.now.action.now) result
        (action_check (schema_in schema.now) place (uid_in uid.now)) }
    ensures before { IfOk result (λ found. found.now.before
        ≡ in_64_bits (size_before (map action_in (action_types schema.now)) (uid_in uid.now))) }
    ensures places { IfOk result (λ found. HasPlaces found.now) }
{
    let Some(found) = counted.get(uid) else {
        let uid = uid.dup(alloc)?;
        return refuse(RequestFault::UnknownAction {
            at: place as u64,
            uid,
        });
    };
    Ok(found)
}

/// Refuses an entity that the schema doesn't know.
fn check_known(alloc: Global, schema: &ValidatorSchema, uid: &EntityUID) -> Out<(), Fault>
    ensures { Tells passed result
        (and_then (known_check (schema_in schema.now) (uid_in uid.now)) (λ ty. Ok tt)) }
{
    known(alloc, schema, uid)?;
    Ok(())
}

/// Refuses an entity at the key that the schema doesn't know.
fn check_known_at(
    alloc: Global,
    schema: &ValidatorSchema,
    place: usize,
    key: &str,
    uid: &EntityUID,
) -> Out<(), RequestFault>
    ensures { Says passed result
        (entity_known (schema_in schema.now) place key.now (uid_in uid.now)) }
{
    let checked = under(alloc, key, check_known(alloc, schema, uid));
    of_value(under_place(alloc, place, checked))
}

/// Refuses a type of principals that the action isn't for: `action` is its name.
#[tactic(auto, using(crate::proofs::Actions::actions))]
fn check_principal_type(
    alloc: Global,
    place: usize,
    action: &EntityUID,
    found: &ValidatorActionId,
    ty: &EntityType,
) -> Out<(), RequestFault>
    ensures { Says passed result (type_check (action_of found.now).principals (entity_words ty.now)
        (no_principal place (uid_in action.now) (entity_words ty.now))) }
{
    if found.is_applicable_principal_type(ty) {
        return Ok(());
    }
    let (action, ty) = dup_two(alloc, action, ty)?;
    refuse(RequestFault::PrincipalNotAllowed {
        at: place as u64,
        action,
        ty,
    })
}

/// Refuses a type of resources that the action isn't for: `action` is its name.
#[tactic(auto, using(crate::proofs::Actions::actions))]
fn check_resource_type(
    alloc: Global,
    place: usize,
    action: &EntityUID,
    found: &ValidatorActionId,
    ty: &EntityType,
) -> Out<(), RequestFault>
    ensures { Says passed result (type_check (action_of found.now).resources (entity_words ty.now)
        (no_resource place (uid_in action.now) (entity_words ty.now))) }
{
    if found.is_applicable_resource_type(ty) {
        return Ok(());
    }
    let (action, ty) = dup_two(alloc, action, ty)?;
    refuse(RequestFault::ResourceNotAllowed {
        at: place as u64,
        action,
        ty,
    })
}

/// Refuses a principal that the action isn't for, or that the schema doesn't know.
#[tactic(auto, using(crate::proofs::Said::said), unfolding(crate::specs::RequestChecks::principal_check))]
fn check_principal(
    alloc: Global,
    schema: &ValidatorSchema,
    place: usize,
    parts: &Parts<'_>,
    found: &ValidatorActionId,
) -> Out<(), RequestFault>
    ensures { Says passed result (principal_check (schema_in schema.now) place (parts_in parts.now)
        (action_of found.now)) }
{
    check_principal_type(
        alloc,
        place,
        &parts.action,
        found,
        parts.principal.entity_type(),
    )?;
    check_known_at(alloc, schema, place, "principal", &parts.principal)
}

/// Refuses a resource that the action isn't for, or that the schema doesn't know.
#[tactic(auto, using(crate::proofs::Said::said), unfolding(crate::specs::RequestChecks::resource_check))]
fn check_resource(
    alloc: Global,
    schema: &ValidatorSchema,
    place: usize,
    parts: &Parts<'_>,
    found: &ValidatorActionId,
) -> Out<(), RequestFault>
    ensures { Says passed result (resource_check (schema_in schema.now) place (parts_in parts.now)
        (action_of found.now)) }
{
    check_resource_type(
        alloc,
        place,
        &parts.action,
        found,
        parts.resource.entity_type(),
    )?;
    check_known_at(alloc, schema, place, "resource", &parts.resource)
}

/// Refuses a context that doesn't fit its type.
fn check_context(
    alloc: Global,
    schema: &ValidatorSchema,
    place: usize,
    parts: &Parts<'_>,
    found: &ValidatorActionId,
) -> Out<(), RequestFault>
    ensures { Says passed result (context_check (schema_in schema.now) place (parts_in parts.now)
        (action_of found.now)) }
{
    let checked = conforms_value(alloc, schema, parts.context, found.context());
    of_value(under_place(alloc, place, under(alloc, "context", checked)))
}

/// The number of the environment in which the request is, in 64 bits: `counted` has the actions of the schema.
#[tactic(auto, using(crate::proofs::Said::said, crate::proofs::Counting::numbers), unfolding(crate::specs::RequestChecks::environment_check))]
pub(crate) fn enter(
    alloc: Global,
    schema: &ValidatorSchema,
    counted: &Map<EntityUID, Counted<'_>>,
    place: usize,
    parts: &Parts<'_>,
) -> Out<u64, RequestFault>
    requires { AreCounted schema.now counted.now }
    ensures { Says (λ n. n) result
        (environment_check (schema_in schema.now) place (parts_in parts.now)) }
{
    let found = action_named(alloc, schema, counted, place, &parts.action)?;
    check_principal(alloc, schema, place, parts, found.action)?;
    check_resource(alloc, schema, place, parts, found.action)?;
    check_context(alloc, schema, place, parts, found.action)?;
    let principal = parts.principal.entity_type();
    let resource = parts.resource.entity_type();
    Ok(number_of(found, principal, resource))
}
