// SPDX-License-Identifier: Apache-2.0
ghost use Rattle.std.specs.Prelude.{◌≡◌, [], map, unwrap_or, IfOk, OnOk};
ghost use Rattle.std.specs.BTreeMap.{insert_entry};
ghost use Rattle.std.specs.List.{flat_map};
ghost use Rattle.std.specs.Option.{option_copied, option_map};
ghost use Rattle.cedar_data.specs.Answers.{IfRefused};
ghost use Rattle.cedar_data.specs.Firsts.{IsFirst};
ghost use Rattle.cedar_data.specs.Sets.{set_of};
ghost use Rattle.cedar_names.specs.Components.{components};
ghost use Rattle.cedar_written.specs.Qualifying.{qualifying};
ghost use Rattle.cedar_fragment.specs.ActionUids.{over_conditional, over_raw};
ghost use Rattle.cedar_fragment.specs.Definitions.{through_action};
ghost use Rattle.cedar_namespace_definitions.specs.Orders.{conditional_cmp, parent_cmp};
ghost use Rattle.cedar_schema_error.specs.Told.{told};
ghost use Rattle.cedar_types.specs.Types.{attributes_of};
ghost use Rattle.cedar_namespace_definitions.specs.Definitions.{action_in, action_made, application_in, applied_in, context_in, distinct_application, no_values, parent_in, parents_in, sure, types_in, with_keys};
ghost use Rattle.cedar_namespace_definitions.specs.Faults.{action_faults};
ghost use Rattle.cedar_namespace_definitions.specs.NamesIn.{action_at, action_key, action_key_cmp, action_type_in, reserved_in};

use crate::action_attributes::types_in;
use crate::names::action_at;
use crate::sets::{distinct, set_of};
use cedar_data::{Dup, Items, Map, Mem, Out, Set, Text};
use cedar_definitions::{ActionFragment, ActionsDef, ValidatorApplySpec};
use cedar_fragment::{
    ActionEntityUID, ActionType, ApplySpec, AttributesOrContext, ConditionalName, Qualifying,
    RawName, SchemaType, ValueMap, walk_unrefused,
};
use cedar_names::EntityUID;
use cedar_schema_error::SchemaError;
use cedar_text::Loc;
use cedar_types::Attributes;
use std::alloc::Global;

/// The context of an action, and what it applies to, as sets.
fn application_in<N: Ord + Drop>(
    alloc: Global,
    applies_to: Option<ApplySpec<N>>,
) -> Mem<(SchemaType<N>, ValidatorApplySpec<N>)>
    ensures context { IfOk result (λ made. made.0 ≡ context_in applies_to) }
    ensures types { IfOk result (λ made. made.1 ≡ application_in N.cmp applies_to) }
{
    let Some(applies_to) = applies_to else {
        let context = AttributesOrContext::empty(alloc).into_inner();
        let applies_to = ValidatorApplySpec::new(Set::new(alloc), Set::new(alloc));
        return Ok((context, applies_to));
    };
    let ApplySpec {
        resource_types,
        principal_types,
        context,
    } = applies_to;
    let principals = set_of(alloc, principal_types)?;
    let resources = set_of(alloc, resource_types)?;
    let applies_to = ValidatorApplySpec::new(principals, resources);
    Ok((context.into_inner(), applies_to))
}

/// What an action applies to, with principals and resources in order, of equal ones the first alone.
fn distinct_application<N: Ord + Drop>(
    alloc: Global,
    applies_to: Option<ApplySpec<N>>,
) -> Mem<Option<ApplySpec<N>>>
    ensures { IfOk result (λ made. made ≡ option_map (distinct_application N.cmp) applies_to) }
{
    let Some(applies_to) = applies_to else {
        return Ok(None);
    };
    let ApplySpec {
        resource_types,
        principal_types,
        context,
    } = applies_to;
    let principal_types = distinct(alloc, principal_types)?;
    let resource_types = distinct(alloc, resource_types)?;
    Ok(Some(ApplySpec {
        resource_types,
        principal_types,
        context,
    }))
}

/// What an action applies to, with what each name in it may stand for.
#[tactic(auto, using(crate::proofs::Sure::is_sure))]
fn applied_in(
    alloc: Global,
    step: &Qualifying<'_>,
    applies_to: Option<ApplySpec<RawName>>,
) -> Mem<Option<ApplySpec<ConditionalName>>>
    ensures { IfOk result (λ made. made
        ≡ applied_in (option_copied step.now.namespace) applies_to) }
{
    walk_unrefused(alloc, step, applies_to)
}

/// The context of an action, and what it applies to, as sets, with what each name in them may stand for. Equal
/// principals and equal resources are dropped first, since a name with all that it may stand for takes much memory.
fn application_made(
    alloc: Global,
    step: &Qualifying<'_>,
    applies_to: Option<ApplySpec<RawName>>,
) -> Mem<
    (
        SchemaType<ConditionalName>,
        ValidatorApplySpec<ConditionalName>,
    ),
>
    ensures context { IfOk result (λ made. made.0
        ≡ context_in (applied_in (option_copied step.now.namespace) applies_to)) }
    ensures types { IfOk result (λ made. made.1
        ≡ application_in conditional_cmp
        (applied_in (option_copied step.now.namespace) applies_to)) }
{
    let applies_to = distinct_application(alloc, applies_to)?;
    let applies_to = applied_in(alloc, step, applies_to)?;
    application_in(alloc, applies_to)
}

/// A parent, with what its type may stand for.
#[tactic(auto, using(crate::proofs::Sure::is_sure))]
fn parent_in(
    alloc: Global,
    step: &Qualifying<'_>,
    parent: ActionEntityUID<RawName>,
) -> Mem<ActionEntityUID<ConditionalName>>
    ensures { IfOk result (λ made. made ≡ parent_in (option_copied step.now.namespace) parent) }
{
    walk_unrefused(alloc, step, parent)
}

/// The set of the parents, with what the type of each may stand for. Each is put in as soon as it is made, so that of
/// equal ones the first alone takes memory.
fn parent_set(
    alloc: Global,
    step: &Qualifying<'_>,
    parents: Items<ActionEntityUID<RawName>>,
) -> Mem<Set<ActionEntityUID<ConditionalName>>>
    ensures { IfOk result (λ set. set
        ≡ set_of (parent_cmp conditional_cmp)
        (map (parent_in (option_copied step.now.namespace)) parents)) }
{
    let mut set = Set::new(alloc);
    for parent in parents.into_vec() {
        let parent = parent_in(alloc, step, parent)?;
        set.insert(parent)?;
    }
    Ok(set)
}

/// The parents of an action, as a set.
fn parents_made(
    alloc: Global,
    step: &Qualifying<'_>,
    parents: Option<Items<ActionEntityUID<RawName>>>,
) -> Mem<Set<ActionEntityUID<ConditionalName>>>
    ensures { IfOk result (λ made. made
        ≡ parents_in (parent_cmp conditional_cmp)
        (option_map (map (parent_in (option_copied step.now.namespace))) parents)) }
{
    match parents {
        Some(parents) => parent_set(alloc, step, parents),
        None => Ok(Set::new(alloc)),
    }
}

/// The values of the attributes of an action. It takes no memory.
fn values_in(alloc: Global, attributes: Option<ValueMap>) -> ValueMap
    ensures { result ≡ unwrap_or attributes no_values }
{
    match attributes {
        Some(values) => values,
        None => ValueMap::new(alloc),
    }
}

/// The id of an action of the namespace, at its place; refused where the namespace has `__cedar`.
fn action_id(
    alloc: Global,
    step: &Qualifying<'_>,
    id: Text,
    action: &ActionType<RawName>,
) -> Out<EntityUID, SchemaError>
    ensures key { IfOk result (λ uid. action_key uid
        ≡ action_at (option_copied step.now.namespace) id action.now.loc) }
    ensures ok { IfOk result
        (λ _. reserved_in (option_copied step.now.namespace)
        (components (action_type_in (option_copied step.now.namespace))) ≡ []) }
    ensures refused { IfRefused result (λ e. IsFirst
        (reserved_in (option_copied step.now.namespace)
        (components (action_type_in (option_copied step.now.namespace)))) (told e)) }
{
    let loc = action.loc.dup(alloc)?;
    action_at(alloc, step, id, loc)
}

/// The id of an action of the namespace, and the types of its attributes; refused with the first fault.
#[tactic(auto, using(crate::proofs::Faultless::firsts, crate::proofs::ActionLoops::ids), unfolding(crate::specs::Faults::action_faults))]
fn action_head(
    alloc: Global,
    step: &Qualifying<'_>,
    none: &Attributes,
    id: Text,
    action: &ActionType<RawName>,
) -> Out<(EntityUID, Attributes), SchemaError>
    requires { none.now ≡ attributes_of [] }
    ensures key { IfOk result (λ made. action_key made.0
        ≡ action_at (option_copied step.now.namespace) id action.now.loc) }
    ensures types { IfOk result (λ made. made.1 ≡ types_in action.now.attributes) }
    ensures ok { IfOk result
        (λ _. action_faults (option_copied step.now.namespace) (id, action.now) ≡ []) }
    ensures refused { IfRefused result
        (λ e. IsFirst (action_faults (option_copied step.now.namespace) (id, action.now))
        (told e)) }
{
    let uid = action_id(alloc, step, id, action)?;
    let types = types_in(alloc, &uid, none, &action.attributes)?;
    Ok((uid, types))
}

/// What an action is, with what each name in it may stand for, and with attributes of these types.
fn fragment_of(
    alloc: Global,
    step: &Qualifying<'_>,
    attribute_types: Attributes,
    action: ActionType<RawName>,
) -> Mem<ActionFragment<ConditionalName, ConditionalName>>
    ensures { IfOk result (λ made. made ≡ action_made conditional_cmp attribute_types
        (sure (through_action over_raw over_conditional
        (qualifying (option_copied step.now.namespace)) action))) }
{
    let ActionType {
        attributes,
        applies_to,
        member_of,
        annotations: _,
        loc,
    } = action;
    let (context, applies_to) = application_made(alloc, step, applies_to)?;
    let parents = parents_made(alloc, step, member_of)?;
    Ok(ActionFragment {
        context,
        applies_to,
        parents,
        attribute_types,
        attributes: values_in(alloc, attributes),
        loc,
    })
}

/// Puts an action of this id to the others, with attributes of these types.
fn put_action(
    alloc: Global,
    step: &Qualifying<'_>,
    made: &mut Map<EntityUID, ActionFragment<ConditionalName, ConditionalName>>,
    uid: EntityUID,
    attribute_types: Attributes,
    action: ActionType<RawName>,
) -> Mem<()>
    ensures { OnOk result (with_keys action_key made.new
        ≡ insert_entry action_key_cmp (with_keys action_key made.old) (action_key uid)
        (action_made conditional_cmp attribute_types
        (sure (through_action over_raw over_conditional
        (qualifying (option_copied step.now.namespace)) action)))) }
{
    let fragment = fragment_of(alloc, step, attribute_types, action)?;
    made.put(uid, fragment)?;
    Ok(())
}

/// Puts an action of the namespace to the others; refused with its first fault.
#[tactic(auto, unfolding(crate::specs::Definitions::action_made_in))]
fn declare_action(
    alloc: Global,
    step: &Qualifying<'_>,
    none: &Attributes,
    made: &mut Map<EntityUID, ActionFragment<ConditionalName, ConditionalName>>,
    id: Text,
    action: ActionType<RawName>,
) -> Out<(), SchemaError>
    requires { none.now ≡ attributes_of [] }
    ensures puts { OnOk result (with_keys action_key made.new
        ≡ insert_entry action_key_cmp (with_keys action_key made.old)
        (action_in (option_copied step.now.namespace) (id, action)).0
        (action_in (option_copied step.now.namespace) (id, action)).1) }
    ensures ok { OnOk result (action_faults (option_copied step.now.namespace) (id, action) ≡ []) }
    ensures refused { IfRefused result
        (λ e. IsFirst (action_faults (option_copied step.now.namespace) (id, action)) (told e)) }
{
    let (uid, types) = action_head(alloc, step, none, id, &action)?;
    put_action(alloc, step, made, uid, types, action)?;
    Ok(())
}

/// The actions under their ids in the namespace, in order; refused with the first fault.
#[tactic(auto, using(crate::proofs::ActionLoops::actions, crate::proofs::Faultless::faultless))]
pub(crate) fn actions_in(
    alloc: Global,
    step: &Qualifying<'_>,
    actions: Map<Text, ActionType<RawName>>,
) -> Out<ActionsDef<ConditionalName, ConditionalName>, SchemaError>
    ensures made { IfOk result (λ made. with_keys action_key made.actions
        ≡ map (action_in (option_copied step.now.namespace)) actions) }
    ensures ok { IfOk result
        (λ _. flat_map (action_faults (option_copied step.now.namespace)) actions ≡ []) }
    ensures refused { IfRefused result
        (λ e. IsFirst (flat_map (action_faults (option_copied step.now.namespace)) actions)
        (told e)) }
{
    let none = Attributes::none(alloc)?;
    let mut made = Map::with_room(alloc, actions.len())?;
    for (id, action) in actions.into_entries() {
        declare_action(alloc, step, &none, &mut made, id, action)?;
    }
    Ok(ActionsDef { actions: made })
}
