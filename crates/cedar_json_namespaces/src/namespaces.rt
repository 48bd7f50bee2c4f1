// SPDX-License-Identifier: Apache-2.0
ghost use Rattle.std.specs.Prelude.{◌≡◌, [], false, Some, None, IfOk};
ghost use Rattle.std.specs.Option.{option_cmp};
ghost use Rattle.cedar_names.specs.Names.{name_cmp};
ghost use Rattle.cedar_text.specs.Failures.{IfRefused};
ghost use Rattle.serde_json.specs.View.{view, members_view};
ghost use Rattle.cedar_json_types.specs.Faults.{members_fault};
ghost use Rattle.cedar_json_types.specs.Shapes.{MapMembers};
ghost use Rattle.cedar_json_namespaces.specs.Namespaces as namespaces;
ghost use Rattle.cedar_json_namespaces.specs.Namespaces.{IsFragment, IsNamespace, NamesNamespace, NamespaceEntry, fragment_fault, namespace_entry_fault, namespace_fault, namespace_name_fault, noted_fault};

use crate::maps::{map_at, map_unless_absent};
use cedar_data::{Failure, Map, Out, Text};
use cedar_fragment::{
    ActionType, CommonType, CommonTypeId, EntityType, Fragment, NamespaceDefinition, RawName,
};
use cedar_json_fault::{JsonDeserializationError, JsonFault, JsonKind, NameKind};
use cedar_json_types::{KeySet, check_keys, refuse, under, unless_absent, wrong_type};
use cedar_names::{Annotations, Name, UnreservedId};
use serde_json::{Map as Members, Value};
use std::alloc::Global;

/// The namespace that the value has the shape of, where it has no fault; refused with its first fault.
pub fn read_namespace(
    alloc: Global,
    json: &Value,
) -> Out<NamespaceDefinition<RawName>, JsonDeserializationError>
    ensures shape { IfOk result (λ n. IsNamespace (view json.now) n) }
    ensures clean { IfOk result (λ _. namespace_fault (view json.now) ≡ None) }
    ensures refused { IfRefused result (λ e. namespace_fault (view json.now) ≡ Some e) }
{
    check_keys(alloc, json, KeySet::Namespace)?;
    let common_types: Map<CommonTypeId, CommonType<RawName>> = map_unless_absent(
        alloc,
        json,
        "commonTypes",
    )?;
    let entity_types: Map<UnreservedId, EntityType<RawName>> = map_at(alloc, json, "entityTypes")?;
    let actions: Map<Text, ActionType<RawName>> = map_at(alloc, json, "actions")?;
    let annotations: Annotations = unless_absent(alloc, json, "annotations")?;
    Ok(NamespaceDefinition {
        common_types,
        entity_types,
        actions,
        annotations,
    })
}

/// The name of the namespace that the key names, if it names one.
fn read_name(alloc: Global, key: &str) -> Out<Option<Name>, JsonDeserializationError>
    ensures shape { IfOk result (λ n. NamesNamespace key.now n) }
    ensures clean { IfOk result (λ _. namespace_name_fault key.now ≡ None) }
    ensures refused { IfRefused result (λ e. namespace_name_fault key.now ≡ Some e) }
{
    if key.is_empty() {
        return Ok(None);
    }
    match Name::from_normalized_str(alloc, key) {
        Ok(name) => Ok(Some(name)),
        Err(Failure::NoMemory) => Err(Failure::NoMemory),
        Err(Failure::Refused(fault)) => {
            let text = Text::new(alloc, key)?;
            refuse(
                alloc,
                JsonFault::InvalidName {
                    what: NameKind::Namespace,
                    text,
                    fault,
                },
            )
        }
    }
}

/// Whether there are members.
#[tactic(auto, using(crate::proofs::MemberLemmas::has_some))]
fn has_members(members: &Members<String, Value>) -> bool
    ensures { result ≡ namespaces.has_members (Some (members_view members.now.entries)) }
{
    !members.is_empty()
}

/// Whether the value of a namespace has annotations.
fn is_noted(value: &Value) -> bool
    ensures { result ≡ namespaces.is_noted (view value.now) }
{
    match value.get("annotations") {
        None => false,
        Some(annotations) => match annotations.as_object() {
            None => false,
            Some(members) => has_members(members),
        },
    }
}

/// Refuses annotations of the unnamed namespace.
fn refuse_notes(alloc: Global, key: &str, value: &Value) -> Out<(), JsonDeserializationError>
    ensures clean { IfOk result (λ _. noted_fault key.now (view value.now) ≡ None) }
    ensures refused { IfRefused result (λ e. noted_fault key.now (view value.now) ≡ Some e) }
{
    if key.is_empty() && is_noted(value) {
        return refuse(alloc, JsonFault::AnnotationsOnEmptyNamespace);
    }
    Ok(())
}

/// The namespace, unless it is the unnamed one and has annotations.
fn read_definition(
    alloc: Global,
    key: &str,
    value: &Value,
) -> Out<NamespaceDefinition<RawName>, JsonDeserializationError>
    ensures shape { IfOk result (λ n. IsNamespace (view value.now) n) }
    ensures free { IfOk result (λ _. noted_fault key.now (view value.now) ≡ None) }
    ensures clean { IfOk result (λ _. namespaces.definition_fault key.now (view value.now) ≡ None) }
    ensures refused { IfRefused result (λ e. namespaces.definition_fault key.now (view value.now)
        ≡ Some e) }
{
    let namespace = read_namespace(alloc, value)?;
    refuse_notes(alloc, key, value)?;
    Ok(namespace)
}

/// The name and the definitions of a namespace that a member is.
fn read_entry(
    alloc: Global,
    key: &str,
    value: &Value,
) -> Out<(Option<Name>, NamespaceDefinition<RawName>), JsonDeserializationError>
    ensures shape { IfOk result (λ e. NamespaceEntry key.now (view value.now) e.0 e.1) }
    ensures clean { IfOk result (λ _. namespace_entry_fault key.now (view value.now) ≡ None) }
    ensures refused { IfRefused result (λ e. namespace_entry_fault key.now (view value.now)
        ≡ Some e) }
{
    let name = read_name(alloc, key)?;
    let namespace = under(alloc, key, read_definition(alloc, key, value))?;
    Ok((name, namespace))
}

/// The namespaces that the members are.
#[tactic(auto, using(cedar_json_types::proofs::MemberLoops::reads_members))]
fn read_members(
    alloc: Global,
    members: &Members<String, Value>,
) -> Out<Map<Option<Name>, NamespaceDefinition<RawName>>, JsonDeserializationError>
    ensures shape { IfOk result
        (λ m. MapMembers (option_cmp name_cmp) NamespaceEntry
        (members_view members.now.entries) m) }
    ensures clean { IfOk result
        (λ _. members_fault namespace_entry_fault (members_view members.now.entries) ≡ None) }
    ensures refused { IfRefused result
        (λ e. members_fault namespace_entry_fault (members_view members.now.entries) ≡ Some e) }
{
    let mut read = Map::new(alloc);
    for (key, member) in members.iter() {
        let (name, namespace) = read_entry(alloc, key.as_str(), member)?;
        read.put(name, namespace)?;
    }
    Ok(read)
}

/// The fragment that the value has the shape of, where it has no fault; refused with its first fault.
pub fn read_fragment(
    alloc: Global,
    json: &Value,
) -> Out<Fragment<RawName>, JsonDeserializationError>
    ensures shape { IfOk result (λ f. IsFragment (view json.now) f) }
    ensures clean { IfOk result (λ _. fragment_fault (view json.now) ≡ None) }
    ensures refused { IfRefused result (λ e. fragment_fault (view json.now) ≡ Some e) }
{
    let Some(members) = json.as_object() else {
        return wrong_type(alloc, json, JsonKind::Object);
    };
    let namespaces = read_members(alloc, members)?;
    Ok(Fragment(namespaces))
}
