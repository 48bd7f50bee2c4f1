// SPDX-License-Identifier: Apache-2.0
ghost use Rattle.std.specs.Prelude.{◌≡◌, ◌++◌, map, flat_map, option_map, IfOk, OnOk};
ghost use Rattle.std.specs.List.{list_any};
ghost use Rattle.cedar_names.specs.Components.{components};
ghost use Rattle.cedar_names.specs.Extensions.{extension_words};
ghost use Rattle.cedar_tree.specs.Meanings.{annotated_tree, decl_tree, node_of, path_tree};
ghost use Rattle.cedar_convert_faults.specs.Gathering.{gathered_tree};
ghost use Rattle.cedar_convert_faults.specs.Repeats.{words_of};
ghost use Rattle.cedar_convert_warnings.specs.Shadowing.{builtin_shadowed, by_words, common_shadows, entity_shadowed, is_builtin, namespace_entry, namespace_shadows, places_by_name, shadows, shadows_by_namespace};

use crate::merging::are_apart;
use crate::warnings::{SchemaWarning, ShadowsBuiltinWarning, ShadowsEntityWarning};
use cedar_convert_faults::{Annotated, Declaration, Gathered, Kind, Path, names_in};
use cedar_data::{Dup, Items, Map, Mem, Text};
use cedar_names::{Extensions, InternalName};
use cedar_text::{Loc, Node, is_primitive_word, push_all};
use std::alloc::Global;

/// The names with their places, in the order of the names. Of several of one name the last counts.
fn places_of(alloc: Global, names: Items<Node<Text>>) -> Mem<Map<Text, Loc>>
    ensures { IfOk result (λ places. places ≡ places_by_name names) }
{
    let mut pairs = Vec::new(alloc);
    for name in names.into_vec() {
        let Node { node, loc } = name;
        pairs.push((node, loc))?;
    }
    Map::from_pairs(alloc, pairs)
}

/// Whether a builtin type has the name.
fn is_builtin(extensions: &Extensions, name: &Text) -> bool
    ensures { result ≡ is_builtin (extension_words extensions.now) name.now }
{
    let word = name.as_str();
    is_primitive_word(word) || extensions.contains(word)
}

/// Whether a builtin type has one of the names.
fn has_builtin(extensions: &Extensions, names: &Items<Node<Text>>) -> bool
    ensures { result ≡ list_any (is_builtin (extension_words extensions.now)) (words_of names.now) }
{
    for name in names.iter() {
        if is_builtin(extensions, &name.node) {
            return true;
        }
    }
    false
}

/// Adds the warning that a builtin type has the name, if one has.
fn add_builtin(
    alloc: Global,
    extensions: &Extensions,
    name: &Text,
    loc: &Loc,
    warnings: &mut Vec<SchemaWarning>,
) -> Mem<()>
    ensures { OnOk result (warnings.new.items ≡ warnings.old.items
        ++ builtin_shadowed (extension_words extensions.now) (name.now, loc.now)) }
{
    if is_builtin(extensions, name) {
        let name = name.dup(alloc)?;
        let loc = loc.dup(alloc)?;
        warnings.push(SchemaWarning::ShadowsBuiltin(ShadowsBuiltinWarning { name, loc }))?;
    }
    Ok(())
}

/// Adds the warning that an entity type has the name of a common type, if one has.
fn add_entity(
    alloc: Global,
    entities: &Map<Text, Loc>,
    name: &Text,
    loc: &Loc,
    warnings: &mut Vec<SchemaWarning>,
) -> Mem<()>
    ensures { OnOk result (warnings.new.items ≡ warnings.old.items
        ++ entity_shadowed entities.now (name.now, loc.now)) }
{
    if let Some(place) = entities.get(name) {
        let entity_loc = place.dup(alloc)?;
        let name = name.dup(alloc)?;
        let common_loc = loc.dup(alloc)?;
        warnings.push(SchemaWarning::ShadowsEntity(ShadowsEntityWarning {
            name,
            entity_loc,
            common_loc,
        }))?;
    }
    Ok(())
}

/// Adds the warnings of common types, in the order of their names.
fn add_commons(
    alloc: Global,
    extensions: &Extensions,
    entities: &Map<Text, Loc>,
    commons: &Map<Text, Loc>,
    warnings: &mut Vec<SchemaWarning>,
) -> Mem<()>
    ensures { OnOk result (warnings.new.items ≡ warnings.old.items
        ++ flat_map (common_shadows (extension_words extensions.now) entities.now) commons.now) }
{
    for (name, loc) in commons.iter() {
        add_entity(alloc, entities, name, loc, warnings)?;
        add_builtin(alloc, extensions, name, loc, warnings)?;
    }
    Ok(())
}

/// Adds the warnings of entity types, in the order of their names.
fn add_entities(
    alloc: Global,
    extensions: &Extensions,
    entities: &Map<Text, Loc>,
    warnings: &mut Vec<SchemaWarning>,
) -> Mem<()>
    ensures { OnOk result (warnings.new.items ≡ warnings.old.items
        ++ flat_map (builtin_shadowed (extension_words extensions.now)) entities.now) }
{
    for (name, loc) in entities.iter() {
        add_builtin(alloc, extensions, name, loc, warnings)?;
    }
    Ok(())
}

/// The warnings of a namespace: of its common types and then of its entity types. Where no builtin type has one of the
/// names, and none is seen to be that of both kinds, there are no warnings, and no order of the names is made.
#[tactic(auto, using(crate::proofs::Builtins::unshadowed))]
fn namespace_warnings(
    alloc: Global,
    decls: &Items<Annotated<Node<Declaration>>>,
    extensions: &Extensions,
) -> Mem<Items<SchemaWarning>>
    ensures { IfOk result (λ warnings. warnings ≡ namespace_shadows (extension_words extensions.now)
        (map (annotated_tree (node_of decl_tree)) decls.now)) }
{
    let names = names_in(alloc, Kind::EntityType, decls)?;
    let common_names = names_in(alloc, Kind::CommonType, decls)?;
    if !has_builtin(extensions, &names)
        && !has_builtin(extensions, &common_names)
        && are_apart(names.as_slice(), common_names.as_slice())
    {
        return Ok(Items::new(alloc));
    }
    let commons = places_of(alloc, common_names)?;
    let entities = places_of(alloc, names)?;
    let mut warnings = Vec::new(alloc);
    add_commons(alloc, extensions, &entities, &commons, &mut warnings)?;
    add_entities(alloc, extensions, &entities, &mut warnings)?;
    Ok(Items::from_vec(warnings))
}

/// The name of a namespace, where it has one.
fn namespace_name(alloc: Global, name: &Option<Path>) -> Mem<Option<InternalName>>
    ensures { IfOk result (λ made. option_map components made
        ≡ option_map (λ path. path.node) (option_map path_tree name.now)) }
{
    match name {
        None => Ok(None),
        Some(path) => {
            let path = path.dup(alloc)?;
            Ok(Some(InternalName::from(path)))
        }
    }
}

/// The names of namespaces, each with its warnings.
fn named_warnings(
    alloc: Global,
    all: &Items<Gathered>,
    extensions: &Extensions,
) -> Mem<Vec<(Option<InternalName>, Items<SchemaWarning>)>>
    ensures { IfOk result (λ made. map by_words made.items
        ≡ map (namespace_entry (extension_words extensions.now)) (map gathered_tree all.now)) }
{
    let mut pairs = Vec::new(alloc);
    for gathered in all.iter() {
        let name = namespace_name(alloc, &gathered.name)?;
        let warnings = namespace_warnings(alloc, &gathered.decls, extensions)?;
        pairs.push((name, warnings))?;
    }
    Ok(pairs)
}

/// The warnings of each namespace, by its name.
#[tactic(auto, using(crate::proofs::Places::by_namespace))]
fn warnings_by_namespace(
    alloc: Global,
    all: &Items<Gathered>,
    extensions: &Extensions,
) -> Mem<Map<Option<InternalName>, Items<SchemaWarning>>>
    ensures { IfOk result (λ made. map by_words made
        ≡ shadows_by_namespace (extension_words extensions.now) (map gathered_tree all.now)) }
{
    let pairs = named_warnings(alloc, all, extensions)?;
    Map::from_pairs(alloc, pairs)
}

/// All warnings, in the order of the names of the namespaces.
fn in_order(
    alloc: Global,
    by_namespace: Map<Option<InternalName>, Items<SchemaWarning>>,
) -> Mem<Vec<SchemaWarning>>
    ensures { IfOk result (λ warnings. warnings.items ≡ flat_map (λ e. e.1) by_namespace) }
{
    let mut warnings = Vec::new(alloc);
    for (_, more) in by_namespace.into_entries() {
        push_all(more.into_vec(), &mut warnings)?;
    }
    Ok(warnings)
}

/// The warnings of namespaces, in the order of their names; in each of its common types and then of its entity types,
/// in the order of their names. It fails only for want of memory.
#[tactic(auto, using(crate::proofs::Places::in_order))]
pub fn schema_warnings(
    alloc: Global,
    all: &Items<Gathered>,
    extensions: &Extensions,
) -> Mem<Vec<SchemaWarning>>
    ensures { IfOk result (λ warnings. warnings.items
        ≡ shadows (extension_words extensions.now) (map gathered_tree all.now)) }
{
    let by_namespace = warnings_by_namespace(alloc, all, extensions)?;
    in_order(alloc, by_namespace)
}
