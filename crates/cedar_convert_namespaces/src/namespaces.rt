// SPDX-License-Identifier: Apache-2.0
ghost use Rattle.std.specs.Prelude.{◌≡◌, [], ◌∷◌, ◌++◌, true, false, map, option_map, IfOk, OnOk, MatchResult};
ghost use Rattle.cedar_data.specs.Maps.{map_of};
ghost use Rattle.cedar_names.specs.Order.{word_cmp};
ghost use Rattle.cedar_tree.specs.Meanings.{annotated_tree, annotations_tree, decl_tree, node_of, path_tree};
ghost use Rattle.cedar_convert_declarations.specs.of_convert_faults.Gathering.{gathered_tree};
ghost use Rattle.cedar_convert_declarations.specs.of_convert_fragment.Declares as declares;
ghost use Rattle.cedar_convert_declarations.specs.of_convert_fragment.Declares.{declared_by, declared_in, definition_of, fragment_of, given, is_reserved_name};
ghost use Rattle.cedar_convert_declarations.specs.of_convert_fragment.Views.{actions_seen, commons_seen, definition_seen, entities_seen, fragment_seen, namespace_words, namespaces_seen};

use cedar_convert_declarations::{
    ActionType, CommonType, CommonTypeId, EntityType, Fragment, Gathered, Kind,
    NamespaceDefinition, RawName, add_actions, add_common, add_entities,
};
use cedar_data::{Items, Map, Mem, Text};
use cedar_names::{Annotations, InternalName, Name, ReservedNameError, UnreservedId};
use cedar_text::Node;
use cedar_tree::{Annotated, Declaration, Path};
use std::alloc::Global;

/// The definition of these types and actions; of several of one kind and name the last counts.
fn definition(
    alloc: Global,
    common_types: Vec<(CommonTypeId, CommonType<RawName>)>,
    entity_types: Vec<(UnreservedId, EntityType<RawName>)>,
    actions: Vec<(Text, ActionType<RawName>)>,
    annotations: Annotations,
) -> Mem<NamespaceDefinition<RawName>>
    ensures { IfOk result (λ made. definition_seen made ≡ record {
      common_types = map_of word_cmp (commons_seen common_types.items);
      entity_types = map_of word_cmp (entities_seen entity_types.items);
      actions = map_of word_cmp (actions_seen actions.items);
      annotations = annotations_tree annotations;
    }) }
{
    let common_types = Map::from_pairs(alloc, common_types)?;
    let entity_types = Map::from_pairs(alloc, entity_types)?;
    let actions = Map::from_pairs(alloc, actions)?;
    Ok(NamespaceDefinition {
        common_types,
        entity_types,
        actions,
        annotations,
    })
}

/// How many of the declarations are of this kind.
fn count_of(kind: Kind, decls: &Items<Annotated<Node<Declaration>>>) -> usize {
    decls
        .iter()
        .filter(|decl| kind_of(&decl.item.node) == kind)
        .count()
}

/// What a declaration declares.
fn kind_of(decl: &Declaration) -> Kind {
    match decl {
        Declaration::Entity(_) => Kind::EntityType,
        Declaration::Action(_) => Kind::Action,
        Declaration::Common(_) => Kind::CommonType,
    }
}

/// What declarations declare, under these annotations; of several of one kind and name the last counts, and what is
/// named `__cedar` is left out. It fails only for want of memory.
#[tactic(auto, using(crate::proofs::Declaring::ending))]
pub(crate) fn definition_declared(
    alloc: Global,
    annotations: Annotations,
    decls: Items<Annotated<Node<Declaration>>>,
) -> Mem<NamespaceDefinition<RawName>>
    ensures { IfOk result (λ made. definition_seen made
        ≡ definition_of (annotations_tree annotations)
        (map (annotated_tree (node_of decl_tree)) decls)) }
{
    let mut common_types = Vec::with_capacity(alloc, count_of(Kind::CommonType, &decls))?;
    let mut entity_types = Vec::with_capacity(alloc, count_of(Kind::EntityType, &decls))?;
    let mut actions = Vec::with_capacity(alloc, count_of(Kind::Action, &decls))?;
    for decl in decls.into_vec() {
        declare_one(
            alloc,
            decl,
            &mut common_types,
            &mut entity_types,
            &mut actions,
        )?;
    }
    definition(alloc, common_types, entity_types, actions, annotations)
}

/// Puts what a declaration declares behind the others of its kind. It fails only for want of memory.
fn declare_one(
    alloc: Global,
    decl: Annotated<Node<Declaration>>,
    common_types: &mut Vec<(CommonTypeId, CommonType<RawName>)>,
    entity_types: &mut Vec<(UnreservedId, EntityType<RawName>)>,
    actions: &mut Vec<(Text, ActionType<RawName>)>,
) -> Mem<()>
    ensures common_types { OnOk result (commons_seen common_types.new.items
        ≡ commons_seen common_types.old.items
        ++ given declares.commons (annotated_tree (node_of decl_tree) decl ∷ [])) }
    ensures entity_types { OnOk result (entities_seen entity_types.new.items
        ≡ entities_seen entity_types.old.items
        ++ given declares.entities (annotated_tree (node_of decl_tree) decl ∷ [])) }
    ensures actions { OnOk result (actions_seen actions.new.items
        ≡ actions_seen actions.old.items
        ++ given declares.actions (annotated_tree (node_of decl_tree) decl ∷ [])) }
{
    let Annotated { item, annotations } = decl;
    let Node { node, loc } = item;
    match node {
        Declaration::Entity(entity) => add_entities(alloc, entity, annotations, loc, entity_types),
        Declaration::Action(action) => add_actions(alloc, action, annotations, loc, actions),
        Declaration::Common(common) => add_common(alloc, common, annotations, loc, common_types),
    }
}

/// The name of a namespace, where it has one; refused where a component is `__cedar`.
fn namespace_name(name: Option<Path>) -> Result<Option<Name>, ReservedNameError>
    ensures { MatchResult result
        (λ made. (namespace_words made ≡ option_map (λ path. path.node) (option_map path_tree name))
        × (is_reserved_name (option_map path_tree name) ≡ false))
        (λ error. is_reserved_name (option_map path_tree name) ≡ true) }
{
    match name {
        None => Ok(None),
        Some(path) => {
            let name = Name::from_internal(InternalName::from(path))?;
            Ok(Some(name))
        }
    }
}

/// What a namespace declares, with its name, unless a component of that is `__cedar`.
#[tactic(auto, using(crate::proofs::Declaring::spaces))]
fn add_namespace(
    alloc: Global,
    gathered: Gathered,
    made: &mut Vec<(Option<Name>, NamespaceDefinition<RawName>)>,
) -> Mem<()>
    ensures { OnOk result (namespaces_seen made.new.items ≡ namespaces_seen made.old.items
        ++ declared_in (gathered_tree gathered)) }
{
    let Gathered {
        name,
        annotations,
        decls,
    } = gathered;
    let Ok(name) = namespace_name(name) else {
        return Ok(());
    };
    let definition = definition_declared(alloc, annotations, decls)?;
    made.push((name, definition))?;
    Ok(())
}

/// What namespaces declare, each with its name, in order.
fn namespaces_declared(
    alloc: Global,
    all: Items<Gathered>,
) -> Mem<Vec<(Option<Name>, NamespaceDefinition<RawName>)>>
    ensures { IfOk result (λ made. namespaces_seen made.items
        ≡ declared_by (map gathered_tree all)) }
{
    let mut made = Vec::new(alloc);
    for gathered in all.into_vec() {
        add_namespace(alloc, gathered, &mut made)?;
    }
    Ok(made)
}

/// What namespaces declare, by name. It fails only for want of memory.
pub fn fragment_declared(alloc: Global, all: Items<Gathered>) -> Mem<Fragment<RawName>>
    ensures { IfOk result (λ made. fragment_seen made ≡ fragment_of (map gathered_tree all)) }
{
    let made = namespaces_declared(alloc, all)?;
    let namespaces = Map::from_pairs(alloc, made)?;
    Ok(Fragment(namespaces))
}
