// SPDX-License-Identifier: Apache-2.0
ghost use Rattle.std.specs.Prelude.{◌≡◌, ◌++◌, Some, map, option_map, IfOk, OnOk};
ghost use Rattle.cedar_names.specs.Identifiers.{unreserved_word};
ghost use Rattle.cedar_tree.specs.Meanings.{action_tree, alias_tree, annotations_tree, app_tree, context_tree, entity_tree, listed, node_of, path_tree, qual_tree, type_tree};
ghost use Rattle.cedar_text.specs.Lists.{elements};
ghost use Rattle.cedar_tree.specs.Trees.{Action, Common, Entity};
ghost use Rattle.cedar_convert_faults.specs.Bindings.{entity_names};
ghost use Rattle.cedar_convert_faults.specs.Repeats.{words_of};
ghost use Rattle.cedar_convert_fragment.specs.Declares.{action_content, actions, applies_to, clauses_of, commons, entities, entity_content, free_names, name_of, parents_of, shape_type, type_at};
ghost use Rattle.cedar_convert_fragment.specs.Fragments.{Listed, Shaped};
ghost use Rattle.cedar_convert_fragment.specs.Views.{action_seen, actions_seen, commons_seen, entities_seen, kind_seen, type_seen};

use crate::applying::{applies_declared, parents_declared};
use crate::putting::{all_three, both, put_all, put_each, raw_names, some_texts, unreserved_ids};
use cedar_convert_fragment::{shape_declared, type_declared};
use cedar_data::{Boxed, Items, Mem, Text};
use cedar_fragment::{
    ActionType, CommonType, CommonTypeId, EntityType, EntityTypeKind, RawName, SchemaType,
    StandardEntityType,
};
use cedar_names::{Annotations, UnreservedId};
use cedar_text::{Loc, Node, NonEmpty};
use cedar_tree::{
    ActionDecl, AppDecl, ContextDecl, EntityDecl, EnumEntityDecl, Path, QualName,
    StandardEntityDecl, Type, TypeDecl,
};
use std::alloc::Global;

/// The type that tags have, if there are any.
fn tags_declared(alloc: Global, tags: Option<Boxed<Node<Type>>>) -> Mem<Option<SchemaType<RawName>>>
    ensures { IfOk result (λ made. option_map type_seen made
        ≡ option_map type_at (option_map (node_of type_tree) tags)) }
{
    match tags {
        None => Ok(None),
        Some(ty) => {
            let ty = type_declared(alloc, ty.into_inner())?;
            Ok(Some(ty))
        }
    }
}

/// Entity types with these parents, this shape and this type of tags.
#[tactic(auto, using(crate::proofs::KindViews::standard))]
fn standard_declared(
    alloc: Global,
    parents: Items<Path>,
    shape: ContextDecl,
    tags: Option<Boxed<Node<Type>>>,
) -> Mem<EntityTypeKind<RawName>>
    ensures { IfOk result (λ made. kind_seen made ≡ Shaped (map name_of (map path_tree parents))
        (shape_type (context_tree shape))
        (option_map type_at (option_map (node_of type_tree) tags))) }
{
    let names = raw_names(alloc, parents);
    let shape = shape_declared(alloc, shape);
    let tags = tags_declared(alloc, tags);
    let (member_of_types, shape, tags) = all_three(names, shape, tags)?;
    Ok(EntityTypeKind::Standard(StandardEntityType {
        member_of_types,
        shape,
        tags,
    }))
}

/// The entity types with these entities.
#[tactic(auto, using(crate::proofs::KindViews::contents))]
fn listed_declared(alloc: Global, choices: NonEmpty<Node<Text>>) -> Mem<EntityTypeKind<RawName>>
    ensures { IfOk result (λ made. kind_seen made
        ≡ Listed (words_of (map (node_of (λ text. text)) (elements choices)))) }
{
    let choices = some_texts(alloc, choices)?;
    Ok(EntityTypeKind::Enum { choices })
}

/// The names of entity types, but for `__cedar`, and what they are.
fn entity_declared(
    alloc: Global,
    entity: EntityDecl,
) -> Mem<(Vec<UnreservedId>, EntityTypeKind<RawName>)>
    ensures names { IfOk result (λ made. map unreserved_word made.0.items
        ≡ free_names (entity_names (Entity (entity_tree entity)))) }
    ensures kind { IfOk result (λ made. kind_seen made.1 ≡ entity_content (entity_tree entity)) }
{
    match entity {
        EntityDecl::Standard(standard) => {
            let StandardEntityDecl {
                names,
                member_of_types,
                attrs,
                tags,
            } = standard;
            let ids = unreserved_ids(alloc, names);
            both(ids, standard_declared(alloc, member_of_types, attrs, tags))
        }
        EntityDecl::Enum(listed) => {
            let EnumEntityDecl { names, choices } = listed;
            let ids = unreserved_ids(alloc, names);
            both(ids, listed_declared(alloc, choices))
        }
    }
}

/// Puts the entity types of a declaration behind the others.
pub fn add_entities(
    alloc: Global,
    entity: EntityDecl,
    annotations: Annotations,
    loc: Loc,
    made: &mut Vec<(UnreservedId, EntityType<RawName>)>,
) -> Mem<()>
    ensures { OnOk result (entities_seen made.new.items ≡ entities_seen made.old.items
        ++ entities (Entity (entity_tree entity)) (annotations_tree annotations) loc) }
{
    let (ids, kind) = entity_declared(alloc, entity)?;
    let entity = EntityType {
        kind,
        annotations,
        loc: Some(loc),
    };
    put_all(alloc, ids, entity, made)?;
    Ok(())
}

/// What an action is that applies to this and has these parents.
#[tactic(auto, using(crate::proofs::KindViews::acting))]
fn acting_declared(
    alloc: Global,
    clauses: Option<Boxed<Node<NonEmpty<Node<AppDecl>>>>>,
    parents: Option<Boxed<NonEmpty<Node<QualName>>>>,
    annotations: Annotations,
    loc: Loc,
) -> Mem<ActionType<RawName>>
    ensures { IfOk result (λ made. action_seen made ≡ record {
      content = record {
        attributes = None;
        applies_to = Some (applies_to (clauses_of
            (option_map (node_of (λ lines. map (node_of app_tree) (elements lines))) clauses)));
        member_of = parents_of (map (node_of qual_tree) (listed parents));
      };
      annotations = annotations_tree annotations;
      loc = Some loc;
    }) }
{
    let applied = applies_declared(alloc, clauses);
    let (applies_to, member_of) = both(applied, parents_declared(alloc, parents))?;
    Ok(ActionType {
        attributes: None,
        applies_to: Some(applies_to),
        member_of,
        annotations,
        loc: Some(loc),
    })
}

/// The names of actions, and what they are.
fn action_declared(
    alloc: Global,
    action: ActionDecl,
    annotations: Annotations,
    loc: Loc,
) -> Mem<(NonEmpty<Text>, ActionType<RawName>)>
    ensures names { IfOk result (λ made. elements made.0 ≡ words_of (action_tree action).names) }
    ensures action { IfOk result (λ made. action_seen made.1
        ≡ record {
          content = action_content
              (action_tree action);
          annotations = annotations_tree annotations;
          loc = Some loc;
        }) }
{
    let ActionDecl {
        names,
        parents,
        app_decls,
    } = action;
    let names = some_texts(alloc, names);
    both(
        names,
        acting_declared(alloc, app_decls, parents, annotations, loc),
    )
}

/// Puts the actions of a declaration behind the others.
pub fn add_actions(
    alloc: Global,
    action: ActionDecl,
    annotations: Annotations,
    loc: Loc,
    made: &mut Vec<(Text, ActionType<RawName>)>,
) -> Mem<()>
    ensures { OnOk result (actions_seen made.new.items ≡ actions_seen made.old.items
        ++ actions (Action (action_tree action)) (annotations_tree annotations) loc) }
{
    let (names, action) = action_declared(alloc, action, annotations, loc)?;
    put_each(alloc, names, action, made)?;
    Ok(())
}

/// Puts the common type of a declaration behind the others, unless its name is `__cedar`.
#[tactic(auto, using(crate::proofs::Adding::commons))]
pub fn add_common(
    alloc: Global,
    common: TypeDecl,
    annotations: Annotations,
    loc: Loc,
    made: &mut Vec<(CommonTypeId, CommonType<RawName>)>,
) -> Mem<()>
    ensures { OnOk result (commons_seen made.new.items ≡ commons_seen made.old.items
        ++ commons (Common (alias_tree common)) (annotations_tree annotations) loc) }
{
    let TypeDecl { name, def } = common;
    let Ok(id) = UnreservedId::try_from_id(alloc, name.node) else {
        return Ok(());
    };
    let ty = type_declared(alloc, def)?;
    let common = CommonType {
        ty,
        annotations,
        loc: Some(loc),
    };
    made.push((CommonTypeId::unchecked(id), common))?;
    Ok(())
}
