// SPDX-License-Identifier: Apache-2.0
ghost use Rattle.std.specs.Prelude.{◌≡◌, ◌++◌, [], ◌∷◌, map, IfOk, OnOk};
ghost use Rattle.std.specs.List.{flat_map};
ghost use Rattle.std.specs.List.Sorted.{IsStrictlySortedBy};
ghost use Rattle.std.specs.Map.{keys_of};
ghost use Rattle.cedar_data.specs.Maps.{IsSortedMap, map_of, map_values};
ghost use Rattle.cedar_declared.specs.Gathering.{action_cmp};
ghost use Rattle.cedar_names.specs.Names.{entity_cmp};
ghost use Rattle.cedar_tables.specs.Splits.{action_outline_of, context_use, fragment_shape, fragment_tags, outline_of, shape_use, tags_use, use_at};
ghost use Rattle.cedar_meaning.specs.of_schema_error.declared.use_place.UsePlace.TheVariants as place;

use crate::declarations::{Action, PlacedEntity};
use cedar_data::{Dup, Map, Mem, Set};
use cedar_declared::{ActionFragment, AttributesOrContext, EntityTypeFragment, UsePlace};
use cedar_names::{EntityType, EntityUID};
use cedar_outlines::{ActionOutline, EntityOutline};
use cedar_written::{ConditionalName, SchemaType};
use std::alloc::Global;

/// A use of a type.
pub(crate) type Use = (UsePlace, SchemaType<ConditionalName>);

/// An entity type in pieces: its outline, and its types.
#[derive(Drop)]
struct EntityPieces {
    outline: EntityOutline,
    shape: Option<SchemaType<ConditionalName>>,
    tags: Option<SchemaType<ConditionalName>>,
}

/// Entity types, parted into outlines and uses of types.
#[derive(Drop)]
pub(crate) struct EntitySplits {
    /// What is left without the types.
    pub(crate) outlines: Map<EntityType, EntityOutline>,
    /// The shapes.
    pub(crate) shapes: Vec<Use>,
    /// The types of tags.
    pub(crate) tags: Vec<Use>,
}

/// Actions, parted into outlines and uses of types.
#[derive(Drop)]
pub(crate) struct ActionSplits {
    /// What is left without the types.
    pub(crate) outlines: Map<EntityUID, ActionOutline>,
    /// The contexts.
    pub(crate) contexts: Vec<Use>,
}

/// The pieces of an entity type. It takes no memory.
fn entity_pieces(alloc: Global, entity: PlacedEntity) -> EntityPieces
    ensures outline { result.outline ≡ outline_of entity }
    ensures shape { result.shape ≡ fragment_shape entity.fragment }
    ensures tags { result.tags ≡ fragment_tags entity.fragment }
{
    let PlacedEntity { fragment, loc } = entity;
    match fragment {
        EntityTypeFragment::Standard {
            attributes,
            parents,
            tags,
        } => {
            let AttributesOrContext(shape) = attributes;
            EntityPieces {
                outline: EntityOutline {
                    parents,
                    choices: None,
                    loc,
                },
                shape: Some(shape),
                tags,
            }
        }
        EntityTypeFragment::Enum(choices) => EntityPieces {
            outline: EntityOutline {
                parents: Set::new(alloc),
                choices: Some(choices),
                loc,
            },
            shape: None,
            tags: None,
        },
    }
}

/// Puts a shape behind the other uses, where there is one.
fn push_shape<T: Drop>(
    alloc: Global,
    name: &EntityType,
    ty: Option<T>,
    uses: &mut Vec<(UsePlace, T)>,
) -> Mem<()>
    ensures { OnOk result (uses.new.items ≡ uses.old.items ++ use_at (place.Shape name.now) ty) }
{
    let Some(ty) = ty else {
        return Ok(());
    };
    let name = name.dup(alloc)?;
    uses.push((UsePlace::Shape(name), ty))?;
    Ok(())
}

/// Puts a type of tags behind the other uses, where there is one.
fn push_tags<T: Drop>(
    alloc: Global,
    name: &EntityType,
    ty: Option<T>,
    uses: &mut Vec<(UsePlace, T)>,
) -> Mem<()>
    ensures { OnOk result (uses.new.items ≡ uses.old.items ++ use_at (place.Tags name.now) ty) }
{
    let Some(ty) = ty else {
        return Ok(());
    };
    let name = name.dup(alloc)?;
    uses.push((UsePlace::Tags(name), ty))?;
    Ok(())
}

/// Puts a context behind the other uses.
fn push_context<T: Drop>(
    alloc: Global,
    uid: &EntityUID,
    ty: T,
    uses: &mut Vec<(UsePlace, T)>,
) -> Mem<()>
    ensures { OnOk result (uses.new.items ≡ uses.old.items ++ (place.Context uid.now, ty) ∷ []) }
{
    let uid = uid.dup(alloc)?;
    uses.push((UsePlace::Context(uid), ty))?;
    Ok(())
}

impl EntitySplits {
    /// Puts an entity type behind the others. Its name is after all others.
    fn push(&mut self, alloc: Global, name: EntityType, entity: PlacedEntity) -> Mem<()>
        requires { IsStrictlySortedBy entity_cmp (keys_of self.old.outlines ++ name ∷ []) }
        ensures outlines { OnOk result (self.new.outlines
            ≡ self.old.outlines ++ (name, outline_of entity) ∷ []) }
        ensures shapes { OnOk result (self.new.shapes.items
            ≡ self.old.shapes.items ++ shape_use (name, entity)) }
        ensures tags { OnOk result (self.new.tags.items
            ≡ self.old.tags.items ++ tags_use (name, entity)) }
    {
        let EntityPieces {
            outline,
            shape,
            tags,
        } = entity_pieces(alloc, entity);
        push_shape(alloc, &name, shape, &mut self.shapes)?;
        push_tags(alloc, &name, tags, &mut self.tags)?;
        self.outlines.push_last(name, outline)
    }

    /// The entity types of a map, parted.
    #[tactic(auto, using(crate::proofs::Parted::entities))]
    fn split(alloc: Global, entities: Map<EntityType, PlacedEntity>) -> Mem<EntitySplits>
        ensures outlines { IfOk result (λ s. s.outlines ≡ map_values outline_of entities) }
        ensures shapes { IfOk result (λ s. s.shapes.items ≡ flat_map shape_use entities) }
        ensures tags { IfOk result (λ s. s.tags.items ≡ flat_map tags_use entities) }
        ensures ordered { IfOk result (λ _. IsSortedMap entity_cmp entities) }
    {
        let mut splits = EntitySplits {
            outlines: Map::new(alloc),
            shapes: Vec::with_capacity(alloc, entities.len())?,
            tags: Vec::new(alloc),
        };
        for (name, entity) in entities.into_entries() {
            splits.push(alloc, name, entity)?;
        }
        Ok(splits)
    }

    /// The entity types, parted. Of several of one name the last counts.
    pub(crate) fn new(alloc: Global, entities: Vec<(EntityType, PlacedEntity)>) -> Mem<EntitySplits>
        ensures outlines { IfOk result (λ s. s.outlines
            ≡ map_values outline_of (map_of entity_cmp entities.items)) }
        ensures shapes { IfOk result (λ s. s.shapes.items
            ≡ flat_map shape_use (map_of entity_cmp entities.items)) }
        ensures tags { IfOk result (λ s. s.tags.items
            ≡ flat_map tags_use (map_of entity_cmp entities.items)) }
        ensures ordered { IfOk result
            (λ _. IsSortedMap entity_cmp (map_of entity_cmp entities.items)) }
    {
        let entities = Map::from_pairs(alloc, entities)?;
        EntitySplits::split(alloc, entities)
    }
}

/// The pieces of an action: its outline, and the type of its context. It takes no memory.
fn action_pieces(action: Action) -> (ActionOutline, SchemaType<ConditionalName>)
    ensures { result ≡ (action_outline_of action, action.context) }
{
    let ActionFragment {
        context,
        applies_to,
        parents,
        attribute_types,
        attributes,
        loc,
    } = action;
    let outline = ActionOutline {
        parents,
        applies_to,
        attribute_types,
        attributes,
        loc,
    };
    (outline, context)
}

impl ActionSplits {
    /// Puts an action behind the others. Its id is after all others.
    fn push(&mut self, alloc: Global, uid: EntityUID, action: Action) -> Mem<()>
        requires { IsStrictlySortedBy action_cmp (keys_of self.old.outlines ++ uid ∷ []) }
        ensures outlines { OnOk result (self.new.outlines
            ≡ self.old.outlines ++ (uid, action_outline_of action) ∷ []) }
        ensures contexts { OnOk result (self.new.contexts.items ≡ self.old.contexts.items
            ++ context_use (uid, action) ∷ []) }
    {
        let (outline, context) = action_pieces(action);
        push_context(alloc, &uid, context, &mut self.contexts)?;
        self.outlines.push_last(uid, outline)
    }

    /// The actions of a map, parted.
    #[tactic(auto, using(crate::proofs::Parted::actions))]
    fn split(alloc: Global, actions: Map<EntityUID, Action>) -> Mem<ActionSplits>
        ensures outlines { IfOk result (λ s. s.outlines ≡ map_values action_outline_of actions) }
        ensures contexts { IfOk result (λ s. s.contexts.items ≡ map context_use actions) }
        ensures ordered { IfOk result (λ _. IsSortedMap action_cmp actions) }
    {
        let mut splits = ActionSplits {
            outlines: Map::new(alloc),
            contexts: Vec::with_capacity(alloc, actions.len())?,
        };
        for (uid, action) in actions.into_entries() {
            splits.push(alloc, uid, action)?;
        }
        Ok(splits)
    }

    /// The actions, parted. Of several of one id the last counts.
    pub(crate) fn new(alloc: Global, actions: Vec<(EntityUID, Action)>) -> Mem<ActionSplits>
        ensures outlines { IfOk result (λ s. s.outlines
            ≡ map_values action_outline_of (map_of action_cmp actions.items)) }
        ensures contexts { IfOk result (λ s. s.contexts.items
            ≡ map context_use (map_of action_cmp actions.items)) }
        ensures ordered { IfOk result
            (λ _. IsSortedMap action_cmp (map_of action_cmp actions.items)) }
    {
        let actions = Map::from_pairs(alloc, actions)?;
        ActionSplits::split(alloc, actions)
    }
}
