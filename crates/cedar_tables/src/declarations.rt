// SPDX-License-Identifier: Apache-2.0
ghost use Rattle.std.specs.Prelude.{◌≡◌, ◌++◌, map, IfOk, OnOk};
ghost use Rattle.cedar_data.specs.Maps.{get};
ghost use Rattle.cedar_names.specs.Names.{entity_cmp};
ghost use Rattle.cedar_tables.specs.Declarations.{actions_of, common_types_of, entity_types_of, placed_by, placed_types};

use cedar_data::{Dup, Map, Mem, Near};
use cedar_declared::{ActionFragment, EntityTypeFragment, EntityTypesDef, ValidatorNamespaceDef};
use cedar_names::{EntityType, EntityUID, InternalName};
use cedar_text::Loc;
use cedar_written::{ConditionalName, SchemaType};
use std::alloc::Global;

/// The definitions of a namespace, each reference of which has the names that it may stand for.
pub(crate) type Definition = ValidatorNamespaceDef<ConditionalName, ConditionalName>;

/// A common type under its name.
pub(crate) type CommonType = (InternalName, SchemaType<ConditionalName>);

/// An action.
pub(crate) type Action = ActionFragment<ConditionalName, ConditionalName>;

/// What stands under a name, and where it is declared.
#[derive(Drop)]
pub(crate) struct Placed<T> {
    /// What it is.
    pub(crate) fragment: T,
    /// The place of its declaration.
    pub(crate) loc: Option<Loc>,
}

/// An entity type, and where it is declared.
pub(crate) type PlacedEntity = Placed<EntityTypeFragment<ConditionalName>>;

/// What definitions declare, one after another: a name may stand several times.
#[derive(Drop)]
pub(crate) struct Declarations {
    /// The common types.
    pub(crate) common_types: Vec<CommonType>,
    /// The entity types.
    pub(crate) entity_types: Vec<(EntityType, PlacedEntity)>,
    /// The actions.
    pub(crate) actions: Vec<(EntityUID, Action)>,
}

/// Puts the entries of a map behind the others.
fn append_entries<K: Ord + Drop, V: Drop>(map: Map<K, V>, entries: &mut Vec<(K, V)>) -> Mem<()>
    ensures { OnOk result (entries.new.items ≡ entries.old.items ++ map) }
{
    entries.reserve(map.len())?;
    for (key, value) in map.into_entries() {
        entries.push((key, value))?;
    }
    Ok(())
}

/// A copy of the place at a name. The search begins where the last one ended.
fn place_at(
    alloc: Global,
    places: &Map<EntityType, Loc>,
    near: &mut Near,
    name: &EntityType,
) -> Mem<Option<Loc>>
    ensures { IfOk result (λ loc. loc ≡ get entity_cmp places.now name.now) }
{
    match places.get_near(near, name) {
        Some(loc) => {
            let loc = loc.dup(alloc)?;
            Ok(Some(loc))
        }
        None => Ok(None),
    }
}

/// Puts what stands under names behind the others, each with the place at its name.
fn append_placed<T: Drop>(
    alloc: Global,
    defs: Map<EntityType, T>,
    locs: &Map<EntityType, Loc>,
    entries: &mut Vec<(EntityType, Placed<T>)>,
) -> Mem<()>
    ensures { OnOk result (entries.new.items ≡ entries.old.items ++ map (placed_by locs.now) defs) }
{
    entries.reserve(defs.len())?;
    let mut near = Near::first();
    for (name, fragment) in defs.into_entries() {
        let loc = place_at(alloc, locs, &mut near, &name)?;
        entries.push((name, Placed { fragment, loc }))?;
    }
    Ok(())
}

/// Puts entity types behind the others, each with the place of its declaration.
fn append_entity_types(
    alloc: Global,
    types: EntityTypesDef<ConditionalName>,
    entries: &mut Vec<(EntityType, PlacedEntity)>,
) -> Mem<()>
    ensures { OnOk result (entries.new.items ≡ entries.old.items ++ placed_types types) }
{
    let EntityTypesDef { defs, locs } = types;
    append_placed(alloc, defs, &locs, entries)
}

impl Declarations {
    /// Puts what a definition declares behind the others.
    fn append(&mut self, alloc: Global, definition: Definition) -> Mem<()>
        ensures common_types { OnOk result (self.new.common_types.items
            ≡ self.old.common_types.items ++ definition.common_types.defs) }
        ensures entity_types { OnOk result (self.new.entity_types.items
            ≡ self.old.entity_types.items ++ placed_types definition.entity_types) }
        ensures actions { OnOk result (self.new.actions.items
            ≡ self.old.actions.items ++ definition.actions.actions) }
    {
        append_entries(definition.common_types.defs, &mut self.common_types)?;
        append_entity_types(alloc, definition.entity_types, &mut self.entity_types)?;
        append_entries(definition.actions.actions, &mut self.actions)
    }

    /// What definitions declare, in their order.
    #[tactic(auto, using(cedar_outlines::proofs::Appended::appended))]
    pub(crate) fn gather(alloc: Global, definitions: Vec<Definition>) -> Mem<Declarations>
        ensures common_types { IfOk result (λ all. all.common_types.items
            ≡ common_types_of definitions.items) }
        ensures entity_types { IfOk result (λ all. all.entity_types.items
            ≡ entity_types_of definitions.items) }
        ensures actions { IfOk result (λ all. all.actions.items ≡ actions_of definitions.items) }
    {
        let mut all = Declarations {
            common_types: Vec::new(alloc),
            entity_types: Vec::new(alloc),
            actions: Vec::new(alloc),
        };
        for definition in definitions {
            all.append(alloc, definition)?;
        }
        Ok(all)
    }
}
