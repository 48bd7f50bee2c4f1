// SPDX-License-Identifier: Apache-2.0
ghost use Rattle.std.specs.Prelude.{◌≡◌, fold, map, OnOk, IfOk};
ghost use Rattle.std.specs.List.{flat_map};
ghost use Rattle.cedar_schema_error.specs.KeptDeclarations.{placed, placed_action};
ghost use Rattle.cedar_definitions.specs.DeclaredNames.{all_actions, all_types};
ghost use Rattle.cedar_definitions.specs.Structures.{definitions_of};
ghost use Rattle.cedar_declared.specs.Gathering.{declared_names, gathered, no_names, with_actions, with_common_types, with_definition, with_entity_types, with_fragment};
ghost use Rattle.cedar_declared.specs.Held.{names_of};
ghost use Rattle.cedar_declared.specs.HeldPlaces.{HeldAmong};
ghost use Rattle.cedar_declared.specs.Names.{SameNames};
ghost use Rattle.cedar_declared.specs.TypeNames.{with_name};

use crate::action_names::ActionNames;
use crate::all_defs::AllDefs;
use crate::type_names::TypeNames;
use cedar_data::{Dup, Map, Mem, Set};
use cedar_definitions::{ValidatorNamespaceDef, ValidatorSchemaFragment};
use cedar_names::{EntityType, EntityUID, InternalName};
use cedar_schema_error::RefName;
use std::alloc::Global;

/// Puts the names of entity types to the others.
fn insert_entity_types<V>(
    alloc: Global,
    names: &mut TypeNames,
    types: &Map<EntityType, V>,
) -> Mem<()>
    ensures { OnOk result (names.new ≡ with_entity_types names.old types.now) }
{
    for (ty, _) in types.iter() {
        names.insert(alloc, ty.name().as_internal())?;
    }
    Ok(())
}

/// Puts the names of common types to the others.
fn insert_common_types<V>(
    alloc: Global,
    names: &mut TypeNames,
    types: &Map<InternalName, V>,
) -> Mem<()>
    ensures { OnOk result (names.new ≡ with_common_types names.old types.now) }
{
    for (name, _) in types.iter() {
        names.insert(alloc, name)?;
    }
    Ok(())
}

/// Puts the names of actions to the others.
fn insert_actions<V>(
    alloc: Global,
    actions: &mut Set<EntityUID>,
    defs: &Map<EntityUID, V>,
) -> Mem<()>
    ensures { OnOk result (actions.new ≡ with_actions actions.old defs.now) }
{
    for (uid, _) in defs.iter() {
        let action = uid.dup(alloc)?;
        actions.insert(action)?;
    }
    Ok(())
}

/// The names of some definitions, before their actions are indexed.
#[derive(Drop)]
struct Gathered {
    entity_types: TypeNames,
    common_types: TypeNames,
    actions: Set<EntityUID>,
}

impl Gathered {
    /// No names. It takes no memory.
    fn none(alloc: Global) -> Gathered
        ensures { gathered alloc result ≡ no_names alloc }
    {
        Gathered {
            entity_types: TypeNames::none(alloc),
            common_types: TypeNames::none(alloc),
            actions: Set::new(alloc),
        }
    }

    /// Puts the names of a definition to the others.
    fn insert_definition<N: RefName + Ord, A: Ord>(
        &mut self,
        alloc: Global,
        definition: &ValidatorNamespaceDef<N, A>,
    ) -> Mem<()>
        ensures { OnOk result (gathered alloc self.new
            ≡ with_definition (gathered alloc self.old) definition.now) }
    {
        insert_entity_types(alloc, &mut self.entity_types, &definition.entity_types.defs)?;
        insert_common_types(alloc, &mut self.common_types, &definition.common_types.defs)?;
        insert_actions(alloc, &mut self.actions, &definition.actions.actions)
    }

    /// Puts the names of a fragment to the others.
    #[tactic(auto, unfolding(crate::specs::Gathering::with_fragment))]
    fn insert_fragment<N: RefName + Ord, A: Ord>(
        &mut self,
        alloc: Global,
        fragment: &ValidatorSchemaFragment<N, A>,
    ) -> Mem<()>
        ensures { OnOk result (gathered alloc self.new
            ≡ with_fragment (gathered alloc self.old) fragment.now) }
    {
        for definition in fragment.definitions() {
            self.insert_definition(alloc, definition)?;
        }
        Ok(())
    }

    /// The names of all fragments.
    fn of_all<N: RefName + Ord, A: Ord>(
        alloc: Global,
        fragments: &[ValidatorSchemaFragment<N, A>],
    ) -> Mem<Gathered>
        ensures { IfOk result (λ all. gathered alloc all
            ≡ fold with_fragment (no_names alloc) fragments.now) }
    {
        let mut all = Gathered::none(alloc);
        for fragment in fragments {
            all.insert_fragment(alloc, fragment)?;
        }
        Ok(all)
    }

    /// The names with their actions indexed.
    fn indexed(self, alloc: Global) -> Mem<AllDefs>
        ensures { IfOk result (λ all. all ≡ gathered alloc self) }
    {
        let actions = ActionNames::new(alloc, self.actions)?;
        Ok(AllDefs {
            alloc,
            entity_types: self.entity_types,
            common_types: self.common_types,
            actions,
        })
    }
}

impl AllDefs {
    /// The names that the definitions of fragments declare.
    pub fn new<N: RefName + Ord, A: Ord>(
        alloc: Global,
        fragments: &[ValidatorSchemaFragment<N, A>],
    ) -> Mem<AllDefs>
        ensures names { IfOk result (λ all. SameNames (names_of all)
            (declared_names (flat_map definitions_of fragments.now))) }
        ensures held { IfOk result
            (HeldAmong (map placed (all_types (flat_map definitions_of fragments.now)))
            (map placed_action (all_actions (flat_map definitions_of fragments.now)))) }
    {
        let names = Gathered::of_all(alloc, fragments)?;
        let all = names.indexed(alloc)?;
        Ok(all)
    }

    /// The names that the definitions of a fragment declare.
    pub fn single_fragment<N: RefName + Ord, A: Ord>(
        alloc: Global,
        fragment: &ValidatorSchemaFragment<N, A>,
    ) -> Mem<AllDefs>
        ensures { IfOk result (λ all. SameNames (names_of all)
            (declared_names (definitions_of fragment.now))) }
    {
        let mut names = Gathered::none(alloc);
        names.insert_fragment(alloc, fragment)?;
        let all = names.indexed(alloc)?;
        Ok(all)
    }

    /// These names, and those that the definitions of a fragment declare.
    pub fn with_fragment<N: RefName + Ord, A: Ord>(
        self,
        fragment: &ValidatorSchemaFragment<N, A>,
    ) -> Mem<AllDefs>
        ensures { IfOk result (λ all. all ≡ with_fragment self fragment.now) }
    {
        let AllDefs {
            alloc,
            entity_types,
            common_types,
            actions,
        } = self;
        let mut names = Gathered {
            entity_types,
            common_types,
            actions: actions.into_uids(),
        };
        names.insert_fragment(alloc, fragment)?;
        let all = names.indexed(alloc)?;
        Ok(all)
    }
}
