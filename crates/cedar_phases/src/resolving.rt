// SPDX-License-Identifier: Apache-2.0
ghost use Rattle.std.specs.Prelude.{◌≡◌, ◌++◌, true, Some, map, IfOk, List};
ghost use Rattle.std.specs.List.{flat_map};
ghost use Rattle.std.specs.Map.{keys_of};
ghost use Rattle.cedar_data.specs.Answers.{IfRefused};
ghost use Rattle.cedar_declared.specs.Held.{names_of};
ghost use Rattle.cedar_declared.specs.of_definitions.Structures.{definitions_of};
ghost use Rattle.cedar_phases.specs.Holding.{AllPassed, AreTables, Definition, Holds, OneRefuses, early_phases, later_phases, world_of};
ghost use Rattle.cedar_phases.specs.Kept.{KeepsDeclarations, KeepsDeclared, KeepsReferences, is_missing};
ghost use Rattle.cedar_phases.specs.Places.{IsPlaced, places_in, places_outlined};
ghost use Rattle.cedar_checks.specs.SchemaViews.{IsConsistent, schema_in};
ghost use Rattle.cedar_schema_error.specs.KeptDeclarations.{KeepsAmong, placed, placed_action};
ghost use Rattle.cedar_schema_error.specs.Told.{told};
ghost use Rattle.cedar_sound.specs.Sound.{Cause, Passes, References, Sound};
ghost use Rattle.cedar_qualified.specs.of_missing.Undeclared.{missing_in_definition, missing_in_each, refusal_of};
ghost use Rattle.cedar_qualified.specs.of_world.Denotes.{Denotes};
ghost use Rattle.cedar_qualified.specs.of_world.Worlds.{World};

use crate::assembling::assemble;
use crate::checking::check_definitions;
use crate::declaring::{Declarations, Definitions, declare};
use crate::unfolding::unfolded_types;
use cedar_data::Out;
use cedar_declared::{AllDefs, ValidatorSchemaFragment};
use cedar_hierarchy::Tables;
use cedar_names::Extensions;
use cedar_resolved::ValidatorSchema;
use cedar_schema_error::{ConditionalName, SchemaError};
use cedar_tables::tables_of;
use std::alloc::Global;

/// What definitions of namespaces resolve to.
pub trait FromSchemaFragments: Sized {
    /// The schema that the definitions of fragments denote, with `extensions` for the extension types. Refused with the
    /// first of what is wrong with them: a name that shadows another; references that mean nothing declared; a full name
    /// that is declared twice; types that don't unfold; an action that descends from itself; names that must be entity
    /// types and are none. Each entity type and each action has the place of its declaration.
    fn from_schema_fragments(
        alloc: Global,
        fragments: Vec<ValidatorSchemaFragment<ConditionalName, ConditionalName>>,
        extensions: &Extensions,
    ) -> Out<Self, SchemaError>;
}

/// The schema of what is declared, each reference of which has a target. Refused where its types don't unfold, and for
/// what comes after.
fn resolve_tables(
    alloc: Global,
    all_defs: &AllDefs,
    tables: Tables,
    extensions: &Extensions,
) -> Out<ValidatorSchema, SchemaError>
    ensures passes { IfOk result (λ _. (W : World) (ds : List Definition)
        → Holds W all_defs.now ds extensions.now → AreTables W tables → Passes W References
        → AllPassed W later_phases) }
    ensures denotes { IfOk result (λ S. (W : World) (ds : List Definition)
        → Holds W all_defs.now ds extensions.now → AreTables W tables → Passes W References
        → Denotes W (schema_in S)) }
    ensures consistent { IfOk result IsConsistent }
    ensures placed { IfOk result
        (IsPlaced (places_outlined tables.entity_types tables.actions)) }
    ensures refused { IfRefused result (λ e. (W : World) (ds : List Definition)
        → Holds W all_defs.now ds extensions.now → AreTables W tables → Passes W References
        → OneRefuses W later_phases (told e)) }
    ensures as_declared { IfRefused result (λ e. (W : World) (ds : List Definition)
        → Holds W all_defs.now ds extensions.now → AreTables W tables → Passes W References
        → KeepsAmong (map placed (keys_of tables.common_types))
        (map placed_action (keys_of tables.actions)) e) }
{
    let Tables {
        common_types,
        uses,
        entity_types,
        actions,
    } = tables;
    match unfolded_types(alloc, all_defs, common_types, uses, extensions) {
        Ok(types) => assemble(alloc, all_defs, types, entity_types, actions),
        Err(failure) => Err(failure),
    }
}

/// The schema of definitions, each reference of which has a target.
fn resolve_checked(
    alloc: Global,
    all_defs: &AllDefs,
    definitions: Definitions,
    extensions: &Extensions,
) -> Out<ValidatorSchema, SchemaError>
    ensures passes { IfOk result (λ _. (W : World)
        → Holds W all_defs.now (definitions_of definitions) extensions.now → Passes W References
        → AllPassed W later_phases) }
    ensures denotes { IfOk result (λ S. (W : World)
        → Holds W all_defs.now (definitions_of definitions) extensions.now → Passes W References
        → Denotes W (schema_in S)) }
    ensures consistent { IfOk result IsConsistent }
    ensures placed { IfOk result (IsPlaced (places_in (definitions_of definitions))) }
    ensures refused { IfRefused result (λ e. (W : World)
        → Holds W all_defs.now (definitions_of definitions) extensions.now → Passes W References
        → OneRefuses W later_phases (told e)) }
    ensures as_declared { IfRefused result (λ e. (W : World)
        → Holds W all_defs.now (definitions_of definitions) extensions.now → Passes W References
        → KeepsDeclared (definitions_of definitions) e) }
{
    let tables = tables_of(alloc, definitions.into_definitions())?;
    resolve_tables(alloc, all_defs, tables, extensions)
}

/// The schema that declarations denote. Refused where a reference has no target, and for what comes after.
fn resolve_declarations(
    alloc: Global,
    declarations: Declarations,
    extensions: &Extensions,
) -> Out<ValidatorSchema, SchemaError>
    ensures early { IfOk result (λ _. (W : World)
        → Holds W declarations.all_defs (definitions_of declarations.definitions) extensions.now
        → AllPassed W early_phases) }
    ensures later { IfOk result (λ _. (W : World)
        → Holds W declarations.all_defs (definitions_of declarations.definitions) extensions.now
        → AllPassed W later_phases) }
    ensures denotes { IfOk result (λ S. (W : World)
        → Holds W declarations.all_defs (definitions_of declarations.definitions) extensions.now
        → Denotes W (schema_in S)) }
    ensures consistent { IfOk result IsConsistent }
    ensures placed { IfOk result
        (IsPlaced (places_in (definitions_of declarations.definitions))) }
    ensures refused { IfRefused result (λ e. (W : World)
        → Holds W declarations.all_defs (definitions_of declarations.definitions) extensions.now
        → OneRefuses W (early_phases ++ later_phases) (told e)) }
    ensures kept { IfRefused result (λ e. (W : World)
        → Holds W declarations.all_defs (definitions_of declarations.definitions) extensions.now
        → is_missing (told e) ≡ true
        → refusal_of
        (missing_in_each (missing_in_definition (names_of declarations.all_defs))
        (definitions_of declarations.definitions)) ≡ Some e) }
    ensures as_declared { IfRefused result (λ e. (W : World)
        → Holds W declarations.all_defs (definitions_of declarations.definitions) extensions.now
        → KeepsDeclared (definitions_of declarations.definitions) e) }
{
    let Declarations {
        all_defs,
        definitions,
    } = declarations;
    match check_definitions(alloc, &all_defs, &definitions) {
        Ok(()) => resolve_checked(alloc, &all_defs, definitions, extensions),
        Err(failure) => Err(failure),
    }
}

impl FromSchemaFragments for ValidatorSchema {
    fn from_schema_fragments(
        alloc: Global,
        fragments: Vec<ValidatorSchemaFragment<ConditionalName, ConditionalName>>,
        extensions: &Extensions,
    ) -> Out<ValidatorSchema, SchemaError>
        ensures sound { IfOk result (λ _. Sound (world_of fragments.items extensions.now)) }
        ensures denotes { IfOk result
            (λ S. Denotes (world_of fragments.items extensions.now) (schema_in S)) }
        ensures consistent { IfOk result IsConsistent }
        ensures placed { IfOk result
            (IsPlaced (places_in (flat_map definitions_of fragments.items))) }
        ensures refused { IfRefused result
            (λ e. Cause (world_of fragments.items extensions.now) (told e)) }
        // Of references that mean nothing, those that the definitions miss are kept, places and all.
        ensures kept { IfRefused result (λ e. is_missing (told e) ≡ true
            → KeepsReferences (world_of fragments.items extensions.now)
            (flat_map definitions_of fragments.items) e) }
        // Types and actions that an error keeps are kept as they are declared, places and all.
        ensures as_declared { IfRefused result
            (KeepsDeclarations (world_of fragments.items extensions.now)
            (flat_map definitions_of fragments.items)) }
    {
        match declare(alloc, fragments, extensions) {
            Ok(declarations) => resolve_declarations(alloc, declarations, extensions),
            Err(failure) => Err(failure),
        }
    }
}
