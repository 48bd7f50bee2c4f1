// SPDX-License-Identifier: Apache-2.0
ghost use Rattle.std.specs.Prelude.{◌≡◌, ◌++◌, IfOk, List, map};
ghost use Rattle.std.specs.List.{flat_map};
ghost use Rattle.cedar_data.specs.Answers.{IfRefused};
ghost use Rattle.cedar_declared.specs.Gathering.{declared_names};
ghost use Rattle.cedar_declared.specs.Held.{names_of};
ghost use Rattle.cedar_declared.specs.HeldPlaces.{HeldAmong};
ghost use Rattle.cedar_declared.specs.Names.{SameNames};
ghost use Rattle.cedar_declared.specs.of_definitions.DeclaredNames.{all_actions, all_types};
ghost use Rattle.cedar_declared.specs.of_definitions.Structures.{definitions_of};
ghost use Rattle.cedar_phases.specs.Holding.{Definition, Holds, world_of};
ghost use Rattle.cedar_phases.specs.Kept.{KeepsDeclared};
ghost use Rattle.cedar_phases.specs.Places.{places_in};
ghost use Rattle.cedar_schema_error.specs.KeptDeclarations.{placed, placed_action};
ghost use Rattle.cedar_schema_error.specs.Told.{told};
ghost use Rattle.cedar_sound.specs.Sound.{Passes, RefusesAt, Shadowing};

use cedar_data::{Mem, Out};
use cedar_declared::{AllDefs, ValidatorNamespaceDef, ValidatorSchemaFragment};
use cedar_names::Extensions;
use cedar_qualified::builtin_definitions;
use cedar_schema_error::{ConditionalName, SchemaError};
use cedar_sound::ShadowingChecks;
use cedar_text::push_all;
use std::alloc::Global;

/// The definition of a namespace.
pub(crate) type Definition = ValidatorNamespaceDef<ConditionalName, ConditionalName>;

/// Definitions of namespaces.
pub(crate) type Definitions = ValidatorSchemaFragment<ConditionalName, ConditionalName>;

/// All definitions, and the names that they declare.
#[derive(Drop)]
pub(crate) struct Declarations {
    /// The declared names.
    pub all_defs: AllDefs,
    /// The definitions, those of the builtin types and of their aliases last.
    pub definitions: Definitions,
}

/// The definitions of all fragments, in order.
#[tactic(auto, using(cedar_outlines::proofs::Appended::appended))]
fn all_definitions(alloc: Global, fragments: Vec<Definitions>) -> Mem<Vec<Definition>>
    ensures { IfOk result (λ all. all.items ≡ flat_map definitions_of fragments.items) }
{
    let mut all = Vec::new(alloc);
    for fragment in fragments {
        push_all(fragment.into_definitions(), &mut all)?;
    }
    Ok(all)
}

/// The definitions of all fragments, and then these.
fn join(alloc: Global, fragments: Vec<Definitions>, last: Definitions) -> Mem<Definitions>
    ensures { IfOk result (λ f. definitions_of f ≡ flat_map definitions_of fragments.items
        ++ definitions_of last) }
{
    let mut all = all_definitions(alloc, fragments)?;
    push_all(last.into_definitions(), &mut all)?;
    Ok(ValidatorSchemaFragment::from_namespaces(all))
}

/// All definitions of fragments, with the builtin types and their aliases, where `own` has the names of the fragments.
fn declare_all(
    alloc: Global,
    own: AllDefs,
    fragments: Vec<Definitions>,
    extensions: &Extensions,
) -> Mem<Declarations>
    requires { SameNames (names_of own)
        (declared_names (flat_map definitions_of fragments.items)) }
    ensures holds { IfOk result
        (λ d. Holds (world_of fragments.items extensions.now) d.all_defs
        (definitions_of d.definitions) extensions.now) }
    ensures places { IfOk result (λ d. places_in (definitions_of d.definitions)
        ≡ places_in (flat_map definitions_of fragments.items)) }
    ensures behind { IfOk result (λ d. (builtins : List Definition) × (definitions_of d.definitions
        ≡ flat_map definitions_of fragments.items ++ builtins)) }
{
    let builtins = builtin_definitions(alloc, &own, extensions)?;
    let all_defs = own.with_fragment(&builtins)?;
    let definitions = join(alloc, fragments, builtins)?;
    Ok(Declarations {
        all_defs,
        definitions,
    })
}

/// The same. Refused where a name that the fragments declare shadows another.
fn declare_with(
    alloc: Global,
    own: AllDefs,
    fragments: Vec<Definitions>,
    extensions: &Extensions,
) -> Out<Declarations, SchemaError>
    requires names { SameNames (names_of own)
        (declared_names (flat_map definitions_of fragments.items)) }
    requires held { HeldAmong (map placed (all_types (flat_map definitions_of fragments.items)))
        (map placed_action (all_actions (flat_map definitions_of fragments.items))) own }
    ensures passes { IfOk result
        (λ _. Passes (world_of fragments.items extensions.now) Shadowing) }
    ensures holds { IfOk result
        (λ d. Holds (world_of fragments.items extensions.now) d.all_defs
        (definitions_of d.definitions) extensions.now) }
    ensures places { IfOk result (λ d. places_in (definitions_of d.definitions)
        ≡ places_in (flat_map definitions_of fragments.items)) }
    ensures behind { IfOk result (λ d. (builtins : List Definition) × (definitions_of d.definitions
        ≡ flat_map definitions_of fragments.items ++ builtins)) }
    ensures refused { IfRefused result
        (λ e. RefusesAt (world_of fragments.items extensions.now) Shadowing (told e)) }
    ensures as_declared { IfRefused result
        (KeepsDeclared (flat_map definitions_of fragments.items)) }
{
    match own.rfc_70_shadowing_checks(alloc) {
        Ok(()) => {
            let declarations = declare_all(alloc, own, fragments, extensions)?;
            Ok(declarations)
        }
        Err(failure) => Err(failure),
    }
}

/// All definitions of fragments, with the builtin types and their aliases. Refused where a name that the fragments
/// declare shadows another.
pub(crate) fn declare(
    alloc: Global,
    fragments: Vec<Definitions>,
    extensions: &Extensions,
) -> Out<Declarations, SchemaError>
    ensures passes { IfOk result
        (λ _. Passes (world_of fragments.items extensions.now) Shadowing) }
    ensures holds { IfOk result
        (λ d. Holds (world_of fragments.items extensions.now) d.all_defs
        (definitions_of d.definitions) extensions.now) }
    ensures places { IfOk result (λ d. places_in (definitions_of d.definitions)
        ≡ places_in (flat_map definitions_of fragments.items)) }
    ensures behind { IfOk result (λ d. (builtins : List Definition) × (definitions_of d.definitions
        ≡ flat_map definitions_of fragments.items ++ builtins)) }
    ensures refused { IfRefused result
        (λ e. RefusesAt (world_of fragments.items extensions.now) Shadowing (told e)) }
    ensures as_declared { IfRefused result
        (KeepsDeclared (flat_map definitions_of fragments.items)) }
{
    let own = AllDefs::new(alloc, fragments.as_slice())?;
    declare_with(alloc, own, fragments, extensions)
}
