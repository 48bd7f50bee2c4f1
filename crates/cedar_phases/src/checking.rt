// SPDX-License-Identifier: Apache-2.0
ghost use Rattle.std.specs.Prelude.{◌≡◌, true, None, Some, IfOk};
ghost use Rattle.cedar_data.specs.Answers.{IfRefused};
ghost use Rattle.cedar_declared.specs.Held.{names_of};
ghost use Rattle.cedar_declared.specs.of_definitions.Structures.{definitions_of};
ghost use Rattle.cedar_qualified.specs.of_missing.Undeclared.{missing_in_definition, missing_in_each, refusal_of};
ghost use Rattle.cedar_names.specs.declared.extensions.Extensions.{Extensions};
ghost use Rattle.cedar_phases.specs.Holding.{AllPassed, Holds, OneRefuses, early_phases};
ghost use Rattle.cedar_phases.specs.Kept.{KeepsDeclared, is_missing};
ghost use Rattle.cedar_schema_error.specs.Told.{told};
ghost use Rattle.cedar_qualified.specs.of_world.Worlds.{World};

use crate::declaring::Definitions;
use cedar_data::{Failure, Out};
use cedar_declared::AllDefs;
use cedar_qualified::HasReferences;
use cedar_schema_error::SchemaError;
use cedar_sound::refuse_duplicates;
use std::alloc::Global;

/// Refused with the references of definitions that mean nothing declared; where there are none, with the first name
/// with `__cedar` that a parent, a principal or a resource means.
fn refuse_missing(
    alloc: Global,
    all_defs: &AllDefs,
    definitions: &Definitions,
) -> Out<(), SchemaError>
    ensures nothing { IfOk result
        (λ _. refusal_of
        (missing_in_each (missing_in_definition (names_of all_defs.now))
        (definitions_of definitions.now)) ≡ None) }
    ensures refused { IfRefused result
        (λ e. refusal_of
        (missing_in_each (missing_in_definition (names_of all_defs.now))
        (definitions_of definitions.now)) ≡ Some e) }
{
    let missing = definitions.missing(alloc, all_defs)?;
    match missing.into_refusal() {
        None => Ok(()),
        Some(error) => Err(Failure::Refused(error)),
    }
}

/// Refused where a reference has no target, or one that it may not have; where each has one, with the first full name
/// that is declared twice.
pub(crate) fn check_definitions(
    alloc: Global,
    all_defs: &AllDefs,
    definitions: &Definitions,
) -> Out<(), SchemaError>
    ensures passes { IfOk result (λ _. (W : World) (X : Extensions)
        → Holds W all_defs.now (definitions_of definitions.now) X → AllPassed W early_phases) }
    ensures refused { IfRefused result (λ e. (W : World) (X : Extensions)
        → Holds W all_defs.now (definitions_of definitions.now) X
        → OneRefuses W early_phases (told e)) }
    ensures kept { IfRefused result (λ e. is_missing (told e) ≡ true
        → refusal_of
        (missing_in_each (missing_in_definition (names_of all_defs.now))
        (definitions_of definitions.now)) ≡ Some e) }
    ensures as_declared { IfRefused result (KeepsDeclared (definitions_of definitions.now)) }
{
    match refuse_missing(alloc, all_defs, definitions) {
        Ok(()) => refuse_duplicates(alloc, definitions.definitions()),
        Err(failure) => Err(failure),
    }
}
