// SPDX-License-Identifier: Apache-2.0
ghost use Rattle.std.specs.Prelude.{IfOk, IsOk};
ghost use Rattle.cedar_data.specs.Answers.{IfRefused};
ghost use Rattle.cedar_data.specs.Firsts.{AllPass, FirstRefused};
ghost use Rattle.cedar_schema_error.specs.Told.{told};
ghost use Rattle.cedar_declared.specs.Held.{names_of};
ghost use Rattle.cedar_shadowing.specs.Shadowing.{ShadowPasses, ShadowRefuses, shadow_phases};

use crate::actions::{action_shadowing, least_action};
use crate::types::{least_type, type_shadowing};
use cedar_data::{Failure, Out};
use cedar_declared::AllDefs;
use cedar_schema_error::SchemaError;
use std::alloc::Global;

/// Declared names that may shadow others.
pub trait ShadowingChecks {
    ghost use Rattle.std.specs.Prelude.{List, Option};
    ghost use Rattle.cedar_names.specs.of_text.declared.location.Loc.{Loc};
    ghost use Rattle.cedar_schema_error.specs.FullNames.{FullName, Uid};
    ghost use Rattle.cedar_schema_error.specs.KeptDeclarations.{KeepsAmong};
    ghost use Rattle.cedar_declared.specs.Names.{Names};

    /// The declared names.
    ghost own: { Self → Names };

    /// The declared types, each with its place.
    ghost types_at: { Self → List (FullName × Option Loc) };

    /// The declared actions, each with its place.
    ghost actions_at: { Self → List (Uid × Option Loc) };

    /// Refused where a declared type of a namespace, without `__cedar`, has the basename of a declared type without a
    /// namespace: with the least such type that is shadowed, and the least that shadows it. Else refused likewise for
    /// actions of one id. Memory is wanted only where it refuses.
    fn rfc_70_shadowing_checks(&self, alloc: Global) -> Out<(), SchemaError>
        ensures ok { IfOk result (λ _. AllPass (ShadowPasses (own self.now)) shadow_phases) }
        ensures refused { IfRefused result
            (λ e. FirstRefused (ShadowPasses (own self.now))
            (ShadowRefuses (own self.now)) shadow_phases (told e)) }
        ensures kept { IfRefused result (KeepsAmong (types_at self.now) (actions_at self.now)) }
        ensures sure { AllPass (ShadowPasses (own self.now)) shadow_phases → IsOk result };
}

impl ShadowingChecks for AllDefs {
    ghost use Rattle.cedar_declared.specs.HeldPlaces.{actions_at, types_at};

    ghost own = { names_of };

    ghost types_at = { types_at };

    ghost actions_at = { actions_at };

    #[tactic(auto, using(crate::proofs::Phases::phases))]
    fn rfc_70_shadowing_checks(&self, alloc: Global) -> Out<(), SchemaError> {
        if let Some(shadowing) = least_type(self) {
            let error = type_shadowing(alloc, self, shadowing)?;
            return Err(Failure::Refused(error));
        }
        if let Some(shadowing) = least_action(self) {
            let error = action_shadowing(alloc, self, shadowing)?;
            return Err(Failure::Refused(error));
        }
        Ok(())
    }
}
