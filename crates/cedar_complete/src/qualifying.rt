// SPDX-License-Identifier: Apache-2.0
ghost use Rattle.std.specs.Prelude.{◌≡◌, Some};
ghost use Rattle.std.specs.Result.{result_map_both};
ghost use Rattle.cedar_declared.specs.Held.{names_of};
ghost use Rattle.cedar_missing.specs.Undeclared.{refusal_of};
ghost use Rattle.cedar_complete.specs.Completed.{answer_of};
ghost use Rattle.cedar_written.specs.Answers.{Answers, IfRefused};

use crate::completing::Completes;
use cedar_data::{Failure, Out};
use cedar_declared::AllDefs;
use cedar_definitions::{
    ActionFragment, ActionsDef, CommonTypeDefs, EntityTypeFragment, EntityTypesDef,
    ValidatorApplySpec, ValidatorNamespaceDef, ValidatorSchemaFragment,
};
use cedar_fragment::ConditionalName;
use cedar_missing::HasReferences;
use cedar_names::{EntityType, InternalName};
use cedar_schema_error::SchemaError;
use std::alloc::Global;

/// Definitions, and their parts, whose references may be resolved.
pub trait FullyQualifyDefinitions: Completes + HasReferences {
    /// The same with the full name that each reference means. Refused with all references to types
    /// that mean nothing declared, as far as each declaration reports them; where there are none,
    /// with all such parents of actions; where there are none, with the first name with `__cedar`
    /// that a parent, a principal or a resource means; else never.
    fn fully_qualify_type_references(
        self,
        alloc: Global,
        all_defs: &AllDefs,
    ) -> Out<Self::Full, SchemaError>
        ensures answer { Answers (result_map_both Self.Completes.content (λ e. e) result)
            (answer_of (Self.HasReferences.missing (names_of all_defs.now) self)
            (Self.Completes.completed (names_of all_defs.now) self)) }
        ensures refused { IfRefused result
            (λ e. refusal_of (Self.HasReferences.missing (names_of all_defs.now) self) ≡ Some e) };
}

/// The refusal of what is missed, or else the same over full names.
fn complete_or_refuse<T: Completes + HasReferences + Drop>(
    alloc: Global,
    all_defs: &AllDefs,
    whole: T,
) -> Out<T::Full, SchemaError>
    ensures { Answers (result_map_both T.Completes.content (λ e. e) result)
        (answer_of (T.HasReferences.missing (names_of all_defs.now) whole)
        (T.Completes.completed (names_of all_defs.now) whole)) }
{
    let missing = whole.missing(alloc, all_defs)?;
    match missing.into_refusal() {
        Some(error) => Err(Failure::Refused(error)),
        None => whole.complete(alloc, all_defs),
    }
}

impl FullyQualifyDefinitions for ValidatorSchemaFragment<ConditionalName, ConditionalName> {
    #[tactic(auto, using(crate::proofs::NothingMissed::refusals))]
    fn fully_qualify_type_references(
        self,
        alloc: Global,
        all_defs: &AllDefs,
    ) -> Out<ValidatorSchemaFragment<InternalName, EntityType>, SchemaError> {
        complete_or_refuse(alloc, all_defs, self)
    }
}

impl FullyQualifyDefinitions for ValidatorNamespaceDef<ConditionalName, ConditionalName> {
    fn fully_qualify_type_references(
        self,
        alloc: Global,
        all_defs: &AllDefs,
    ) -> Out<ValidatorNamespaceDef<InternalName, EntityType>, SchemaError> {
        complete_or_refuse(alloc, all_defs, self)
    }
}

impl FullyQualifyDefinitions for CommonTypeDefs<ConditionalName> {
    fn fully_qualify_type_references(
        self,
        alloc: Global,
        all_defs: &AllDefs,
    ) -> Out<CommonTypeDefs<InternalName>, SchemaError> {
        complete_or_refuse(alloc, all_defs, self)
    }
}

impl FullyQualifyDefinitions for EntityTypesDef<ConditionalName> {
    fn fully_qualify_type_references(
        self,
        alloc: Global,
        all_defs: &AllDefs,
    ) -> Out<EntityTypesDef<InternalName>, SchemaError> {
        complete_or_refuse(alloc, all_defs, self)
    }
}

impl FullyQualifyDefinitions for EntityTypeFragment<ConditionalName> {
    #[tactic(auto, using(crate::proofs::NothingMissed::refusals))]
    fn fully_qualify_type_references(
        self,
        alloc: Global,
        all_defs: &AllDefs,
    ) -> Out<EntityTypeFragment<InternalName>, SchemaError> {
        complete_or_refuse(alloc, all_defs, self)
    }
}

impl FullyQualifyDefinitions for ActionsDef<ConditionalName, ConditionalName> {
    fn fully_qualify_type_references(
        self,
        alloc: Global,
        all_defs: &AllDefs,
    ) -> Out<ActionsDef<InternalName, EntityType>, SchemaError> {
        complete_or_refuse(alloc, all_defs, self)
    }
}

impl FullyQualifyDefinitions for ActionFragment<ConditionalName, ConditionalName> {
    #[tactic(auto, using(crate::proofs::NothingMissed::refusals))]
    fn fully_qualify_type_references(
        self,
        alloc: Global,
        all_defs: &AllDefs,
    ) -> Out<ActionFragment<InternalName, EntityType>, SchemaError> {
        complete_or_refuse(alloc, all_defs, self)
    }
}

impl FullyQualifyDefinitions for ValidatorApplySpec<ConditionalName> {
    #[tactic(auto, using(crate::proofs::NothingMissed::refusals))]
    fn fully_qualify_type_references(
        self,
        alloc: Global,
        all_defs: &AllDefs,
    ) -> Out<ValidatorApplySpec<EntityType>, SchemaError> {
        complete_or_refuse(alloc, all_defs, self)
    }
}
