// SPDX-License-Identifier: Apache-2.0
//! Definitions whose references miss nothing have their full names: no other refusal can come.
ghost use Rattle.std.specs.Prelude.{◌≡◌, None};
ghost use Rattle.cedar_declared.specs.Names.{Names};
ghost use Rattle.cedar_definitions.specs.Structures.{definitions_of};
ghost use Rattle.cedar_definitions.specs.declared.structures.ActionFragment.{ActionFragment};
ghost use Rattle.cedar_definitions.specs.declared.structures.ActionsDef.{ActionsDef};
ghost use Rattle.cedar_definitions.specs.declared.structures.CommonTypeDefs.{CommonTypeDefs};
ghost use Rattle.cedar_definitions.specs.declared.structures.EntityTypeFragment.{EntityTypeFragment};
ghost use Rattle.cedar_definitions.specs.declared.structures.EntityTypesDef.{EntityTypesDef};
ghost use Rattle.cedar_definitions.specs.declared.structures.ValidatorApplySpec.{ValidatorApplySpec};
ghost use Rattle.cedar_definitions.specs.declared.structures.ValidatorNamespaceDef.{ValidatorNamespaceDef};
ghost use Rattle.cedar_definitions.specs.declared.structures.ValidatorSchemaFragment.{ValidatorSchemaFragment};
ghost use Rattle.cedar_fragment.specs.ActionUids.{over_conditional};
ghost use Rattle.cedar_missing.specs.Undeclared.{missing_in_action, missing_in_apply, missing_in_common, missing_in_definition, missing_in_each, missing_in_entity, missing_in_values, refusal_of};
ghost use Rattle.cedar_written.specs.declared.conditional_name.ConditionalName.{ConditionalName};
ghost use Rattle.cedar_complete.specs.Completed.{IsMade, completed_action, completed_actions, completed_apply, completed_commons, completed_definition, completed_entities, completed_entity, completed_fragment};

/// The definitions of a fragment, and those of a namespace, are made over full names where they
/// miss nothing.
#[tactic(auto, using(crate::proofs::NothingMissed::wholes))]
pub fn what_misses_nothing_is_made()
    ensures fragment { (names : Names)
        (f : ValidatorSchemaFragment ConditionalName ConditionalName over_conditional)
        → refusal_of (missing_in_each (missing_in_definition names) (definitions_of f)) ≡ None
        → IsMade (completed_fragment names f) }
    ensures definition { (names : Names)
        (d : ValidatorNamespaceDef ConditionalName ConditionalName over_conditional)
        → refusal_of (missing_in_definition names d) ≡ None
        → IsMade (completed_definition names d) }
{}

/// So are common types, entity types and actions, and what an action applies to.
#[tactic(auto, using(crate::proofs::NothingMissed::parts))]
pub fn parts_that_miss_nothing_are_made()
    ensures common_types { (names : Names) (d : CommonTypeDefs ConditionalName)
        → refusal_of (missing_in_values (missing_in_common names) d.defs) ≡ None
        → IsMade (completed_commons names d) }
    ensures entity_types { (names : Names) (d : EntityTypesDef ConditionalName)
        → refusal_of (missing_in_values (missing_in_entity names) d.defs) ≡ None
        → IsMade (completed_entities names d) }
    ensures entity_type { (names : Names) (e : EntityTypeFragment ConditionalName)
        → refusal_of (missing_in_entity names e) ≡ None → IsMade (completed_entity names e) }
    ensures actions { (names : Names)
        (d : ActionsDef ConditionalName ConditionalName over_conditional)
        → refusal_of (missing_in_values (missing_in_action names) d.actions) ≡ None
        → IsMade (completed_actions names d) }
    ensures action { (names : Names)
        (a : ActionFragment ConditionalName ConditionalName over_conditional)
        → refusal_of (missing_in_action names a) ≡ None → IsMade (completed_action names a) }
    ensures applies_to { (names : Names) (a : ValidatorApplySpec ConditionalName)
        → refusal_of (missing_in_apply names a) ≡ None → IsMade (completed_apply names a) }
{}
