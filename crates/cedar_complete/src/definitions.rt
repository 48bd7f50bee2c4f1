// SPDX-License-Identifier: Apache-2.0
//! Definitions with the full name that each reference means in its place.
ghost use Rattle.std.specs.Prelude.{List};
ghost use Rattle.cedar_complete.specs.Completed.{FullAction, FullActions, FullApply, FullCommons, FullDefinition, FullEntities, FullEntity, action_content, actions_content, apply_content, completed_action, completed_actions, completed_apply, completed_commons, completed_definition, completed_entities, completed_entity, completed_fragment, definition_content, fragment_content};

use crate::completing::{Completes, complete_around, complete_three};
use crate::targets::target_set;
use cedar_data::{Items, Out};
use cedar_declared::AllDefs;
use cedar_definitions::{
    ActionFragment, ActionsDef, CommonTypeDefs, EntityTypeFragment, EntityTypesDef,
    ValidatorApplySpec, ValidatorNamespaceDef, ValidatorSchemaFragment,
};
use cedar_fragment::ConditionalName;
use cedar_names::{EntityType, InternalName};
use cedar_schema_error::SchemaError;
use std::alloc::Global;

impl Completes for CommonTypeDefs<ConditionalName> {
    type Full = CommonTypeDefs<InternalName>;

    ghost Content = { FullCommons };

    ghost content = { λ d. d };

    ghost completed = { completed_commons };

    #[tactic(auto, using(crate::proofs::Contents::parts))]
    fn complete(
        self,
        alloc: Global,
        all_defs: &AllDefs,
    ) -> Out<CommonTypeDefs<InternalName>, SchemaError> {
        let CommonTypeDefs { defs } = self;
        let defs = defs.complete(alloc, all_defs)?;
        Ok(CommonTypeDefs { defs })
    }
}

impl Completes for EntityTypeFragment<ConditionalName> {
    type Full = EntityTypeFragment<InternalName>;

    ghost Content = { FullEntity };

    ghost content = { λ e. e };

    ghost completed = { completed_entity };

    #[tactic(auto, using(crate::proofs::Contents::parts))]
    fn complete(
        self,
        alloc: Global,
        all_defs: &AllDefs,
    ) -> Out<EntityTypeFragment<InternalName>, SchemaError> {
        match self {
            EntityTypeFragment::Standard {
                attributes,
                parents,
                tags,
            } => {
                let (parents, attributes, tags) = complete_around(
                    alloc, all_defs, parents, attributes, tags,
                )?;
                Ok(EntityTypeFragment::Standard {
                    attributes,
                    parents,
                    tags,
                })
            }
            EntityTypeFragment::Enum(choices) => Ok(EntityTypeFragment::Enum(choices)),
        }
    }
}

impl Completes for EntityTypesDef<ConditionalName> {
    type Full = EntityTypesDef<InternalName>;

    ghost Content = { FullEntities };

    ghost content = { λ d. d };

    ghost completed = { completed_entities };

    #[tactic(auto, using(crate::proofs::Contents::parts))]
    fn complete(
        self,
        alloc: Global,
        all_defs: &AllDefs,
    ) -> Out<EntityTypesDef<InternalName>, SchemaError> {
        let EntityTypesDef { defs, locs } = self;
        let defs = defs.complete(alloc, all_defs)?;
        Ok(EntityTypesDef { defs, locs })
    }
}

impl Completes for ValidatorApplySpec<ConditionalName> {
    type Full = ValidatorApplySpec<EntityType>;

    ghost Content = { FullApply };

    ghost content = { apply_content };

    ghost completed = { completed_apply };

    fn complete(
        self,
        alloc: Global,
        all_defs: &AllDefs,
    ) -> Out<ValidatorApplySpec<EntityType>, SchemaError> {
        let principal_apply_spec = target_set(alloc, all_defs, &self.principal_apply_spec)?;
        let resource_apply_spec = target_set(alloc, all_defs, &self.resource_apply_spec)?;
        Ok(ValidatorApplySpec {
            principal_apply_spec,
            resource_apply_spec,
        })
    }
}

impl Completes for ActionFragment<ConditionalName, ConditionalName> {
    type Full = ActionFragment<InternalName, EntityType>;

    ghost Content = { FullAction };

    ghost content = { action_content };

    ghost completed = { completed_action };

    #[tactic(auto, using(crate::proofs::Contents::parts))]
    fn complete(
        self,
        alloc: Global,
        all_defs: &AllDefs,
    ) -> Out<ActionFragment<InternalName, EntityType>, SchemaError> {
        let ActionFragment {
            context,
            applies_to,
            parents,
            attribute_types,
            attributes,
            loc,
        } = self;
        let (parents, applies_to, context) = complete_around(
            alloc, all_defs, parents, applies_to, context,
        )?;
        Ok(ActionFragment {
            context,
            applies_to,
            parents,
            attribute_types,
            attributes,
            loc,
        })
    }
}

impl Completes for ActionsDef<ConditionalName, ConditionalName> {
    type Full = ActionsDef<InternalName, EntityType>;

    ghost Content = { FullActions };

    ghost content = { actions_content };

    ghost completed = { completed_actions };

    #[tactic(auto, using(crate::proofs::Contents::parts))]
    fn complete(
        self,
        alloc: Global,
        all_defs: &AllDefs,
    ) -> Out<ActionsDef<InternalName, EntityType>, SchemaError> {
        let ActionsDef { actions } = self;
        let actions = actions.complete(alloc, all_defs)?;
        Ok(ActionsDef { actions })
    }
}

impl Completes for ValidatorNamespaceDef<ConditionalName, ConditionalName> {
    type Full = ValidatorNamespaceDef<InternalName, EntityType>;

    ghost Content = { FullDefinition };

    ghost content = { definition_content };

    ghost completed = { completed_definition };

    #[tactic(auto, using(crate::proofs::Contents::parts))]
    fn complete(
        self,
        alloc: Global,
        all_defs: &AllDefs,
    ) -> Out<ValidatorNamespaceDef<InternalName, EntityType>, SchemaError> {
        let ValidatorNamespaceDef {
            namespace,
            common_types,
            entity_types,
            actions,
        } = self;
        let (common_types, entity_types, actions) = complete_three(
            alloc,
            all_defs,
            common_types,
            entity_types,
            actions,
        )?;
        Ok(ValidatorNamespaceDef {
            namespace,
            common_types,
            entity_types,
            actions,
        })
    }
}

impl Completes for ValidatorSchemaFragment<ConditionalName, ConditionalName> {
    type Full = ValidatorSchemaFragment<InternalName, EntityType>;

    ghost Content = { List FullDefinition };

    ghost content = { fragment_content };

    ghost completed = { completed_fragment };

    #[tactic(auto, using(crate::proofs::Contents::parts))]
    fn complete(
        self,
        alloc: Global,
        all_defs: &AllDefs,
    ) -> Out<ValidatorSchemaFragment<InternalName, EntityType>, SchemaError> {
        let definitions = Items::from_vec(self.into_definitions());
        let definitions = definitions.complete(alloc, all_defs)?;
        Ok(ValidatorSchemaFragment::from_namespaces(definitions.into_vec()))
    }
}
