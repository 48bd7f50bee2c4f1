// SPDX-License-Identifier: Apache-2.0
use crate::structures::{
    ActionFragment, ActionsDef, CommonTypeDefs, EntityTypeFragment, EntityTypesDef,
    ValidatorApplySpec, ValidatorNamespaceDef, ValidatorSchemaFragment,
};
use cedar_fragment::RefName;
use cedar_written::{Dup, Mem, dup_four, dup_three, dup_two};
use std::alloc::Global;

impl<N: RefName + Ord + Dup + Drop, A: Ord + Dup + Drop> Dup for ValidatorSchemaFragment<N, A> {
    fn dup(&self, alloc: Global) -> Mem<ValidatorSchemaFragment<N, A>> {
        let definitions = self.0.dup(alloc)?;
        Ok(ValidatorSchemaFragment(definitions))
    }
}

impl<N: RefName + Ord + Dup + Drop, A: Ord + Dup + Drop> Dup for ValidatorNamespaceDef<N, A> {
    fn dup(&self, alloc: Global) -> Mem<ValidatorNamespaceDef<N, A>> {
        let (namespace, common_types, entity_types, actions) = dup_four(
            alloc,
            &self.namespace,
            &self.common_types,
            &self.entity_types,
            &self.actions,
        )?;
        Ok(ValidatorNamespaceDef {
            namespace,
            common_types,
            entity_types,
            actions,
        })
    }
}

impl<N: Dup + Drop> Dup for CommonTypeDefs<N> {
    fn dup(&self, alloc: Global) -> Mem<CommonTypeDefs<N>> {
        let defs = self.defs.dup(alloc)?;
        Ok(CommonTypeDefs { defs })
    }
}

impl<N: Ord + Dup + Drop> Dup for EntityTypesDef<N> {
    fn dup(&self, alloc: Global) -> Mem<EntityTypesDef<N>> {
        let (defs, locs) = dup_two(alloc, &self.defs, &self.locs)?;
        Ok(EntityTypesDef { defs, locs })
    }
}

impl<N: Ord + Dup + Drop> Dup for EntityTypeFragment<N> {
    fn dup(&self, alloc: Global) -> Mem<EntityTypeFragment<N>> {
        match self {
            EntityTypeFragment::Standard {
                attributes,
                parents,
                tags,
            } => {
                let (attributes, parents, tags) = dup_three(alloc, attributes, parents, tags)?;
                Ok(EntityTypeFragment::Standard {
                    attributes,
                    parents,
                    tags,
                })
            }
            EntityTypeFragment::Enum(choices) => {
                let choices = choices.dup(alloc)?;
                Ok(EntityTypeFragment::Enum(choices))
            }
        }
    }
}

impl<N: RefName + Ord + Dup + Drop, A: Ord + Dup + Drop> Dup for ActionsDef<N, A> {
    fn dup(&self, alloc: Global) -> Mem<ActionsDef<N, A>> {
        let actions = self.actions.dup(alloc)?;
        Ok(ActionsDef { actions })
    }
}

impl<N: RefName + Ord + Dup + Drop, A: Ord + Dup + Drop> Dup for ActionFragment<N, A> {
    fn dup(&self, alloc: Global) -> Mem<ActionFragment<N, A>> {
        let (context, applies_to, parents) = dup_three(
            alloc,
            &self.context,
            &self.applies_to,
            &self.parents,
        )?;
        let (attribute_types, attributes, loc) = dup_three(
            alloc,
            &self.attribute_types,
            &self.attributes,
            &self.loc,
        )?;
        Ok(ActionFragment {
            context,
            applies_to,
            parents,
            attribute_types,
            attributes,
            loc,
        })
    }
}

impl<N: Ord + Dup + Drop> Dup for ValidatorApplySpec<N> {
    fn dup(&self, alloc: Global) -> Mem<ValidatorApplySpec<N>> {
        let (principal_apply_spec, resource_apply_spec) = dup_two(
            alloc,
            &self.principal_apply_spec,
            &self.resource_apply_spec,
        )?;
        Ok(ValidatorApplySpec {
            principal_apply_spec,
            resource_apply_spec,
        })
    }
}
