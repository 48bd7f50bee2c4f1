// SPDX-License-Identifier: Apache-2.0
use crate::definitions::{
    ActionType, ApplySpec, CommonType, EntityType, EntityTypeKind, Fragment, NamespaceDefinition,
    StandardEntityType,
};
use cedar_json_fault::RefName;
use cedar_types::{Dup, Mem, dup_four, dup_three, dup_two};
use std::alloc::Global;

impl<N: RefName + Dup + Drop> Dup for Fragment<N> {
    fn dup(&self, alloc: Global) -> Mem<Fragment<N>> {
        let namespaces = self.0.dup(alloc)?;
        Ok(Fragment(namespaces))
    }
}

impl<N: RefName + Dup + Drop> Dup for NamespaceDefinition<N> {
    fn dup(&self, alloc: Global) -> Mem<NamespaceDefinition<N>> {
        let (common_types, entity_types, actions, annotations) = dup_four(
            alloc,
            &self.common_types,
            &self.entity_types,
            &self.actions,
            &self.annotations,
        )?;
        Ok(NamespaceDefinition {
            common_types,
            entity_types,
            actions,
            annotations,
        })
    }
}

impl<N: Dup + Drop> Dup for CommonType<N> {
    fn dup(&self, alloc: Global) -> Mem<CommonType<N>> {
        let (ty, annotations, loc) = dup_three(alloc, &self.ty, &self.annotations, &self.loc)?;
        Ok(CommonType {
            ty,
            annotations,
            loc,
        })
    }
}

impl<N: Dup + Drop> Dup for EntityType<N> {
    fn dup(&self, alloc: Global) -> Mem<EntityType<N>> {
        let (kind, annotations, loc) = dup_three(alloc, &self.kind, &self.annotations, &self.loc)?;
        Ok(EntityType {
            kind,
            annotations,
            loc,
        })
    }
}

impl<N: Dup + Drop> Dup for EntityTypeKind<N> {
    fn dup(&self, alloc: Global) -> Mem<EntityTypeKind<N>> {
        match self {
            EntityTypeKind::Standard(entity) => {
                let entity = entity.dup(alloc)?;
                Ok(EntityTypeKind::Standard(entity))
            }
            EntityTypeKind::Enum { choices } => {
                let choices = choices.dup(alloc)?;
                Ok(EntityTypeKind::Enum { choices })
            }
        }
    }
}

impl<N: Dup + Drop> Dup for StandardEntityType<N> {
    fn dup(&self, alloc: Global) -> Mem<StandardEntityType<N>> {
        let (member_of_types, shape, tags) = dup_three(
            alloc,
            &self.member_of_types,
            &self.shape,
            &self.tags,
        )?;
        Ok(StandardEntityType {
            member_of_types,
            shape,
            tags,
        })
    }
}

impl<N: RefName + Dup + Drop> Dup for ActionType<N> {
    fn dup(&self, alloc: Global) -> Mem<ActionType<N>> {
        let (attributes, applies_to, member_of) = dup_three(
            alloc,
            &self.attributes,
            &self.applies_to,
            &self.member_of,
        )?;
        let (annotations, loc) = dup_two(alloc, &self.annotations, &self.loc)?;
        Ok(ActionType {
            attributes,
            applies_to,
            member_of,
            annotations,
            loc,
        })
    }
}

impl<N: Dup + Drop> Dup for ApplySpec<N> {
    fn dup(&self, alloc: Global) -> Mem<ApplySpec<N>> {
        let (resource_types, principal_types, context) = dup_three(
            alloc,
            &self.resource_types,
            &self.principal_types,
            &self.context,
        )?;
        Ok(ApplySpec {
            resource_types,
            principal_types,
            context,
        })
    }
}
