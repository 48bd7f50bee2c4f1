// SPDX-License-Identifier: Apache-2.0
ghost use Rattle.std.specs.Prelude.{◌≡◌, Ok, IfOk};
ghost use Rattle.cedar_written.specs.Answers.{Answers, IfRefused};
ghost use Rattle.cedar_written.specs.Through.{through_names};
ghost use Rattle.cedar_written.specs.declared.reference_type.ReferenceType.TheVariants as kind;
ghost use Rattle.cedar_fragment.specs.Refusals.{FirstRefusal};
ghost use Rattle.cedar_fragment.specs.Definitions.{through_action, through_apply, through_common, through_entity, through_kind, through_namespace, through_shape, through_standard, through_uid};

use crate::action_calls::with_type;
use crate::action_uid::ActionEntityUID;
use crate::attributes_or_context::AttributesOrContext;
use crate::definitions::{
    ActionType, ApplySpec, CommonType, EntityType, EntityTypeKind, NamespaceDefinition,
    StandardEntityType,
};
use cedar_json_fault::{RefName, ReferenceType, Step, Walk, walk_names};
use cedar_types::{Items, Out};
use std::alloc::Global;

/// What comes of two parts, or the first refusal.
#[tactic(auto, using(cedar_written::proofs::Goes::goes))]
fn walk_two<N, S: Step<N>, A: Walk<N, S> + Drop, B: Walk<N, S> + Drop>(
    alloc: Global,
    step: &S,
    first: A,
    second: B,
) -> Out<(A::Full, B::Full), S::Refusal>
    ensures first { IfOk result (λ made. A.through step.now first ≡ Ok made.0) }
    ensures second { IfOk result (λ made. B.through step.now second ≡ Ok made.1) }
    ensures refused { IfRefused result (FirstRefusal
        (A.through step.now first) (B.through step.now second)) }
{
    let first = first.walk(alloc, step)?;
    let second = second.walk(alloc, step)?;
    Ok((first, second))
}

/// What comes of names of entity types and of what is behind them, or the first refusal.
#[tactic(auto, using(cedar_written::proofs::Goes::goes))]
fn walk_names_and<N: Drop, S: Step<N>, A: Walk<N, S> + Drop>(
    alloc: Global,
    step: &S,
    names: Items<N>,
    behind: A,
) -> Out<(Items<S::Made>, A::Full), S::Refusal>
    ensures names { IfOk result (λ made. through_names (S.step step.now) kind.Entity names
        ≡ Ok made.0) }
    ensures behind { IfOk result (λ made. A.through step.now behind ≡ Ok made.1) }
    ensures refused { IfRefused result (FirstRefusal
        (through_names (S.step step.now) kind.Entity names) (A.through step.now behind)) }
{
    let names = walk_names(alloc, step, ReferenceType::Entity, names)?;
    let behind = behind.walk(alloc, step)?;
    Ok((names, behind))
}

impl<N: Drop, S: Step<N>> Walk<N, S> for AttributesOrContext<N> {
    type Full = AttributesOrContext<S::Made>;

    ghost through = { λ step. through_shape (S.step step) };

    #[tactic(auto, using(cedar_written::proofs::Goes::goes))]
    fn walk(self, alloc: Global, step: &S) -> Out<AttributesOrContext<S::Made>, S::Refusal> {
        let AttributesOrContext(ty) = self;
        let ty = ty.walk(alloc, step)?;
        Ok(AttributesOrContext(ty))
    }
}

impl<N: Drop, S: Step<N>> Walk<N, S> for CommonType<N> {
    type Full = CommonType<S::Made>;

    ghost through = { λ step. through_common (S.step step) };

    #[tactic(auto, using(cedar_written::proofs::Goes::goes))]
    fn walk(self, alloc: Global, step: &S) -> Out<CommonType<S::Made>, S::Refusal> {
        let CommonType {
            ty,
            annotations,
            loc,
        } = self;
        let ty = ty.walk(alloc, step)?;
        Ok(CommonType {
            ty,
            annotations,
            loc,
        })
    }
}

impl<N: Drop, S: Step<N>> Walk<N, S> for StandardEntityType<N> {
    type Full = StandardEntityType<S::Made>;

    ghost through = { λ step. through_standard (S.step step) };

    #[tactic(auto, using(cedar_written::proofs::Goes::goes))]
    fn walk(self, alloc: Global, step: &S) -> Out<StandardEntityType<S::Made>, S::Refusal> {
        let StandardEntityType {
            member_of_types,
            shape,
            tags,
        } = self;
        let (member_of_types, shape) = walk_names_and(alloc, step, member_of_types, shape)?;
        let tags = tags.walk(alloc, step)?;
        Ok(StandardEntityType {
            member_of_types,
            shape,
            tags,
        })
    }
}

impl<N: Drop, S: Step<N>> Walk<N, S> for EntityTypeKind<N> {
    type Full = EntityTypeKind<S::Made>;

    ghost through = { λ step. through_kind (S.step step) };

    #[tactic(auto, using(cedar_written::proofs::Goes::goes))]
    fn walk(self, alloc: Global, step: &S) -> Out<EntityTypeKind<S::Made>, S::Refusal> {
        match self {
            EntityTypeKind::Standard(entity) => {
                let entity = entity.walk(alloc, step)?;
                Ok(EntityTypeKind::Standard(entity))
            }
            EntityTypeKind::Enum { choices } => Ok(EntityTypeKind::Enum { choices }),
        }
    }
}

impl<N: Drop, S: Step<N>> Walk<N, S> for EntityType<N> {
    type Full = EntityType<S::Made>;

    ghost through = { λ step. through_entity (S.step step) };

    #[tactic(auto, using(cedar_written::proofs::Goes::goes))]
    fn walk(self, alloc: Global, step: &S) -> Out<EntityType<S::Made>, S::Refusal> {
        let EntityType {
            kind,
            annotations,
            loc,
        } = self;
        let kind = kind.walk(alloc, step)?;
        Ok(EntityType {
            kind,
            annotations,
            loc,
        })
    }
}

impl<N: Drop, S: Step<N>> Walk<N, S> for ApplySpec<N> {
    type Full = ApplySpec<S::Made>;

    ghost through = { λ step. through_apply (S.step step) };

    #[tactic(auto, using(cedar_written::proofs::Goes::goes))]
    fn walk(self, alloc: Global, step: &S) -> Out<ApplySpec<S::Made>, S::Refusal> {
        let ApplySpec {
            resource_types,
            principal_types,
            context,
        } = self;
        let resource_types = walk_names(alloc, step, ReferenceType::Entity, resource_types)?;
        let (principal_types, context) = walk_names_and(alloc, step, principal_types, context)?;
        Ok(ApplySpec {
            resource_types,
            principal_types,
            context,
        })
    }
}

impl<N: RefName + Drop, S: Step<N>> Walk<N, S> for ActionEntityUID<N> {
    type Full = ActionEntityUID<S::Made>;

    ghost through = { λ step. through_uid N.RefName S.Made.RefName (S.step step) };

    #[tactic(auto, using(cedar_written::proofs::Goes::goes))]
    fn walk(self, alloc: Global, step: &S) -> Out<ActionEntityUID<S::Made>, S::Refusal> {
        let ActionEntityUID { ty, id } = self;
        let ty = step.go_parent(alloc, &id, ty)?;
        Ok(with_type(ty, id))
    }
}

impl<N: RefName + Drop, S: Step<N>> Walk<N, S> for ActionType<N> {
    type Full = ActionType<S::Made>;

    ghost through = { λ step. through_action N.RefName S.Made.RefName (S.step step) };

    #[tactic(auto, using(cedar_written::proofs::Goes::goes))]
    fn walk(self, alloc: Global, step: &S) -> Out<ActionType<S::Made>, S::Refusal> {
        let ActionType {
            attributes,
            applies_to,
            member_of,
            annotations,
            loc,
        } = self;
        let (applies_to, member_of) = walk_two(alloc, step, applies_to, member_of)?;
        Ok(ActionType {
            attributes,
            applies_to,
            member_of,
            annotations,
            loc,
        })
    }
}

impl<N: RefName + Drop, S: Step<N>> Walk<N, S> for NamespaceDefinition<N> {
    type Full = NamespaceDefinition<S::Made>;

    ghost through = { λ step. through_namespace N.RefName S.Made.RefName (S.step step) };

    #[tactic(auto, using(cedar_written::proofs::Goes::goes))]
    fn walk(self, alloc: Global, step: &S) -> Out<NamespaceDefinition<S::Made>, S::Refusal> {
        let NamespaceDefinition {
            common_types,
            entity_types,
            actions,
            annotations,
        } = self;
        let common_types = common_types.walk(alloc, step)?;
        let entity_types = entity_types.walk(alloc, step)?;
        let actions = actions.walk(alloc, step)?;
        Ok(NamespaceDefinition {
            common_types,
            entity_types,
            actions,
            annotations,
        })
    }
}
