// SPDX-License-Identifier: Apache-2.0
//! Sets of references, and the sets of what they mean.
ghost use Rattle.std.specs.Prelude.{◌≡◌, map};
ghost use Rattle.std.specs.Result.{result_map_both};
ghost use Rattle.cedar_written.specs.Answers.{Answers};
ghost use Rattle.cedar_written.specs.Reference.{named};
ghost use Rattle.cedar_written.specs.declared.reference_type.ReferenceType.TheVariants as kind;
ghost use Rattle.cedar_declared.specs.Targets.{resolving};
ghost use Rattle.cedar_declared.specs.Held.{names_of};
ghost use Rattle.cedar_complete.specs.Completed.{through_set};

use cedar_data::{Dup, Failure, Out, Set};
use cedar_declared::{AllDefs, FullyQualify, Resolving, unboxed};
use cedar_fragment::{ActionEntityUID, ConditionalName, ReferenceType, Step};
use cedar_names::{EntityType, InternalName, Name, ReservedNameError};
use cedar_schema_error::SchemaError;
use std::alloc::Global;

/// A reference in a set, that means an `F`.
pub(crate) trait Member<F> {
    ghost use Rattle.std.specs.declared.cmp.Ordering.{Ordering};
    ghost use Rattle.std.specs.declared.result.Result.{Result};
    ghost use Rattle.cedar_declared.specs.Names.{Names};
    ghost use Rattle.cedar_schema_error.specs.declared.schema_error.SchemaError.{SchemaError};

    /// What an `F` is told as.
    ghost Content: { Type 0 };

    /// What this `F` is told as.
    ghost content: { F → Content };

    /// The order of what they are told as.
    ghost order: { Content → Content → Ordering };

    /// What is meant, or the refusal.
    ghost meant: { Names → Self → Result Content SchemaError };

    /// What is meant.
    fn target(&self, alloc: Global, all_defs: &AllDefs) -> Out<F, SchemaError>
        ensures { Answers (result_map_both content (λ e. e) result)
            (meant (names_of all_defs.now) self.now) };
}

/// The full name that a reference to an entity type means.
fn find_target(
    alloc: Global,
    all_defs: &AllDefs,
    reference: &ConditionalName,
) -> Out<InternalName, SchemaError>
    ensures { Answers result (resolving (names_of all_defs.now) (named kind.Entity reference.now)) }
{
    let name = reference.dup(alloc)?;
    let step = Resolving { all_defs };
    unboxed(step.go(alloc, ReferenceType::Entity, name))
}

/// A principal or a resource.
impl Member<EntityType> for ConditionalName {
    ghost use Rattle.cedar_names.specs.Names.{internal_cmp};
    ghost use Rattle.cedar_names.specs.declared.internal_name.InternalName.{InternalName};
    ghost use Rattle.cedar_complete.specs.Completed.{internal_in, membership};

    ghost Content = { InternalName };

    ghost content = { internal_in };

    ghost order = { internal_cmp };

    ghost meant = { membership };

    fn target(&self, alloc: Global, all_defs: &AllDefs) -> Out<EntityType, SchemaError> {
        let target = find_target(alloc, all_defs, self)?;
        match Name::from_internal(target) {
            Ok(name) => Ok(EntityType::from_name(name)),
            Err(error) => Err(Failure::Refused(SchemaError::ReservedName(error))),
        }
    }
}

/// A parent of an entity type.
impl Member<InternalName> for ConditionalName {
    ghost use Rattle.cedar_names.specs.Names.{internal_cmp};
    ghost use Rattle.cedar_names.specs.declared.internal_name.InternalName.{InternalName};
    ghost use Rattle.cedar_complete.specs.Completed.{membership};

    ghost Content = { InternalName };

    ghost content = { λ n. n };

    ghost order = { internal_cmp };

    ghost meant = { membership };

    fn target(&self, alloc: Global, all_defs: &AllDefs) -> Out<InternalName, SchemaError> {
        let target = find_target(alloc, all_defs, self)?;
        if target.is_reserved() {
            let error = ReservedNameError { name: target };
            return Err(Failure::Refused(SchemaError::ReservedName(error)));
        }
        Ok(target)
    }
}

/// A parent of an action.
impl Member<ActionEntityUID<InternalName>> for ActionEntityUID<ConditionalName> {
    ghost use Rattle.cedar_complete.specs.Completed.{FullParent, completed_parent, parent_cmp};

    ghost Content = { FullParent };

    ghost content = { λ a. a };

    ghost order = { parent_cmp };

    ghost meant = { completed_parent };

    fn target(
        &self,
        alloc: Global,
        all_defs: &AllDefs,
    ) -> Out<ActionEntityUID<InternalName>, SchemaError> {
        let parent = self.dup(alloc)?;
        parent.fully_qualify_type_references(alloc, all_defs)
    }
}

/// What the references of a set mean, as a set in order.
pub(crate) fn target_set<K: Ord + Member<F>, F: Ord + Drop>(
    alloc: Global,
    all_defs: &AllDefs,
    keys: &Set<K>,
) -> Out<Set<F>, SchemaError>
    requires in_order { (a b : F) → F.cmp a b
        ≡ K.Member.order (K.Member.content a) (K.Member.content b) }
    ensures { Answers (result_map_both (map K.Member.content) (λ e. e) result)
        (through_set K.Member.order (K.Member.meant (names_of all_defs.now)) keys.now) }
{
    let mut targets = Set::new(alloc);
    for key in keys.iter() {
        let target = key.target(alloc, all_defs)?;
        targets.insert(target)?;
    }
    Ok(targets)
}
