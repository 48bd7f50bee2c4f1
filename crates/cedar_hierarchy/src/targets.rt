// SPDX-License-Identifier: Apache-2.0
//! What references mean.
ghost use Rattle.std.specs.Prelude.{◌≡◌, ◌||◌, true, false, IfOk, OnOk, MatchOption};
ghost use Rattle.std.specs.Option.{option_map};
ghost use Rattle.std.specs.List.{list_any};
ghost use Rattle.std.specs.List.Sorted.{IsStrictlySortedBy};
ghost use Rattle.cedar_data.specs.Sets.{contains};
ghost use Rattle.cedar_outlines.specs.of_declared.Held.{names_of};
ghost use Rattle.cedar_outlines.specs.of_declared.Names.{action_target, is_action};
ghost use Rattle.cedar_outlines.specs.of_declared.Targets.{action_at};
ghost use Rattle.cedar_hierarchy.specs.Targets.{is_action_meant, is_here, is_type_meant};
ghost use Rattle.cedar_names.specs.Components.{components, has_cedar};
ghost use Rattle.cedar_names.specs.Names.{entity_words};
ghost use Rattle.cedar_schema_error.specs.FullNames.{uid_in};
ghost use Rattle.cedar_schema_error.specs.NameReferences.{action_reference_of};

use cedar_data::{Dup, Mem, Set, Text};
use cedar_names::{Eid, EntityType, EntityUID, InternalName, Name};
use cedar_outlines::AllDefs;
use cedar_schema_error::{ActionEntityUID, ConditionalName};
use std::alloc::Global;

/// References to what has keys `K`.
pub(crate) trait IsReference<K: Ord>: Ord {
    ghost use Rattle.std.specs.Prelude.{Bool};
    ghost use Rattle.cedar_outlines.specs.of_declared.Names.{Names};
    ghost use Rattle.cedar_hierarchy.specs.Targets.{is_here};

    /// Whether a reference means this key, among these names.
    ghost is_meant: { Names → Self → K → Bool };

    /// What the reference means, unless it means nothing that has a key. It fails only for want of memory.
    fn meant(&self, alloc: Global, all_defs: &AllDefs) -> Mem<Option<K>>
        ensures { IfOk result (λ o. (key : K) → is_here K.cmp o key
            ≡ is_meant (names_of all_defs.now) self.now key) };
}

/// What references mean.
pub(crate) fn all_meant<K: Ord + Drop, R: IsReference<K>>(
    alloc: Global,
    all_defs: &AllDefs,
    references: &Set<R>,
) -> Mem<Set<K>>
    ensures keys { IfOk result (λ keys. (key : K) → contains K.cmp keys key
        ≡ list_any (λ r. R.is_meant (names_of all_defs.now) r key) references.now) }
    ensures ordered { IfOk result (λ keys. IsStrictlySortedBy K.cmp keys) }
{
    let mut keys = Set::new(alloc);
    for reference in references.iter() {
        add_meant(alloc, all_defs, reference, &mut keys)?;
    }
    Ok(keys)
}

/// Puts what a reference means to the others.
fn add_meant<K: Ord + Drop, R: IsReference<K>>(
    alloc: Global,
    all_defs: &AllDefs,
    reference: &R,
    keys: &mut Set<K>,
) -> Mem<()>
    ensures adds { OnOk result ((key : K) → contains K.cmp keys.new key
        ≡ (R.is_meant (names_of all_defs.now) reference.now key || contains K.cmp keys.old key)) }
    ensures ordered { OnOk result (IsStrictlySortedBy K.cmp keys.old
        → IsStrictlySortedBy K.cmp keys.new) }
{
    let found = reference.meant(alloc, all_defs)?;
    add_found(found, keys)
}

/// Puts a key that was found to the others.
#[tactic(auto, using(crate::proofs::Meant::puts))]
fn add_found<K: Ord + Drop>(found: Option<K>, keys: &mut Set<K>) -> Mem<()>
    ensures adds { OnOk result ((key : K) → contains K.cmp keys.new key
        ≡ (is_here K.cmp found key || contains K.cmp keys.old key)) }
    ensures ordered { OnOk result (IsStrictlySortedBy K.cmp keys.old
        → IsStrictlySortedBy K.cmp keys.new) }
{
    match found {
        None => Ok(()),
        Some(key) => {
            keys.insert(key)?;
            Ok(())
        }
    }
}

/// The entity type of a name, unless a component of it is `__cedar`.
fn type_named(alloc: Global, name: &InternalName) -> Mem<Option<EntityType>>
    ensures { IfOk result (λ o. MatchOption o (has_cedar (components name.now) ≡ true)
        (λ ty. entity_words ty ≡ components name.now)) }
{
    let name = name.dup(alloc)?;
    match Name::from_internal(name) {
        Err(_) => Ok(None),
        Ok(name) => Ok(Some(EntityType::from_name(name))),
    }
}

/// The action of this type and this id, unless a component of the type is `__cedar`.
fn action_named(alloc: Global, ty: &InternalName, id: &Text) -> Mem<Option<EntityUID>>
    ensures { IfOk result (λ o. MatchOption o (has_cedar (components ty.now) ≡ true)
        (λ uid. uid_in uid ≡ action_at id.now ty.now)) }
{
    let Some(ty) = type_named(alloc, ty)? else {
        return Ok(None);
    };
    let id = id.dup(alloc)?;
    Ok(Some(EntityUID::from_components(ty, Eid::new(id), None)))
}

/// The action of this type and this id, where it is declared.
fn declared_action(
    alloc: Global,
    all_defs: &AllDefs,
    ty: &InternalName,
    id: &Text,
) -> Mem<Option<EntityUID>>
    ensures { IfOk result
        (λ o. MatchOption o (is_action (names_of all_defs.now) (action_at id.now ty.now) ≡ false)
        (λ uid. (is_action (names_of all_defs.now) (action_at id.now ty.now) ≡ true)
        × (uid_in uid ≡ action_at id.now ty.now))) }
{
    match action_named(alloc, ty, id)? {
        None => Ok(None),
        Some(uid) => Ok(if_declared(all_defs, uid)),
    }
}

/// The action itself, where it is declared.
fn if_declared(all_defs: &AllDefs, uid: EntityUID) -> Option<EntityUID>
    ensures { MatchOption result (is_action (names_of all_defs.now) (uid_in uid) ≡ false)
        (λ found. (is_action (names_of all_defs.now) (uid_in uid) ≡ true) × (found ≡ uid)) }
{
    if all_defs.is_defined_as_action(&uid) {
        Some(uid)
    } else {
        None
    }
}

/// The action that a parent means, if it means one.
fn find_action(
    alloc: Global,
    all_defs: &AllDefs,
    parent: &ActionEntityUID<ConditionalName>,
) -> Mem<Option<EntityUID>>
    ensures { IfOk result (λ o. option_map uid_in o
        ≡ action_target (names_of all_defs.now) (action_reference_of parent.now)) }
{
    for possibility in parent.ty().possibilities() {
        let found = declared_action(alloc, all_defs, possibility, &parent.id)?;
        if found.is_some() {
            return Ok(found);
        }
    }
    Ok(None)
}

/// A parent of an entity type, a principal or a resource.
impl IsReference<EntityType> for ConditionalName {
    ghost is_meant = { is_type_meant };

    fn meant(&self, alloc: Global, all_defs: &AllDefs) -> Mem<Option<EntityType>> {
        match all_defs.find_target(self) {
            None => Ok(None),
            Some(name) => type_named(alloc, name),
        }
    }
}

/// A parent of an action.
impl IsReference<EntityUID> for ActionEntityUID<ConditionalName> {
    ghost is_meant = { is_action_meant };

    fn meant(&self, alloc: Global, all_defs: &AllDefs) -> Mem<Option<EntityUID>> {
        find_action(alloc, all_defs, self)
    }
}
