// SPDX-License-Identifier: Apache-2.0
//! The least type that shadows another. It is found in one pass, and without memory.
ghost use Rattle.std.specs.Prelude.{◌≡◌, [], ◌∷◌, ◌++◌, None, map, IfOk, IfSome, IsTrue, MatchOption};
ghost use Rattle.std.specs.Option.{option_copied, option_map};
ghost use Rattle.std.specs.Ordering.{is_lt};
ghost use Rattle.cedar_data.specs.Firsts.{AllPass};
ghost use Rattle.cedar_names.specs.Components.{basename_of, components, loc_of};
ghost use Rattle.cedar_names.specs.Order.{words_cmp};
ghost use Rattle.cedar_schema_error.specs.ErrorPlaces.{places_of};
ghost use Rattle.cedar_schema_error.specs.FullNames.{basename};
ghost use Rattle.cedar_schema_error.specs.KeptDeclarations.{KeepsAmong};
ghost use Rattle.cedar_written.specs.declared.reference_type.ReferenceType.TheVariants.{CommonOrEntity};
ghost use Rattle.cedar_places.specs.Places.{range};
ghost use Rattle.cedar_schema_error.specs.Refusals.{TypeShadowing};
ghost use Rattle.cedar_schema_error.specs.Told.{told};
ghost use Rattle.cedar_declared.specs.Held.{names_of};
ghost use Rattle.cedar_declared.specs.HeldPlaces.{IsHeldType, actions_at, types_at};
ghost use Rattle.cedar_declared.specs.Names.{is_declared};
ghost use Rattle.cedar_declared.specs.TypeNames.{place_alone};
ghost use Rattle.cedar_shadowing.specs.Shadowing.{IsLeastPair, NoPair, ShadowsType};
ghost use Rattle.cedar_shadowing.specs.Picking.{least_shadowing, shadowing_cmp, shadows_type};

use cedar_data::{Dup, Mem, SetIter};
use cedar_declared::AllDefs;
use cedar_names::InternalName;
use cedar_schema_error::{SchemaError, TypeShadowingError};
use std::alloc::Global;
use std::cmp::Ordering;

/// Whether the name has a namespace and no `__cedar`, and shadows a declared type.
#[tactic(auto, using(crate::proofs::Shadowers::shadowers))]
fn shadows(all_defs: &AllDefs, name: &InternalName) -> bool
    ensures { result ≡ shadows_type (names_of all_defs.now) (components name.now) }
{
    if name.is_unqualified() {
        return false;
    }
    if name.is_reserved() {
        return false;
    }
    all_defs.is_defined_alone(name.basename())
}

/// Whether one name comes before another.
fn comes_first(name: &InternalName, other: &InternalName) -> bool
    ensures { result ≡ is_lt (words_cmp (components name.now) (components other.now)) }
{
    name.cmp(other) == Ordering::Less
}

/// Whether one name comes before another: by basename, then by name.
fn precedes(name: &InternalName, other: &InternalName) -> bool
    ensures { result ≡ is_lt (shadowing_cmp (components name.now) (components other.now)) }
{
    let first = name.basename();
    let second = other.basename();
    match first.cmp(second) {
        Ordering::Less => true,
        Ordering::Equal => comes_first(name, other),
        Ordering::Greater => false,
    }
}

/// The first of these two names, where there are two.
fn earlier<'a>(
    all_defs: &AllDefs,
    best: Option<&'a InternalName>,
    name: &'a InternalName,
) -> Option<&'a InternalName>
    ensures least { option_map components (option_copied result)
        ≡ least_shadowing (names_of all_defs.now) (option_map components (option_copied best.entry))
        (components name.now ∷ []) }
    ensures held { IfSome (option_copied best.entry) (IsHeldType all_defs.now)
        → IsHeldType all_defs.now name.now
        → IfSome (option_copied result) (IsHeldType all_defs.now) }
{
    if !shadows(all_defs, name) {
        return best;
    }
    match best {
        None => Some(name),
        Some(other) => {
            if precedes(name, other) {
                Some(name)
            } else {
                best
            }
        }
    }
}

/// The least of the names that shadow a declared type, and of the best before.
#[tactic(auto, using(crate::proofs::KeptPairs::picks_types))]
fn least_among<'a>(
    all_defs: &AllDefs,
    names: SetIter<'a, InternalName>,
    best: Option<&'a InternalName>,
) -> Option<&'a InternalName>
    ensures least { option_map components (option_copied result)
        ≡ least_shadowing (names_of all_defs.now) (option_map components (option_copied best.entry))
        (map components names.entry) }
    ensures held { IfSome (option_copied best.entry) (IsHeldType all_defs.now)
        → AllPass (IsHeldType all_defs.now) names.entry
        → IfSome (option_copied result) (IsHeldType all_defs.now) }
{
    let mut least = best;
    for name in names {
        least = earlier(all_defs, least, name);
    }
    least
}

/// The least type that shadows another, if there is one.
#[tactic(auto, using(crate::proofs::Shadowers::shadowers))]
fn least_name(all_defs: &AllDefs) -> Option<&InternalName>
    ensures least { option_map components (option_copied result)
        ≡ least_shadowing (names_of all_defs.now)
        (least_shadowing (names_of all_defs.now) None (names_of all_defs.now).entity_types)
        (names_of all_defs.now).common_types }
    ensures held { IfSome (option_copied result) (IsHeldType all_defs.now) }
{
    let least = least_among(all_defs, all_defs.qualified_entity_types(), None);
    least_among(all_defs, all_defs.qualified_common_types(), least)
}

/// The type that shadows another in the least pair, if there is one.
#[tactic(auto, using(crate::proofs::LeastTypes::least_pair))]
pub(crate) fn least_type(all_defs: &AllDefs) -> Option<&InternalName>
    ensures least { MatchOption (option_copied result)
        (NoPair (ShadowsType (names_of all_defs.now)))
        (λ n. IsLeastPair words_cmp (ShadowsType (names_of all_defs.now)) (basename (components n)
        ∷ []) (components n)) }
    ensures held { IfSome (option_copied result) (IsHeldType all_defs.now) }
{
    least_name(all_defs)
}

/// The error that a type shadows its basename, with the places of both.
pub(crate) fn type_shadowing(
    alloc: Global,
    all_defs: &AllDefs,
    shadowing: &InternalName,
) -> Mem<SchemaError>
    ensures told { IfOk result (λ e. told e
        ≡ TypeShadowing (basename (components shadowing.now) ∷ []) (components shadowing.now)) }
    ensures places { IfOk result (λ e. places_of e
        ≡ range (place_alone all_defs.now (basename_of shadowing.now))
        ++ range (loc_of shadowing.now)) }
    ensures kept { IsTrue (is_declared (names_of all_defs.now) CommonOrEntity
        (basename (components shadowing.now) ∷ []))
        → IsHeldType all_defs.now shadowing.now
        → IfOk result (KeepsAmong (types_at all_defs.now) (actions_at all_defs.now)) }
{
    let shadowed_def = all_defs.name_alone(alloc, shadowing.basename())?;
    let shadowing_def = shadowing.dup(alloc)?;
    Ok(SchemaError::TypeShadowing(TypeShadowingError {
        shadowed_def,
        shadowing_def,
    }))
}
