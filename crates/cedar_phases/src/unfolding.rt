// SPDX-License-Identifier: Apache-2.0
ghost use Rattle.std.specs.Prelude.{◌≡◌, ◌⊎◌, [], map, IfOk, List};
ghost use Rattle.std.specs.List.{AllZip};
ghost use Rattle.std.specs.Map.{keys_of};
ghost use Rattle.std.specs.declared.result.Result.TheVariants.{Ok, Err};
ghost use Rattle.cedar_data.specs.Answers.{IfRefused};
ghost use Rattle.cedar_data.specs.Maps.{map_values};
ghost use Rattle.cedar_declared.specs.Held.{names_of};
ghost use Rattle.cedar_declared.specs.Targets.{resolving};
ghost use Rattle.cedar_names.specs.Components.{components};
ghost use Rattle.cedar_phases.specs.Holding.{HoldsTypes, uses_of};
ghost use Rattle.cedar_schema_error.specs.KeptDeclarations.{KeepsAmong, placed};
ghost use Rattle.cedar_schema_error.specs.Told.{told};
ghost use Rattle.cedar_sound.specs.Sound.{Passes, RefusesAt, Unfolding};
ghost use Rattle.cedar_unfold.specs.Full.{by_place, job_of};
ghost use Rattle.cedar_schema_error.specs.FullNames.{FullName};
ghost use Rattle.cedar_unfold.specs.Resolved.{Resolved};
ghost use Rattle.cedar_unfold.specs.ResolvedViews.{resolved};
ghost use Rattle.cedar_unfold.specs.Tables.{by_name};
ghost use Rattle.cedar_unfold.specs.UnfoldPhases.{IsUnfolded, Unfoldable, UnfoldsAt, WhyNotUnfoldable};
ghost use Rattle.cedar_unfold.specs.WrittenViews.{written_type};
ghost use Rattle.cedar_qualified.specs.of_world.Qualified.{QualifiesJob};
ghost use Rattle.cedar_qualified.specs.of_world.Worlds.{World, job};
ghost use Rattle.cedar_written.specs.Answers.{all_values};
ghost use Rattle.cedar_written.specs.Through.{through_type};

use cedar_data::{Map, Out};
use cedar_declared::{AllDefs, Resolving, unboxed};
use cedar_names::{Extensions, InternalName};
use cedar_schema_error::{ConditionalName, SchemaError, SchemaType, UsePlace, Walk};
use cedar_types::Type;
use cedar_unfold::{Unfolded, unfold_uncounted};
use std::alloc::Global;

/// Types over full names: common types by name, and uses of types by place.
#[derive(Drop)]
pub(crate) struct FullTypes {
    /// The common types.
    pub common_types: Map<InternalName, SchemaType<InternalName>>,
    /// The uses of types.
    pub uses: Map<UsePlace, SchemaType<InternalName>>,
}

/// The same types with the full name that each reference means. Refused with a reference that means none.
pub(crate) fn full_types(
    alloc: Global,
    all_defs: &AllDefs,
    common_types: Map<InternalName, SchemaType<ConditionalName>>,
    uses: Map<UsePlace, SchemaType<ConditionalName>>,
) -> Out<FullTypes, SchemaError>
    ensures common_types { IfOk result
        (λ f. all_values
        (map_values (through_type (resolving (names_of all_defs.now))) common_types)
        ≡ Ok f.common_types) }
    ensures uses { IfOk result
        (λ f. all_values (map_values (through_type (resolving (names_of all_defs.now))) uses)
        ≡ Ok f.uses) }
    ensures refused { IfRefused result
        (λ e. (all_values
        (map_values (through_type (resolving (names_of all_defs.now))) common_types) ≡ Err e)
        ⊎ (all_values (map_values (through_type (resolving (names_of all_defs.now))) uses)
        ≡ Err e)) }
{
    let step = Resolving { all_defs };
    let common_types = unboxed(common_types.walk(alloc, &step))?;
    let uses = unboxed(uses.walk(alloc, &step))?;
    Ok(FullTypes { common_types, uses })
}

/// Types over full names, and what the uses of types unfold to.
#[derive(Drop)]
pub(crate) struct UnfoldedTypes {
    /// The types over full names.
    pub full: FullTypes,
    /// What the uses unfold to.
    pub uses: Map<UsePlace, Type>,
}

/// What the uses of full types unfold to, with these types. Refused where they don't.
fn unfold_full(
    alloc: Global,
    full: FullTypes,
    extensions: &Extensions,
) -> Out<UnfoldedTypes, SchemaError>
    ensures full { IfOk result (λ u. u.full ≡ full) }
    ensures done { IfOk result
        (λ _. Unfoldable
        (job_of (by_name (written_type components) full.common_types)
        (by_place (written_type components) full.uses) extensions.now)) }
    ensures unfolded { IfOk result (λ u. (cs : List (FullName × Resolved))
        × IsUnfolded
        (job_of (by_name (written_type components) full.common_types)
        (by_place (written_type components) full.uses) extensions.now) cs
        (by_place resolved u.uses)) }
    ensures refused { IfRefused result
        (λ e. WhyNotUnfoldable
        (job_of (by_name (written_type components) full.common_types)
        (by_place (written_type components) full.uses) extensions.now) (told e)) }
    ensures as_declared { IfRefused result
        (KeepsAmong (map placed (keys_of full.common_types)) []) }
{
    match unfold_uncounted(alloc, &full.common_types, &full.uses, extensions) {
        Ok(unfolded) => {
            let Unfolded { uses, .. } = unfolded;
            Ok(UnfoldedTypes { full, uses })
        }
        Err(failure) => Err(failure),
    }
}

/// What the uses of types unfold to, with the common types and each reference's full name. Refused where they don't.
pub(crate) fn unfolded_types(
    alloc: Global,
    all_defs: &AllDefs,
    common_types: Map<InternalName, SchemaType<ConditionalName>>,
    uses: Map<UsePlace, SchemaType<ConditionalName>>,
    extensions: &Extensions,
) -> Out<UnfoldedTypes, SchemaError>
    ensures passes { IfOk result (λ u. (W : World)
        → HoldsTypes W all_defs.now extensions.now common_types uses → Passes W Unfolding) }
    ensures qualifies { IfOk result (λ u. (W : World)
        → HoldsTypes W all_defs.now extensions.now common_types uses
        → QualifiesJob (job W) (by_name (written_type components) u.full.common_types)
        (by_place (written_type components) u.full.uses)) }
    ensures unfolded { IfOk result (λ u. (W : World)
        → HoldsTypes W all_defs.now extensions.now common_types uses
        → AllZip (UnfoldsAt (job W)) (uses_of W) (by_place resolved u.uses)) }
    ensures refused { IfRefused result (λ e. (W : World)
        → HoldsTypes W all_defs.now extensions.now common_types uses
        → RefusesAt W Unfolding (told e)) }
    ensures as_declared { IfRefused result (λ e. (W : World)
        → HoldsTypes W all_defs.now extensions.now common_types uses
        → KeepsAmong (map placed (keys_of common_types)) [] e) }
{
    match full_types(alloc, all_defs, common_types, uses) {
        Ok(full) => unfold_full(alloc, full, extensions),
        Err(failure) => Err(failure),
    }
}
