// SPDX-License-Identifier: Apache-2.0
ghost use Rattle.std.specs.Prelude.{◌≡◌, ◌<◌, [], map, IfOk};
ghost use Rattle.std.specs.Map.{keys_of};
ghost use Rattle.cedar_data.specs.Answers.{IfRefused};
ghost use Rattle.cedar_schema_error.specs.KeptDeclarations.{KeepsAmong, placed};
ghost use Rattle.cedar_schema_error.specs.Told.{told};
ghost use Rattle.cedar_unfold.specs.Full.{by_place, job_of};
ghost use Rattle.cedar_unfold.specs.ResolvedViews.{resolved};
ghost use Rattle.cedar_unfold.specs.Tables.{by_name};
ghost use Rattle.cedar_unfolding.specs.UnfoldPhases.{IsUnfolded, Unfoldable, WhyNotUnfoldable};

use crate::all::{Unfolded, unfold_all};
use crate::node::TypeNode;
use crate::steps::Steps;
use cedar_data::{Map, Out};
use cedar_names::{Extensions, InternalName};
use cedar_schema_error::{SchemaError, UsePlace};
use std::alloc::Global;
use std::marker::Brand;
use std::sync::ledger::{Blank, Ledger};

/// The same as `unfold_all`, with a counter of its own.
pub fn unfold_uncounted<T: TypeNode>(
    alloc: Global,
    defs: &Map<InternalName, T>,
    uses: &Map<UsePlace, T>,
    extensions: &Extensions,
) -> Out<Unfolded, SchemaError>
    ensures done { IfOk result
        (λ u. Unfoldable
        (job_of (by_name T.written defs.now) (by_place T.written uses.now) extensions.now)
        × IsUnfolded
        (job_of (by_name T.written defs.now) (by_place T.written uses.now) extensions.now)
        (by_name resolved u.common) (by_place resolved u.uses)) }
    ensures refused { IfRefused result
        (λ e. WhyNotUnfoldable
        (job_of (by_name T.written defs.now) (by_place T.written uses.now) extensions.now)
        (told e)) }
    ensures kept { IfRefused result (KeepsAmong (map placed (keys_of defs.now)) []) }
{
    unfold_in::<T, Brand>(alloc, defs, uses, extensions, Blank::new(1))
}

/// The same, counted in this new ledger.
fn unfold_in<T: TypeNode, L: Ledger>(
    alloc: Global,
    defs: &Map<InternalName, T>,
    uses: &Map<UsePlace, T>,
    extensions: &Extensions,
    blank: Blank,
) -> Out<Unfolded, SchemaError>
    requires name { blank.name ≡ L.name }
    requires parts { blank.parts ≡ L.parts }
    requires some { 0 < blank.parts }
    ensures done { IfOk result
        (λ u. Unfoldable
        (job_of (by_name T.written defs.now) (by_place T.written uses.now) extensions.now)
        × IsUnfolded
        (job_of (by_name T.written defs.now) (by_place T.written uses.now) extensions.now)
        (by_name resolved u.common) (by_place resolved u.uses)) }
    ensures refused { IfRefused result
        (λ e. WhyNotUnfoldable
        (job_of (by_name T.written defs.now) (by_place T.written uses.now) extensions.now)
        (told e)) }
    ensures kept { IfRefused result (KeepsAmong (map placed (keys_of defs.now)) []) }
{
    let mut steps = Steps::<L>::start(blank);
    unfold_all(alloc, defs, uses, extensions, &mut steps)
}
