// SPDX-License-Identifier: Apache-2.0
ghost use Rattle.std.specs.Prelude.{◌≡◌, ◌+◌, ◌≤◌, ⊤, IfOk, MatchOption};
ghost use Rattle.std.specs.List.{AllZip};
ghost use Rattle.cedar_data.specs.Answers.{IfRefused};
ghost use Rattle.cedar_data.specs.Firsts.{FirstRefused};
ghost use Rattle.cedar_schema_error.specs.Refusals.{ContextOrShapeNotRecord, Place, TooDeep};
ghost use Rattle.cedar_schema_error.specs.Told.{told, told_use};
ghost use Rattle.cedar_unfold.specs.Full.{Definitions, IsFull, by_place, meanings_of};
ghost use Rattle.cedar_unfold.specs.KeptNames.{KeepsNone};
ghost use Rattle.cedar_unfold.specs.Passing.{GivesUse, PassesAs};
ghost use Rattle.cedar_unfold.specs.ResolvedViews.{resolved};
ghost use Rattle.cedar_unfold.specs.Tables.{tabled};
ghost use Rattle.cedar_unfolding.specs.UnfoldPhases.{Fits, UsePasses, UseRefuses};
ghost use Rattle.cedar_unfolding.specs.Written.{nodes, all_nodes};

use crate::copies::put_copy;
use crate::nested::Nested;
use crate::node::TypeNode;
use crate::steps::Steps;
use crate::unfold_type::unfolded;
use cedar_data::{Dup, Failure, Map, Mem, Out};
use cedar_names::{Extensions, InternalName};
use cedar_schema_error::{
    ContextOrShape, ContextOrShapeNotRecordError, DeepPlace, SchemaError, TooDeepError, UsePlace,
};
use cedar_types::{Type, TypeView};
use std::alloc::Global;
use std::sync::ledger::Ledger;

/// What each use unfolds to; refused as the first use that is.
pub(crate) fn unfolded_uses<T: TypeNode, L: Ledger>(
    alloc: Global,
    uses: &Map<UsePlace, T>,
    extensions: &Extensions,
    table: &Map<InternalName, Option<Nested>>,
    steps: &mut Steps<L>,
) -> Out<Map<UsePlace, Type>, SchemaError>
    ensures types { IfOk result (λ made. (definitions : Definitions)
        → IsFull (meanings_of definitions extensions.now) (tabled table.now)
        → AllZip (GivesUse (meanings_of definitions extensions.now)) (by_place T.written uses.now)
        (by_place resolved made)) }
    ensures refused { IfRefused result (λ e. (definitions : Definitions)
        → IsFull (meanings_of definitions extensions.now) (tabled table.now)
        → FirstRefused (UsePasses (meanings_of definitions extensions.now))
        (UseRefuses (meanings_of definitions extensions.now)) (by_place T.written uses.now)
        (told e)) }
    ensures kept { IfRefused result KeepsNone }
    ensures counts { steps.new ≤ steps.old + all_nodes (by_place T.written uses.now) }
{
    let mut made = Map::with_room(alloc, uses.len())?;
    for (place, ty) in uses.iter() {
        let found = unfolded_use(alloc, place, ty, extensions, table, steps)?;
        put_copy(alloc, &mut made, place, found)?;
    }
    Ok(made)
}

/// What a use unfolds to; refused with its first fault, else as too deep, else as no record where one must stand.
fn unfolded_use<T: TypeNode, L: Ledger>(
    alloc: Global,
    place: &UsePlace,
    ty: &T,
    extensions: &Extensions,
    table: &Map<InternalName, Option<Nested>>,
    steps: &mut Steps<L>,
) -> Out<Type, SchemaError>
    ensures passes { IfOk result (λ made. (definitions : Definitions)
        → IsFull (meanings_of definitions extensions.now) (tabled table.now)
        → PassesAs (meanings_of definitions extensions.now) (told_use place.now, T.written ty.now)
        (resolved made)) }
    ensures refused { IfRefused result (λ e. (definitions : Definitions)
        → IsFull (meanings_of definitions extensions.now) (tabled table.now)
        → UseRefuses (meanings_of definitions extensions.now) (told_use place.now, T.written ty.now)
        (told e)) }
    ensures kept { IfRefused result KeepsNone }
    ensures counts { steps.new ≤ steps.old + nodes (T.written ty.now) }
{
    let mut fault = None;
    let found = unfolded(alloc, ty, extensions, table, &mut fault, steps)?;
    if let Some(fault) = fault {
        return Err(Failure::Refused(fault.into_error(alloc)));
    }
    match found {
        Some(found) => fitting(alloc, place, found),
        None => Err(Failure::Refused(too_deep(alloc, place)?)),
    }
}

/// The type, unless it is no record where one must stand.
fn fitting(alloc: Global, place: &UsePlace, found: Nested) -> Out<Type, SchemaError>
    ensures ok { IfOk result (λ ty. (ty ≡ found.ty)
        × Fits (told_use place.now) (resolved found.ty)) }
    ensures refused { IfRefused result (λ e. (told e ≡ ContextOrShapeNotRecord (told_use place.now))
        × (Fits (told_use place.now) (resolved found.ty) → ⊥)) }
    ensures kept { IfRefused result KeepsNone }
{
    match misfit(alloc, place, &found.ty)? {
        Some(error) => Err(Failure::Refused(error)),
        None => Ok(found.ty),
    }
}

/// The error that a use nests too deep.
fn too_deep(alloc: Global, place: &UsePlace) -> Mem<SchemaError>
    ensures tells { IfOk result (λ e. told e ≡ TooDeep (Place (told_use place.now))) }
    ensures kept { IfOk result KeepsNone }
{
    let place = DeepPlace::Place(place.dup(alloc)?);
    Ok(SchemaError::TooDeep(TooDeepError { place }))
}

/// That the type is no record where one must stand, if it is so.
fn misfit(alloc: Global, place: &UsePlace, ty: &Type) -> Mem<Option<SchemaError>>
    ensures fits { IfOk result (λ error. MatchOption error (Fits (told_use place.now) (resolved ty.now))
        (λ error. (told error ≡ ContextOrShapeNotRecord (told_use place.now))
        × (Fits (told_use place.now) (resolved ty.now) → ⊥))) }
    ensures kept { IfOk result (λ error. MatchOption error ⊤ KeepsNone) }
{
    if let TypeView::Record(..) = ty.view() {
        return Ok(None);
    }
    let ctx_or_shape = match place {
        UsePlace::Shape(ty) => ContextOrShape::EntityTypeShape(ty.dup(alloc)?),
        UsePlace::Tags(_) => return Ok(None),
        UsePlace::Context(uid) => ContextOrShape::ActionContext(uid.dup(alloc)?),
    };
    Ok(Some(SchemaError::ContextOrShapeNotRecord(ContextOrShapeNotRecordError { ctx_or_shape })))
}
