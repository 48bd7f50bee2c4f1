// SPDX-License-Identifier: Apache-2.0
ghost use Rattle.std.specs.Prelude.{◌≡◌, ◌<◌};

use cedar_data::{Failure, Mem, NoMemory, Out};
use cedar_names::{EntityType, Extensions};
use cedar_row_schema_lines::{add_attributes, add_view};
use cedar_row_trees::{Lines, line_of};
use cedar_schema_error::{SchemaError, UsePlace};
use cedar_types::{Type, TypeView};
use cedar_unfold::{Steps, Unfolded};
use cedar_unfold_laws::unfold_two_longs;
use std::alloc::Global;
use std::marker::Brand;
use std::sync::ledger::{Blank, Ledger};

/// What a record of two whole numbers unfolds to, as the shape of the entity type whose name the input is.
pub fn two_longs(alloc: Global, input: &str) -> Mem<String> {
    match EntityType::from_normalized_str(alloc, input) {
        Ok(ty) => shape_told(alloc, ty),
        Err(Failure::Refused(_)) => line_of(alloc, "no name"),
        Err(Failure::NoMemory) => Err(NoMemory),
    }
}

fn shape_told(alloc: Global, ty: EntityType) -> Mem<String> {
    let extensions = Extensions::none(alloc);
    match unfolded::<Brand>(alloc, ty, &extensions, Blank::new(1)) {
        Ok(unfolded) => unfolded_told(alloc, &unfolded),
        Err(Failure::Refused(_)) => line_of(alloc, "refused"),
        Err(Failure::NoMemory) => Err(NoMemory),
    }
}

/// The record unfolded, its steps counted in this new ledger.
fn unfolded<L: Ledger>(
    alloc: Global,
    ty: EntityType,
    extensions: &Extensions,
    blank: Blank,
) -> Out<Unfolded, SchemaError>
    requires name { blank.name ≡ L.name }
    requires parts { blank.parts ≡ L.parts }
    requires some { 0 < blank.parts }
{
    let mut steps = Steps::<L>::start(blank);
    unfold_two_longs(alloc, ty, extensions, &mut steps)
}

/// Each common type and each use, with its type.
fn unfolded_told(alloc: Global, unfolded: &Unfolded) -> Mem<String> {
    let mut lines = Lines::new(alloc);
    for (name, ty) in unfolded.common.iter() {
        lines.add_line(format!(in alloc; "common type {name}")?)?;
        add_parts(&mut lines, ty)?;
    }
    for (place, ty) in unfolded.uses.iter() {
        lines.add_line(place_told(alloc, place)?)?;
        add_parts(&mut lines, ty)?;
    }
    Ok(lines.into_text())
}

fn place_told(alloc: Global, place: &UsePlace) -> Mem<String> {
    match place {
        UsePlace::Shape(ty) => { Ok(format!(in alloc; "shape {ty}")?) }
        UsePlace::Tags(ty) => { Ok(format!(in alloc; "tags {ty}")?) }
        UsePlace::Context(uid) => { Ok(format!(in alloc; "context {uid}")?) }
    }
}

/// A type, and below it the attributes of a record.
fn add_parts(lines: &mut Lines, ty: &Type) -> Mem<()> {
    add_view(lines, 1, ty)?;
    match ty.view() {
        TypeView::Record(attributes, _) => add_attributes(lines, 2, attributes),
        _ => Ok(()),
    }
}
