// SPDX-License-Identifier: Apache-2.0
ghost use Rattle.std.specs.Prelude.{◌≡◌, ◌∷◌, IfOk};
ghost use Rattle.std.specs.List.{flat_map};
ghost use Rattle.std.specs.Option.{option_copied};
ghost use Rattle.cedar_schema_error.specs.ErrorPlaces.{places_of, ranges};
ghost use Rattle.cedar_schema_error.specs.NameTexts.{context_or_shape_location, deep_location, use_location};

use crate::name_errors::TypeNotDefinedError;
use crate::schema_error::SchemaError;
use crate::shown::Shown;
use crate::type_errors::ContextOrShape;
use crate::use_place::{DeepPlace, UsePlace};
use cedar_names::{Loc, Mem, NonEmpty, Span};
use cedar_places::{both_ranges, push_range, range_of};
use std::alloc::Global;

impl UsePlace {
    /// The place of the kept name, if it has one.
    fn loc(&self) -> Option<&Loc>
        ensures { option_copied result ≡ use_location self.now }
    {
        match self {
            UsePlace::Shape(ty) => ty.loc(),
            UsePlace::Tags(ty) => ty.loc(),
            UsePlace::Context(uid) => uid.loc(),
        }
    }
}

impl DeepPlace {
    /// The place of the kept name, if it has one.
    fn loc(&self) -> Option<&Loc>
        ensures { option_copied result ≡ deep_location self.now }
    {
        match self {
            DeepPlace::Common(name) => name.loc(),
            DeepPlace::Place(place) => place.loc(),
        }
    }
}

impl ContextOrShape {
    /// The place of the kept name, if it has one.
    fn loc(&self) -> Option<&Loc>
        ensures { option_copied result ≡ context_or_shape_location self.now }
    {
        match self {
            ContextOrShape::ActionContext(uid) => uid.loc(),
            ContextOrShape::EntityTypeShape(ty) => ty.loc(),
        }
    }
}

/// The ranges of pieces.
fn ranges<T: Shown>(alloc: Global, pieces: &NonEmpty<T>) -> Mem<Vec<Span>>
    ensures { IfOk result (λ spans. spans.items ≡ ranges T.place pieces.now) }
{
    let mut spans = range_of(alloc, pieces.head.place())?;
    for piece in pieces.tail.as_slice() {
        push_range(&mut spans, piece.place())?;
    }
    Ok(spans)
}

impl SchemaError {
    /// The places of the kept pieces that have one, in the order kept.
    pub fn spans(&self, alloc: Global) -> Mem<Vec<Span>>
        ensures { IfOk result (λ spans. spans.items ≡ places_of self.now) }
    {
        match self {
            SchemaError::UndeclaredEntityTypes(e) => ranges(alloc, &e.types),
            SchemaError::TypeNotDefined(e) => e.spans(alloc),
            SchemaError::ActionNotDefined(e) => ranges(alloc, &e.uids),
            SchemaError::TypeShadowing(e) => {
                both_ranges(alloc, e.shadowed_def.loc(), e.shadowing_def.loc())
            }
            SchemaError::ActionShadowing(e) => {
                both_ranges(alloc, e.shadowed_def.loc(), e.shadowing_def.loc())
            }
            SchemaError::DuplicateEntityType(e) => range_of(alloc, e.ty.loc()),
            SchemaError::DuplicateCommonType(e) => range_of(alloc, e.ty.loc()),
            SchemaError::DuplicateAction(e) => range_of(alloc, e.uid.loc()),
            SchemaError::CycleInCommonTypeReferences(e) => range_of(alloc, e.ty.loc()),
            SchemaError::CycleInActionHierarchy(e) => range_of(alloc, e.uid.loc()),
            SchemaError::ContextOrShapeNotRecord(e) => range_of(alloc, e.ctx_or_shape.loc()),
            SchemaError::ActionAttributesContainEmptySet(e) => range_of(alloc, e.uid.loc()),
            SchemaError::UnsupportedActionAttribute(e) => range_of(alloc, e.uid.loc()),
            SchemaError::UnknownExtensionType(e) => range_of(alloc, e.actual.as_internal().loc()),
            SchemaError::CommonTypeInvariantViolation(e) => range_of(alloc, e.name.loc()),
            SchemaError::ActionInvariantViolation(e) => ranges(alloc, &e.euids),
            SchemaError::ActionTransitiveClosure(e) => e.error.spans(alloc),
            SchemaError::EntityTypeTransitiveClosure(e) => e.error.spans(alloc),
            SchemaError::ReservedName(e) => range_of(alloc, e.name.loc()),
            SchemaError::TooDeep(e) => range_of(alloc, e.place.loc()),
            _ => Ok(Vec::new(alloc)),
        }
    }
}

impl TypeNotDefinedError {
    ghost use Rattle.cedar_schema_error.specs.NameTexts.{reference_place};

    /// The places of the references that have one, in order.
    pub fn spans(&self, alloc: Global) -> Mem<Vec<Span>>
        ensures { IfOk result (λ spans. spans.items
            ≡ ranges reference_place self.now.undefined_types) }
    {
        ranges(alloc, &self.undefined_types)
    }
}
