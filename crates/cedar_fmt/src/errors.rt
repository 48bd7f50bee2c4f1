// SPDX-License-Identifier: Apache-2.0
ghost use Rattle.std.specs.Prelude.{◌≡◌, ◌++◌, None, Some, IfOk, OnOk, codes};
ghost use Rattle.std.specs.Fmt.{WritesOnOk};
ghost use Rattle.std.specs.List.{filter_map, flat_map};
ghost use Rattle.cedar_text.specs.Lists.{elements, elements_left};
ghost use Rattle.cedar_fmt.specs.Texts.{colliding, collisions_spans, collisions_text, error_spans, error_text, name_text};
ghost use Rattle.cedar_names.specs.Components.{loc_of};
ghost use Rattle.cedar_places.specs.Places.{range};

use cedar_data::{Dup, Mem};
use cedar_names::InternalName;
use cedar_places::{push_range, range_of};
use cedar_text::{NonEmpty, NonEmptyIter, Span};
use std::alloc::Global;
use std::error::Error;
use std::fmt;

/// Why a schema can't be written in the human syntax.
#[derive(Debug, Drop)]
pub enum ToCedarSchemaSyntaxError {
    /// Names stand for both an entity type and a common type.
    NameCollisions(NameCollisionsError),
}

/// Names that stand for both an entity type and a common type.
#[derive(Debug, Drop)]
pub struct NameCollisionsError {
    /// All of them, in order.
    pub names: NonEmpty<InternalName>,
}

impl NameCollisionsError {
    /// All of them, in order.
    pub fn names(&self) -> NonEmptyIter<'_, InternalName>
        ensures { elements_left result ≡ colliding self.now }
    {
        self.names.iter()
    }

    /// What to do about it: there is nothing to say.
    pub fn help(&self, _alloc: Global) -> Mem<Option<String>>
        ensures { IfOk result (λ help. help ≡ None) }
    {
        Ok(None)
    }

    /// The places of the names that have one, in bytes of their text, in order.
    pub fn spans(&self, alloc: Global) -> Mem<Vec<Span>>
        ensures { IfOk result (λ spans. spans.items ≡ collisions_spans self.now) }
    {
        let mut spans = range_of(alloc, self.names.head.loc())?;
        push_ranges(&mut spans, self.names.tail.as_slice())?;
        Ok(spans)
    }
}

/// Puts the ranges of the names that have a place behind the others.
fn push_ranges(spans: &mut Vec<Span>, names: &[InternalName]) -> Mem<()>
    ensures { OnOk result (spans.new.items
        ≡ spans.old.items ++ flat_map (λ n. range (loc_of n)) names.now) }
{
    for name in names {
        push_range(spans, name.loc())?;
    }
    Ok(())
}

impl fmt::Display for NameCollisionsError {
    ghost output = { λ e. Some (collisions_text e) };

    fn fmt<W: fmt::Write>(&self, f: &mut fmt::Formatter<W>) -> fmt::Result {
        let first = &self.names.head;
        write!(f, "There are name collisions: [{first}")?;
        write_others(self.names.tail.as_slice(), f)?;
        write!(f, "]")
    }
}

/// Writes each name behind `, `.
fn write_others<W: fmt::Write>(others: &[InternalName], f: &mut fmt::Formatter<W>) -> fmt::Result
    ensures { WritesOnOk W.write_str_gives f.old result
        (flat_map (λ n. codes ", " ++ name_text n) others.now) f.new }
{
    for other in others {
        write!(f, ", {other}")?;
    }
    Ok(())
}

impl Error for NameCollisionsError {}

impl Dup for NameCollisionsError {
    fn dup(&self, alloc: Global) -> Mem<NameCollisionsError> {
        let names = self.names.dup(alloc)?;
        Ok(NameCollisionsError { names })
    }
}

impl From<NameCollisionsError> for ToCedarSchemaSyntaxError {
    ghost use Rattle.cedar_fmt.specs.declared.errors.ToCedarSchemaSyntaxError.TheVariants.{NameCollisions};

    ghost from_gives = { λ error wrapped. wrapped ≡ NameCollisions error };

    fn from(error: NameCollisionsError) -> ToCedarSchemaSyntaxError {
        ToCedarSchemaSyntaxError::NameCollisions(error)
    }
}

impl ToCedarSchemaSyntaxError {
    /// What to do about it: there is nothing to say.
    pub fn help(&self, _alloc: Global) -> Mem<Option<String>>
        ensures { IfOk result (λ help. help ≡ None) }
    {
        Ok(None)
    }

    /// The places of the names that have one, in bytes of their text, in order.
    pub fn spans(&self, alloc: Global) -> Mem<Vec<Span>>
        ensures { IfOk result (λ spans. spans.items ≡ error_spans self.now) }
    {
        match self {
            ToCedarSchemaSyntaxError::NameCollisions(error) => error.spans(alloc),
        }
    }
}

impl fmt::Display for ToCedarSchemaSyntaxError {
    ghost output = { λ e. Some (error_text e) };

    fn fmt<W: fmt::Write>(&self, f: &mut fmt::Formatter<W>) -> fmt::Result {
        match self {
            ToCedarSchemaSyntaxError::NameCollisions(error) => error.fmt(f),
        }
    }
}

impl Error for ToCedarSchemaSyntaxError {}

impl Dup for ToCedarSchemaSyntaxError {
    fn dup(&self, alloc: Global) -> Mem<ToCedarSchemaSyntaxError> {
        match self {
            ToCedarSchemaSyntaxError::NameCollisions(error) => {
                let error = error.dup(alloc)?;
                Ok(ToCedarSchemaSyntaxError::NameCollisions(error))
            }
        }
    }
}
