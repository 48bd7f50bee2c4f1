// SPDX-License-Identifier: Apache-2.0
ghost use Rattle.std.specs.Prelude.{◌≡◌, ◌++◌, List, Option, ℕ, codes, map};
ghost use Rattle.std.specs.Fmt.{WritesOnOk};
ghost use Rattle.std.specs.Option.{option_copied};
ghost use Rattle.cedar_names.specs.EntityUids.{place_of, uid_text};
ghost use Rattle.cedar_names.specs.Components.{loc_of};
ghost use Rattle.cedar_names.specs.of_text.declared.location.Loc.{Loc};
ghost use Rattle.cedar_schema_error.specs.ListTexts.{and_last, behind_commas, behind_first, noun};
ghost use Rattle.cedar_places.specs.Places.{entity_place};
ghost use Rattle.cedar_schema_error.specs.NameTexts.{entity_text, last_possibility, parent_place, parent_text, reference_place, written_text};

use cedar_fragment::{ActionEntityUID, ConditionalName};
use cedar_names::{EntityType, EntityUID, Escaped, InternalName, Loc};
use std::fmt;

/// What an error keeps several of: how it is shown, and where it stands.
pub(crate) trait Shown {
    /// What is shown.
    ghost shown: { Self → List ℕ };

    /// Where it stands.
    ghost place: { Self → Option Loc };

    /// Writes it.
    fn show<W: fmt::Write>(&self, f: &mut fmt::Formatter<W>) -> fmt::Result
        ensures { WritesOnOk W.write_str_gives f.old result (shown self.now) f.new };

    /// Where it stands.
    fn place(&self) -> Option<&Loc>
        ensures { option_copied result ≡ place self.now };
}

impl Shown for EntityType {
    ghost shown = { entity_text };

    ghost place = { entity_place };

    fn show<W: fmt::Write>(&self, f: &mut fmt::Formatter<W>) -> fmt::Result {
        write!(f, "{self}")
    }

    fn place(&self) -> Option<&Loc> {
        self.loc()
    }
}

impl Shown for EntityUID {
    ghost shown = { uid_text };

    ghost place = { place_of };

    fn show<W: fmt::Write>(&self, f: &mut fmt::Formatter<W>) -> fmt::Result {
        write!(f, "{self}")
    }

    fn place(&self) -> Option<&Loc> {
        self.loc()
    }
}

impl Shown for ConditionalName {
    ghost shown = { written_text };

    ghost place = { reference_place };

    fn show<W: fmt::Write>(&self, f: &mut fmt::Formatter<W>) -> fmt::Result {
        let name = last_possibility(self);
        write!(f, "{name}")
    }

    fn place(&self) -> Option<&Loc> {
        self.loc()
    }
}

impl Shown for ActionEntityUID<ConditionalName> {
    ghost shown = { parent_text };

    ghost place = { parent_place };

    fn show<W: fmt::Write>(&self, f: &mut fmt::Formatter<W>) -> fmt::Result {
        self.ty().show(f)?;
        let id = Escaped(self.id.as_str());
        write!(f, "::\"{id}\"")
    }

    fn place(&self) -> Option<&Loc> {
        self.ty().loc()
    }
}

/// The name as it is written, which is the last that it may stand for.
pub(crate) fn last_possibility(name: &ConditionalName) -> &InternalName
    ensures { result.now ≡ last_possibility name.now }
{
    let mut names = name.possibilities();
    let Some(mut last) = names.next() else {
        unreachable!()
    };
    for next in names {
        last = next;
    }
    last
}

/// A noun in the singular, or in the plural where there are others.
pub(crate) fn noun<T>(others: &[T], one: &'static str, many: &'static str) -> &'static str
    ensures { result.now ≡ noun one.now many.now others.now }
{
    match others.split_first() {
        None => one,
        Some(_) => many,
    }
}

/// Writes each behind a comma.
pub(crate) fn write_behind_commas<T: Shown, W: fmt::Write>(
    others: &[T],
    f: &mut fmt::Formatter<W>,
) -> fmt::Result
    ensures { WritesOnOk W.write_str_gives f.old result
        (behind_commas (map T.shown others.now)) f.new }
{
    for other in others {
        write!(f, ", ")?;
        other.show(f)?;
    }
    Ok(())
}

/// Writes the first and then each behind a comma.
pub(crate) fn write_all<T: Shown, W: fmt::Write>(
    first: &T,
    others: &[T],
    f: &mut fmt::Formatter<W>,
) -> fmt::Result
    ensures { WritesOnOk W.write_str_gives f.old result (T.shown first.now
        ++ behind_commas (map T.shown others.now)) f.new }
{
    first.show(f)?;
    write_behind_commas(others, f)
}

/// Writes what follows the first: the second behind `and`, or all others behind commas, with `and` before the last.
pub(crate) fn write_behind_first<T: Shown, W: fmt::Write>(
    others: &[T],
    f: &mut fmt::Formatter<W>,
) -> fmt::Result
    ensures { WritesOnOk W.write_str_gives f.old result
        (behind_first (map T.shown others.now)) f.new }
{
    match others.split_last() {
        None => Ok(()),
        Some((last, front)) => {
            if front.is_empty() {
                write!(f, " and ")?;
                return last.show(f);
            }
            write_with_last(front, last, f)
        }
    }
}

/// Writes each behind a comma, and a last one behind a comma and `and`.
fn write_with_last<T: Shown, W: fmt::Write>(
    front: &[T],
    last: &T,
    f: &mut fmt::Formatter<W>,
) -> fmt::Result
    ensures { WritesOnOk W.write_str_gives f.old result
        (behind_commas (map T.shown front.now) ++ codes ", and " ++ T.shown last.now) f.new }
{
    write_behind_commas(front, f)?;
    write!(f, ", and ")?;
    last.show(f)
}
