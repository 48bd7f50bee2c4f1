// SPDX-License-Identifier: Apache-2.0
ghost use Rattle.std.specs.Fmt.{DisplaysOnOk};
ghost use Rattle.cedar_print.specs.Annotations.{annotations_pieces, nameless};
ghost use Rattle.cedar_print.specs.Pieces.{text_of};

use cedar_names::Annotations;
use std::fmt::{self, Display};

/// Writes `@key("value")` and the end of a line for each annotation, in the order of their keys.
pub fn write_annotations<W: fmt::Write>(
    annotations: &Annotations,
    f: &mut fmt::Formatter<W>,
) -> fmt::Result
    ensures { DisplaysOnOk W.write_str_gives f.old result
        (text_of nameless (annotations_pieces annotations.now)) f.new }
{
    annotations.fmt(f)
}
