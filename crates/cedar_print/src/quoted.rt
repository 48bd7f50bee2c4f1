// SPDX-License-Identifier: Apache-2.0
ghost use Rattle.std.specs.Prelude.{Some};
ghost use Rattle.cedar_print.specs.Pieces.{quoted_text};

use cedar_names::{Escaped, Text};
use std::fmt;

/// A text that is displayed between quotes, as it stands in a string literal.
#[derive(Clone, Copy, Debug)]
pub struct Quoted<'a>(pub &'a Text);

impl fmt::Display for Quoted<'_> {
    ghost output = { λ q. Some (quoted_text q.0.now) };

    fn fmt<W: fmt::Write>(&self, f: &mut fmt::Formatter<W>) -> fmt::Result {
        f.write_str("\"")?;
        Escaped(self.0.as_str()).fmt(f)?;
        f.write_str("\"")
    }
}
