// SPDX-License-Identifier: Apache-2.0
use cedar_data::{Dup, Mem};
use cedar_text::Span;
use std::alloc::Global;
use std::error::Error;
use std::fmt;

/// A value that is no list of texts.
#[derive(Clone, Copy, Debug, PartialEq, Eq)]
pub struct SchemasNotTexts {
    /// The place of the first item that is no text; none where the value is no array.
    pub at: Option<u64>,
}

impl Dup for SchemasNotTexts {
    fn dup(&self, _alloc: Global) -> Mem<SchemasNotTexts> {
        Ok(*self)
    }
}

impl fmt::Display for SchemasNotTexts {
    ghost use Rattle.std.specs.Prelude.{Some, codes};

    ghost output = { λ e. Some (codes "schemas is not a list of texts") };

    fn fmt<W: fmt::Write>(&self, f: &mut fmt::Formatter<W>) -> fmt::Result {
        write!(f, "schemas is not a list of texts")
    }
}

impl Error for SchemasNotTexts {}

impl SchemasNotTexts {
    ghost use Rattle.std.specs.Prelude.{◌≡◌, [], None, IfOk};

    /// What to do about it: there is nothing to say.
    pub fn help(&self, _alloc: Global) -> Mem<Option<String>>
        ensures { IfOk result (λ help. help ≡ None) }
    {
        Ok(None)
    }

    /// The places of the kept pieces that have one: none has.
    pub fn spans(&self, alloc: Global) -> Mem<Vec<Span>>
        ensures { IfOk result (λ spans. spans.items ≡ []) }
    {
        Ok(Vec::new(alloc))
    }
}
