// SPDX-License-Identifier: Apache-2.0
ghost use Rattle.std.specs.Prelude.{◌≡◌, ◌++◌, None, IfOk, OnOk};
ghost use Rattle.cedar_compat.specs.FaultPlaces.{fault_spans, kind_spans};

use crate::fault::CompatFault;
use crate::kind::CompatKind;
use cedar_data::Mem;
use cedar_places::{push_range, range_of};
use cedar_text::Span;
use std::alloc::Global;

impl CompatKind {
    /// Puts the place of the kept name behind the others, if it has one.
    fn push_spans(&self, spans: &mut Vec<Span>) -> Mem<()>
        ensures { OnOk result (spans.new.items ≡ spans.old.items ++ kind_spans self.now) }
    {
        match self {
            CompatKind::DescendantRemoved { ty } => push_range(spans, ty.loc()),
            _ => Ok(()),
        }
    }
}

impl CompatFault {
    /// What to do about it: there is nothing to say.
    pub fn help(&self, _alloc: Global) -> Mem<Option<String>>
        ensures { IfOk result (λ help. help ≡ None) }
    {
        Ok(None)
    }

    /// The places of the kept names that have one, in bytes of their text, in the order kept.
    pub fn spans(&self, alloc: Global) -> Mem<Vec<Span>>
        ensures { IfOk result (λ spans. spans.items ≡ fault_spans self.now) }
    {
        let mut spans = range_of(alloc, self.ty.loc())?;
        self.kind.push_spans(&mut spans)?;
        Ok(spans)
    }
}
