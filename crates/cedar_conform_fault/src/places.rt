// SPDX-License-Identifier: Apache-2.0
ghost use Rattle.std.specs.Prelude.{◌≡◌, None, IfOk};
ghost use Rattle.cedar_conform_fault.specs.FaultPlaces.{fault_spans, kind_spans};

use crate::fault::Fault;
use crate::kind::FaultKind;
use cedar_data::Mem;
use cedar_places::{both_ranges, range_of};
use cedar_text::Span;
use std::alloc::Global;

impl FaultKind {
    /// The places of the kept names that have one, in the order kept.
    fn spans(&self, alloc: Global) -> Mem<Vec<Span>>
        ensures { IfOk result (λ spans. spans.items ≡ kind_spans self.now) }
    {
        match self {
            FaultKind::UnknownEntityType { ty } => range_of(alloc, ty.loc()),
            FaultKind::WrongEntityType { found, wanted } => {
                both_ranges(alloc, found.loc(), wanted.loc())
            }
            FaultKind::NotAChoice { ty, id: _ } => range_of(alloc, ty.loc()),
            FaultKind::NotAnAncestor { ty, of } => both_ranges(alloc, ty.loc(), of.loc()),
            FaultKind::ExtensionValue { name } => range_of(alloc, name.as_internal().loc()),
            FaultKind::RepeatedEntity { uid } => range_of(alloc, uid.loc()),
            _ => Ok(Vec::new(alloc)),
        }
    }
}

impl Fault {
    /// What to do about it: there is nothing to say.
    pub fn help(&self, _alloc: Global) -> Mem<Option<String>>
        ensures { IfOk result (λ help. help ≡ None) }
    {
        Ok(None)
    }

    /// The places of the kept names that have one, in bytes of their text, in the order kept.
    pub fn spans(&self, alloc: Global) -> Mem<Vec<Span>>
        ensures { IfOk result (λ spans. spans.items ≡ fault_spans self.now) }
    {
        self.kind.spans(alloc)
    }
}
