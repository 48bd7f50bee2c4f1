// SPDX-License-Identifier: Apache-2.0
ghost use Rattle.std.specs.Prelude.{◌≡◌, None, IfOk};
ghost use Rattle.cedar_request.specs.FaultPlaces.{request_fault_spans};

use crate::fault::RequestFault;
use cedar_data::Mem;
use cedar_places::{both_ranges, range_of};
use cedar_text::Span;
use std::alloc::Global;

impl RequestFault {
    /// What to do about it: there is nothing to say.
    pub fn help(&self, _alloc: Global) -> Mem<Option<String>>
        ensures { IfOk result (λ help. help ≡ None) }
    {
        Ok(None)
    }

    /// The places of the kept names that have one, in bytes of their text, in the order kept.
    pub fn spans(&self, alloc: Global) -> Mem<Vec<Span>>
        ensures { IfOk result (λ spans. spans.items ≡ request_fault_spans self.now) }
    {
        match self {
            RequestFault::Value(fault) => fault.spans(alloc),
            RequestFault::UnknownAction { at: _, uid } => range_of(alloc, uid.loc()),
            RequestFault::PrincipalNotAllowed { at: _, action, ty } => {
                both_ranges(alloc, action.loc(), ty.loc())
            }
            RequestFault::ResourceNotAllowed { at: _, action, ty } => {
                both_ranges(alloc, action.loc(), ty.loc())
            }
        }
    }
}
