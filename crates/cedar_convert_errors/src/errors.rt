// SPDX-License-Identifier: Apache-2.0
ghost use Rattle.std.specs.Prelude.{◌≡◌, IfOk, Some};
ghost use Rattle.std.specs.Option.{option_map};
ghost use Rattle.std.specs.String.{string_bytes};
ghost use Rattle.cedar_tree.specs.of_text.Lists.{elements, elements_left};
ghost use Rattle.cedar_convert_errors.specs.Texts.{all_spans, fault_help, fault_list, fault_text, first_fault};

use crate::faults::ToJsonSchemaError;
use cedar_data::{Dup, Mem};
use cedar_tree::{NonEmpty, NonEmptyIter, Span};
use std::alloc::Global;
use std::error::Error;
use std::fmt;

/// All that is wrong with the tree of a schema: one fault at least. It is told as its first fault.
#[derive(Debug, Drop, PartialEq, Eq)]
pub struct ToJsonSchemaErrors {
    faults: NonEmpty<ToJsonSchemaError>,
}

impl ToJsonSchemaErrors {
    /// The faults, from the first.
    pub fn new(errs: NonEmpty<ToJsonSchemaError>) -> ToJsonSchemaErrors
        ensures { fault_list result ≡ elements errs }
    {
        ToJsonSchemaErrors { faults: errs }
    }

    /// The faults, in order.
    pub fn iter(&self) -> NonEmptyIter<'_, ToJsonSchemaError>
        ensures { elements_left result ≡ fault_list self.now }
    {
        self.faults.iter()
    }

    /// The faults, in order. It takes no memory.
    pub fn into_inner(self) -> NonEmpty<ToJsonSchemaError>
        ensures { elements result ≡ fault_list self }
    {
        let ToJsonSchemaErrors { faults } = self;
        faults
    }

    /// What to do about the first fault, if there is something to say. It fails only for want of memory.
    pub fn help(&self, alloc: Global) -> Mem<Option<String>>
        ensures { IfOk result (λ help. option_map string_bytes help
            ≡ fault_help (first_fault self.now)) }
    {
        self.faults.head.help(alloc)
    }

    /// The places of all faults, in order. It fails only for want of memory.
    pub fn spans(&self, alloc: Global) -> Mem<Vec<Span>>
        ensures { IfOk result (λ spans. spans.items ≡ all_spans (fault_list self.now)) }
    {
        let mut spans = Vec::new(alloc);
        for fault in self.iter() {
            fault.add_spans(&mut spans)?;
        }
        Ok(spans)
    }
}

impl fmt::Display for ToJsonSchemaErrors {
    ghost output = { λ errors. Some (fault_text (first_fault errors)) };

    fn fmt<W: fmt::Write>(&self, f: &mut fmt::Formatter<W>) -> fmt::Result {
        self.faults.head.fmt(f)
    }
}

impl Error for ToJsonSchemaErrors {}

impl Dup for ToJsonSchemaErrors {
    fn dup(&self, alloc: Global) -> Mem<ToJsonSchemaErrors> {
        let faults = self.faults.dup(alloc)?;
        Ok(ToJsonSchemaErrors { faults })
    }
}
