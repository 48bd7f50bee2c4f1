// SPDX-License-Identifier: Apache-2.0
ghost use Rattle.std.specs.Prelude.{◌≡◌, IfOk};
ghost use Rattle.std.specs.Option.{option_copied};
ghost use Rattle.cedar_print.specs.of_text.Lists.{elements, elements_left};
ghost use Rattle.cedar_print.specs.of_names.Components.{loc_of};
ghost use Rattle.cedar_written.specs.Possibilities.{kind_of, possibilities_of, raw_of, reference, unconditional, written};

use crate::raw_name::RawName;
use crate::reference_type::ReferenceType;
use cedar_print::{Boxed, Dup, InternalName, Loc, Mem, NonEmpty, NonEmptyIter};
use std::alloc::Global;
use std::fmt;

/// A name as a schema writes it, with the full names that it may stand for. The first of them that is declared counts.
#[derive(Debug, Drop, PartialEq, Eq, PartialOrd, Ord, Hash)]
pub struct ConditionalName {
    reference: Boxed<Reference>,
}

/// What a conditional name holds. It stands on the heap, since lists, sets and maps move their names.
#[derive(Debug, Drop, PartialEq, Eq, PartialOrd, Ord, Hash)]
struct Reference {
    raw: RawName,
    reference_type: ReferenceType,
    possibilities: NonEmpty<InternalName>,
}

impl ConditionalName {
    /// The name `raw` at a place of the kind `reference_type`, which may stand for these full names.
    pub(crate) fn of_parts(
        alloc: Global,
        raw: RawName,
        reference_type: ReferenceType,
        possibilities: NonEmpty<InternalName>,
    ) -> Mem<ConditionalName>
        ensures { IfOk result (λ n. n ≡ reference raw reference_type possibilities) }
    {
        let reference = Boxed::new(
            alloc,
            Reference {
                raw,
                reference_type,
                possibilities,
            },
        )?;
        Ok(ConditionalName { reference })
    }

    /// The name that stands for itself alone.
    pub fn unconditional(
        alloc: Global,
        name: InternalName,
        reference_type: ReferenceType,
    ) -> Mem<ConditionalName>
        ensures { IfOk result (λ n. n ≡ unconditional name reference_type) }
    {
        let raw = RawName::from_name(name.dup(alloc)?);
        let possibilities = NonEmpty::singleton(alloc, name);
        ConditionalName::of_parts(alloc, raw, reference_type, possibilities)
    }

    /// The name as it is written.
    pub fn raw(&self) -> &RawName
        ensures { result.now ≡ raw_of self.now }
    {
        &self.reference.get().raw
    }

    /// The full names that it may stand for, by value. It takes no memory.
    pub fn into_possibilities(self) -> NonEmpty<InternalName>
        ensures { result ≡ possibilities_of self }
    {
        let ConditionalName { reference } = self;
        let Reference {
            raw: _,
            reference_type: _,
            possibilities,
        } = reference.into_inner();
        possibilities
    }

    /// The place, if it has one.
    pub fn loc(&self) -> Option<&Loc>
        ensures { option_copied result ≡ loc_of (written (raw_of self.now)) }
    {
        self.raw().loc()
    }

    /// The full names that it may stand for, the one that counts first in front.
    pub fn possibilities(&self) -> NonEmptyIter<'_, InternalName>
        ensures { elements_left result ≡ elements (possibilities_of self.now) }
    {
        self.reference.get().possibilities.iter()
    }

    /// Which kinds of types it may stand for.
    pub fn reference_type(&self) -> ReferenceType
        ensures { result ≡ kind_of self.now }
    {
        self.reference.get().reference_type
    }
}

/// As it is written.
impl fmt::Display for ConditionalName {
    ghost use Rattle.std.specs.Prelude.{Some};
    ghost use Rattle.cedar_print.specs.of_text.Joining.{joined};
    ghost use Rattle.cedar_print.specs.of_names.Components.{components};

    ghost output = { λ n. Some (joined (components (written (raw_of n)))) };

    fn fmt<W: fmt::Write>(&self, f: &mut fmt::Formatter<W>) -> fmt::Result {
        self.raw().fmt(f)
    }
}

impl Dup for ConditionalName {
    fn dup(&self, alloc: Global) -> Mem<ConditionalName> {
        let reference = self.reference.get();
        let raw = reference.raw.dup(alloc)?;
        let possibilities = reference.possibilities.dup(alloc)?;
        ConditionalName::of_parts(alloc, raw, reference.reference_type, possibilities)
    }
}
