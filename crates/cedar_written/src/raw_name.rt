// SPDX-License-Identifier: Apache-2.0
ghost use Rattle.std.specs.Prelude.{◌≡◌, ◌≢◌, [], ◌∷◌, ◌↔◌, None, Some, IsTrue, IfOk};
ghost use Rattle.std.specs.Option.{option_copied, option_map};
ghost use Rattle.cedar_print.specs.of_text.Failures.{IfRefused};
ghost use Rattle.cedar_print.specs.of_text.Faults.{no_id, word_fault};
ghost use Rattle.cedar_print.specs.of_text.Joining.{joined};
ghost use Rattle.cedar_print.specs.of_text.NormalNames.{name_fault, parts};
ghost use Rattle.cedar_print.specs.of_names.Components.{components, internal_name, loc_of, namespace_of, qualified};
ghost use Rattle.cedar_print.specs.of_names.Identifiers.{id_of};
ghost use Rattle.cedar_print.specs.of_names.Names.{internal_of};
ghost use Rattle.cedar_written.specs.Possibilities.{conditional, conditional_in, first_possibility, ids_of, possibilities_in, raw_name, written};

use crate::conditional_name::ConditionalName;
use crate::reference_type::ReferenceType;
use cedar_print::{
    Dup, Id, InternalName, Items, Loc, Mem, Name, NameFault, Namespace, NonEmpty, Out, UnreservedId,
};
use std::alloc::Global;
use std::fmt;

/// A name as a schema writes it, which may be unqualified within a namespace.
#[derive(Debug, Drop, PartialEq, Eq, PartialOrd, Ord, Hash)]
pub struct RawName {
    name: InternalName,
}

impl RawName {
    /// The name of one component.
    pub fn new(alloc: Global, id: Id, loc: Option<Loc>) -> RawName
        ensures { written result ≡ internal_name id [] loc }
    {
        RawName::from_name(InternalName::unqualified_name(alloc, id, loc))
    }

    /// The name of one component, which is not `__cedar`.
    pub fn new_from_unreserved(alloc: Global, id: UnreservedId, loc: Option<Loc>) -> RawName
        ensures { written result ≡ internal_name (id_of id) [] loc }
    {
        RawName::new(alloc, id.into_id(), loc)
    }

    /// The name, as it stands.
    pub fn from_name(n: InternalName) -> RawName
        ensures { result ≡ raw_name n }
    {
        RawName { name: n }
    }

    /// The name of one component that the text is, with no place; refused with what is wrong with it.
    pub fn parse_unqualified_name(alloc: Global, s: &str) -> Out<RawName, NameFault>
        ensures ok { IfOk result (λ n. (word_fault no_id s.now ≡ None)
            × (components (written n) ≡ s.now ∷ []) × (loc_of (written n) ≡ None)) }
        ensures refused { IfRefused result (λ fault. word_fault no_id s.now ≡ Some fault) }
    {
        let name = InternalName::parse_unqualified_name(alloc, s)?;
        Ok(RawName { name })
    }

    /// The name that the text is: identifiers with `::` between them, and no blanks. It has no place. Refused with what
    /// is wrong with the text.
    pub fn from_normalized_str(alloc: Global, s: &str) -> Out<RawName, NameFault>
        ensures ok { IfOk result (λ n. (name_fault no_id s.now ≡ None)
            × (components (written n) ≡ parts s.now) × (loc_of (written n) ≡ None)) }
        ensures text { IfOk result (λ n. joined (components (written n)) ≡ s.now) }
        ensures refused { IfRefused result (λ fault. name_fault no_id s.now ≡ Some fault) }
    {
        let name = InternalName::from_normalized_str(alloc, s)?;
        Ok(RawName { name })
    }

    /// Whether the namespace is empty.
    pub fn is_unqualified(&self) -> bool
        ensures { IsTrue result ↔ (namespace_of (written self.now) ≡ []) }
    {
        self.name.is_unqualified()
    }

    /// The place, if it has one.
    pub fn loc(&self) -> Option<&Loc>
        ensures { option_copied result ≡ loc_of (written self.now) }
    {
        self.name.loc()
    }

    /// The name within the namespace that `ns` names, unless it has a namespace already; the name itself where there is
    /// no `ns`. The place stays.
    pub fn qualify_with(self, alloc: Global, ns: Option<&InternalName>) -> Mem<InternalName>
        ensures value { IfOk result (λ n. n ≡ qualified (written self) (option_copied ns.entry)) }
        ensures kept { IfOk result (λ n. namespace_of (written self) ≢ [] → n ≡ written self) }
    {
        let RawName { name } = self;
        name.qualify_with(alloc, ns)
    }

    /// As `qualify_with`, within the namespace that a `Name` names.
    pub fn qualify_with_name(self, alloc: Global, ns: Option<&Name>) -> Mem<InternalName>
        ensures value { IfOk result (λ n. n
            ≡ qualified (written self) (option_map internal_of (option_copied ns.entry))) }
        ensures kept { IfOk result (λ n. namespace_of (written self) ≢ [] → n ≡ written self) }
    {
        let RawName { name } = self;
        name.qualify_with_name(alloc, ns)
    }

    /// The name with the full names that it may stand for in the namespace `ns`, at a place of this kind.
    #[tactic(auto, using(crate::proofs::Possible::possible))]
    pub fn conditionally_qualify_with(
        self,
        alloc: Global,
        ns: Option<&InternalName>,
        reference_type: ReferenceType,
    ) -> Mem<ConditionalName>
        ensures value { IfOk result (λ n. n
            ≡ conditional (option_copied ns.entry) reference_type self) }
        ensures first { IfOk result (λ n. first_possibility n
            ≡ qualified (written self) (option_copied ns.entry)) }
    {
        let within = namespace_within(alloc, ns)?;
        self.conditionally_qualify_within(alloc, within.as_ref(), reference_type)
    }

    /// As `conditionally_qualify_with`, in the namespace `ns`, whose memory the full names share.
    pub(crate) fn conditionally_qualify_within(
        self,
        alloc: Global,
        ns: Option<&Namespace>,
        reference_type: ReferenceType,
    ) -> Mem<ConditionalName>
        ensures { IfOk result (λ n. n
            ≡ conditional_in (option_copied ns.entry) reference_type self) }
    {
        let possibilities = possibilities(alloc, &self.name, ns)?;
        ConditionalName::of_parts(alloc, self, reference_type, possibilities)
    }
}

/// The namespace that `ns` names, made once for the names in it.
pub(crate) fn namespace_within(alloc: Global, ns: Option<&InternalName>) -> Mem<Option<Namespace>>
    ensures { IfOk result (λ within. within ≡ ids_of (option_copied ns.entry)) }
{
    match ns {
        None => Ok(None),
        Some(outer) => Ok(Some(outer.as_namespace(alloc)?)),
    }
}

/// The full names that the name may stand for, the one that counts first at the head.
#[tactic(auto, using(crate::proofs::Possible::possible))]
fn possibilities(
    alloc: Global,
    name: &InternalName,
    ns: Option<&Namespace>,
) -> Mem<NonEmpty<InternalName>>
    ensures { IfOk result (λ names. names ≡ possibilities_in (option_copied ns.entry) name.now) }
{
    let tail = other_possibilities(alloc, name, ns)?;
    let head = name.dup_within(alloc, ns)?;
    Ok(NonEmpty { head, tail })
}

/// What the name may stand for where its first possibility is not declared.
fn other_possibilities(
    alloc: Global,
    name: &InternalName,
    ns: Option<&Namespace>,
) -> Mem<Items<InternalName>>
    ensures { IfOk result (λ names. names
        ≡ (possibilities_in (option_copied ns.entry) name.now).tail) }
{
    if ns.is_none() || !name.is_unqualified() {
        return Ok(Items::new(alloc));
    }
    let mut names = Vec::with_capacity(alloc, 1)?;
    names.push(name.dup(alloc)?)?;
    Ok(Items::from_vec(names))
}

impl fmt::Display for RawName {
    ghost output = { λ n. Some (joined (components (written n))) };

    fn fmt<W: fmt::Write>(&self, f: &mut fmt::Formatter<W>) -> fmt::Result {
        self.name.fmt(f)
    }
}

impl Dup for RawName {
    fn dup(&self, alloc: Global) -> Mem<RawName> {
        let name = self.name.dup(alloc)?;
        Ok(RawName { name })
    }
}
