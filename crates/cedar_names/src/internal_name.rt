// SPDX-License-Identifier: Apache-2.0
ghost use Rattle.std.specs.Prelude.{◌≡◌, ◌≢◌, [], ◌∷◌, ◌++◌, ◌↔◌, Some, None, refl, IsTrue, IfOk, codes};
ghost use Rattle.std.specs.List.{list_any};
ghost use Rattle.std.specs.Option.{option_copied};
ghost use Rattle.std.specs.Slice.Iter.{iter_rest};
ghost use Rattle.cedar_text.specs.NormalNames.{name_fault, parts};
ghost use Rattle.cedar_names.specs.OrderLaws.{words-per, words-equiv, words-po, words-total, words-ties};
ghost use Rattle.cedar_names.specs.Order.{words_cmp, words_eq};
ghost use Rattle.cedar_names.specs.HashLaws.{name_fed, name_fed-alike};
ghost use Rattle.cedar_names.specs.Identifiers.{id_word, ids_left};
ghost use Rattle.cedar_text.specs.Words.{is_cedar};
ghost use Rattle.cedar_names.specs.Components.{internal_name, all_ids, basename_of, namespace_of, loc_of, components, has_cedar, qualified, qualified_in};
ghost use Rattle.cedar_text.specs.Joining.{joined};
ghost use Rattle.cedar_text.specs.Failures.{IfRefused};
ghost use Rattle.cedar_text.specs.Faults.{word_fault, no_id};

use crate::components::Components;
use crate::id::Id;
use crate::namespace::Namespace;
use crate::normal_name::{name_of_ids, normalized_ids};
use cedar_text::{Dup, Loc, Mem, NameFault, Out, Span, is_cedar};
use std::alloc::Global;
use std::cmp::Ordering;
use std::error::Error;
use std::fmt;
use std::hash::{Hash, Hasher};
use std::slice::Iter;

/// Identifiers, outermost first.
pub type IdIter<'a> = Iter<'a, Id>;

/// A name: a basename in a namespace of identifiers, which may be empty.
#[derive(Debug, Drop)]
pub struct InternalName {
    basename: Id,
    namespace: Namespace,
    loc: Option<Loc>,
}

impl InternalName {
    /// The name `basename` in the namespace whose components are given outermost first.
    pub fn new(basename: Id, namespace: Vec<Id>, loc: Option<Loc>) -> InternalName
        ensures { result ≡ internal_name basename namespace.items loc }
    {
        InternalName {
            basename,
            namespace: Namespace::alone(namespace),
            loc,
        }
    }

    /// As `new`, with a namespace whose copies take no memory. It fails only for want of memory.
    pub fn with_shared(
        alloc: Global,
        basename: Id,
        namespace: Vec<Id>,
        loc: Option<Loc>,
    ) -> Mem<InternalName>
        ensures { IfOk result (λ n. n ≡ internal_name basename namespace.items loc) }
    {
        let namespace = Namespace::shared(alloc, namespace)?;
        Ok(InternalName {
            basename,
            namespace,
            loc,
        })
    }

    /// The name of one component.
    pub fn unqualified_name(alloc: Global, id: Id, loc: Option<Loc>) -> InternalName
        ensures { result ≡ internal_name id [] loc }
    {
        InternalName {
            basename: id,
            namespace: Namespace::none(alloc),
            loc,
        }
    }

    /// The name of one component that the text is, with no place; refused with what is wrong with it.
    pub fn parse_unqualified_name(alloc: Global, s: &str) -> Out<InternalName, NameFault>
        ensures ok { IfOk result (λ n. (word_fault no_id s.now ≡ None) × (components n ≡ s.now ∷ [])
            × (loc_of n ≡ None)) }
        ensures refused { IfRefused result (λ fault. word_fault no_id s.now ≡ Some fault) }
    {
        let id = Id::from_normalized_str(alloc, s)?;
        Ok(InternalName::unqualified_name(alloc, id, None))
    }

    /// The name that the text is: identifiers with `::` between them, and no blanks. It has no place. Refused with what
    /// is wrong with the text.
    pub fn from_normalized_str(alloc: Global, s: &str) -> Out<InternalName, NameFault>
        ensures ok { IfOk result (λ n. (name_fault no_id s.now ≡ None)
            × (components n ≡ parts s.now) × (loc_of n ≡ None)) }
        ensures text { IfOk result (λ n. joined (components n) ≡ s.now) }
        ensures refused { IfRefused result (λ fault. name_fault no_id s.now ≡ Some fault) }
    {
        let ids = normalized_ids(alloc, s, true)?;
        Ok(name_of_ids(ids))
    }

    /// The name `__cedar`, with no place.
    pub fn cedar(alloc: Global) -> Mem<InternalName>
        ensures { IfOk result (λ n. (components n ≡ codes "__cedar" ∷ []) × (loc_of n ≡ None)) }
    {
        let id = Id::cedar(alloc)?;
        Ok(InternalName::unqualified_name(alloc, id, None))
    }

    /// The last component.
    pub fn basename(&self) -> &Id
        ensures { result.now ≡ basename_of self.now }
    {
        &self.basename
    }

    /// The components of the namespace, outermost first.
    pub fn namespace_components(&self) -> IdIter<'_>
        ensures { iter_rest result ≡ namespace_of self.now }
    {
        self.namespace.iter()
    }

    /// All components, outermost first, the basename last.
    pub fn components(&self) -> Components<'_>
        ensures { ids_left result ≡ namespace_of self.now ++ basename_of self.now ∷ [] }
    {
        Components::new(self.namespace.as_slice(), &self.basename)
    }

    /// Whether the namespace is empty.
    pub fn is_unqualified(&self) -> bool
        ensures { IsTrue result ↔ (namespace_of self.now ≡ []) }
    {
        self.namespace.is_empty()
    }

    /// The name within the namespace that `ns` names, unless it has a namespace already; the name itself where there is
    /// no `ns`. The place stays.
    pub fn qualify_with(self, alloc: Global, ns: Option<&InternalName>) -> Mem<InternalName>
        ensures value { IfOk result (λ n. n ≡ qualified self (option_copied ns.entry)) }
        ensures kept { IfOk result (λ n. namespace_of self ≢ [] → n ≡ self) }
    {
        let Some(outer) = ns else { return Ok(self) };
        if !self.is_unqualified() {
            return Ok(self);
        }
        let namespace = outer.as_namespace(alloc)?;
        Ok(self.moved_to(namespace))
    }

    /// The identifiers of the name as the namespace of others, whose copies take no memory. It fails only for want of
    /// memory.
    pub fn as_namespace(&self, alloc: Global) -> Mem<Namespace>
        ensures { IfOk result (λ ns. ns ≡ all_ids self.now) }
    {
        let last = self.basename.dup(alloc)?;
        let ids = self.namespace.to_ids_with(alloc, last)?;
        Namespace::shared(alloc, ids)
    }

    /// As `qualify_with`, within the namespace `ns`. Names that are given the same `ns` share its memory, where it was
    /// made by `as_namespace`.
    pub fn qualify_within(self, alloc: Global, ns: Option<&Namespace>) -> Mem<InternalName>
        ensures { IfOk result (λ n. n ≡ qualified_in self (option_copied ns.entry)) }
    {
        let Some(outer) = ns else { return Ok(self) };
        if !self.is_unqualified() {
            return Ok(self);
        }
        let namespace = outer.dup(alloc)?;
        Ok(self.moved_to(namespace))
    }

    /// A copy of the name as `qualify_within` gives it.
    pub fn dup_within(&self, alloc: Global, ns: Option<&Namespace>) -> Mem<InternalName>
        ensures { IfOk result (λ n. n ≡ qualified_in self.now (option_copied ns.entry)) }
    {
        let Some(outer) = ns else {
            return self.dup(alloc);
        };
        if !self.is_unqualified() {
            return self.dup(alloc);
        }
        let basename = self.basename.dup(alloc)?;
        let namespace = outer.dup(alloc)?;
        let loc = self.loc.dup(alloc)?;
        Ok(InternalName {
            basename,
            namespace,
            loc,
        })
    }

    /// The same basename and place in this namespace.
    fn moved_to(self, namespace: Namespace) -> InternalName
        ensures { result ≡ internal_name (basename_of self) namespace (loc_of self) }
    {
        let InternalName {
            basename,
            namespace: _,
            loc,
        } = self;
        InternalName {
            basename,
            namespace,
            loc,
        }
    }

    /// Whether some component is `__cedar`.
    pub fn is_reserved(&self) -> bool
        ensures { result ≡ has_cedar (components self.now) }
    {
        any_cedar(self.namespace.as_slice()) || is_cedar(self.basename.as_ref())
    }

    /// The place, if it has one.
    pub fn loc(&self) -> Option<&Loc>
        ensures { option_copied result ≡ loc_of self.now }
    {
        self.loc.as_ref()
    }
}

/// Whether one of the identifiers is `__cedar`.
fn any_cedar(ids: &[Id]) -> bool
    ensures { result ≡ list_any (λ id. is_cedar (id_word id)) ids.now }
{
    ids.iter().any(|id| is_cedar(id.as_ref()))
}

/// The order of the component lists.
fn compare_components(left: &InternalName, right: &InternalName) -> Ordering
    ensures { result ≡ words_cmp (components left.now) (components right.now) }
{
    left.components().cmp(right.components())
}

/// The order of names, of which one may have a namespace. Namespaces of one length decide before the basenames.
fn compare_qualified(left: &InternalName, right: &InternalName) -> Ordering
    ensures { result ≡ words_cmp (components left.now) (components right.now) }
{
    let outer = left.namespace.as_slice();
    let other = right.namespace.as_slice();
    if outer.len() != other.len() {
        return compare_components(left, right);
    }
    match outer.cmp(other) {
        Ordering::Equal => left.basename.cmp(&right.basename),
        Ordering::Less => Ordering::Less,
        Ordering::Greater => Ordering::Greater,
    }
}

/// The order of names. Where neither has a namespace, it is that of the basenames.
fn compare_names(left: &InternalName, right: &InternalName) -> Ordering
    ensures { result ≡ words_cmp (components left.now) (components right.now) }
{
    if left.is_unqualified() && right.is_unqualified() {
        left.basename.cmp(&right.basename)
    } else {
        compare_qualified(left, right)
    }
}

/// Whether the component lists are equal.
fn have_same_components(left: &InternalName, right: &InternalName) -> bool
    ensures { result ≡ words_eq (components left.now) (components right.now) }
{
    left.basename == right.basename && left.namespace.as_slice() == right.namespace.as_slice()
}

impl PartialEq for InternalName {
    ghost eq = { λ a b. words_eq (components a) (components b) };

    ghost laws = { words-per components };

    fn eq(&self, other: &Self) -> bool {
        have_same_components(self, other)
    }
}

impl Eq for InternalName {
    ghost laws = { words-equiv components };
}

impl PartialOrd for InternalName {
    ghost partial_cmp = { λ a b. Some (words_cmp (components a) (components b)) };

    ghost laws = { words-po components };

    fn partial_cmp(&self, other: &Self) -> Option<Ordering> {
        Some(self.cmp(other))
    }
}

impl Ord for InternalName {
    ghost cmp = { λ a b. words_cmp (components a) (components b) };

    ghost total = { words-total components };

    ghost matches_partial_cmp = { λ a b. refl };

    ghost matches_eq = { words-ties components };

    fn cmp(&self, other: &Self) -> Ordering {
        compare_names(self, other)
    }
}

impl Hash for InternalName {
    ghost hash_input = { name_fed };

    ghost respects_eq = { name_fed-alike };

    fn hash<H: Hasher>(&self, state: &mut H) {
        self.basename.hash(state);
        self.namespace.as_slice().hash(state);
    }
}

impl fmt::Display for InternalName {
    ghost output = { λ n. Some (joined (components n)) };

    fn fmt<W: fmt::Write>(&self, f: &mut fmt::Formatter<W>) -> fmt::Result {
        for id in self.namespace.as_slice() {
            write!(f, "{id}::")?;
        }
        f.write_str(self.basename.as_ref())
    }
}

impl Dup for InternalName {
    fn dup(&self, alloc: Global) -> Mem<InternalName> {
        let basename = self.basename.dup(alloc)?;
        let namespace = self.namespace.dup(alloc)?;
        let loc = self.loc.dup(alloc)?;
        Ok(InternalName {
            basename,
            namespace,
            loc,
        })
    }
}

/// A name was refused because a component of it is `__cedar`.
#[derive(Debug, Drop, PartialEq, Eq)]
pub struct ReservedNameError {
    pub name: InternalName,
}

impl fmt::Display for ReservedNameError {
    ghost output = { λ e. Some (codes "the name `" ++ joined (components e.name)
        ++ codes "` contains `__cedar`, which is reserved") };

    fn fmt<W: fmt::Write>(&self, f: &mut fmt::Formatter<W>) -> fmt::Result {
        let name = &self.name;
        write!(f, "the name `{name}` contains `__cedar`, which is reserved")
    }
}

impl ReservedNameError {
    ghost use Rattle.std.specs.Prelude.{option_to_list};
    ghost use Rattle.std.specs.Option.{option_map};
    ghost use Rattle.cedar_text.specs.Places.{span_of};

    /// What to do about it: there is nothing to say.
    pub fn help(&self, _alloc: Global) -> Mem<Option<String>>
        ensures { IfOk result (λ help. help ≡ None) }
    {
        Ok(None)
    }

    /// The places of the kept pieces that have one: that of the name, if it has one.
    pub fn spans(&self, alloc: Global) -> Mem<Vec<Span>>
        ensures { IfOk result (λ spans. spans.items
            ≡ option_to_list (option_map span_of (loc_of self.now.name))) }
    {
        let mut spans = Vec::new(alloc);
        if let Some(loc) = self.name.loc() {
            spans.push(loc.span())?;
        }
        Ok(spans)
    }
}

impl Error for ReservedNameError {}

impl Dup for ReservedNameError {
    fn dup(&self, alloc: Global) -> Mem<ReservedNameError> {
        let name = self.name.dup(alloc)?;
        Ok(ReservedNameError { name })
    }
}
