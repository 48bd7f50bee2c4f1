// SPDX-License-Identifier: Apache-2.0
ghost use Rattle.std.specs.Prelude.{◌≡◌, ◌≢◌, ◌<◌, [], Some, None, not, true, false, IsTrue, IfOk, MatchResult, codes, vec_len};
ghost use Rattle.std.specs.List.{list_all};
ghost use Rattle.std.specs.Option.{option_copied, option_map};
ghost use Rattle.std.specs.Str.{bytes_eq};
ghost use Rattle.cedar_text.specs.Failures.{IfRefused};
ghost use Rattle.cedar_text.specs.Faults.{no_unreserved_id};
ghost use Rattle.cedar_text.specs.NormalNames.{name_fault, parts, words_fault};
ghost use Rattle.cedar_text.specs.Words.{is_word};
ghost use Rattle.cedar_names.specs.Components.{internal_name, components, has_cedar, loc_of, basename_of, namespace_of, qualified};
ghost use Rattle.cedar_text.specs.Joining.{joined};

use crate::id::{Id, UnreservedId};
use crate::internal_name::{InternalName, ReservedNameError};
use crate::normal_name::{name_of_ids, normalized_ids, unreserved_name};
use cedar_text::{Dup, Loc, Mem, NameFault, Out, Text};
use std::alloc::Global;
use std::fmt;
use std::fmt::Display;

/// A name without the component `__cedar`.
#[derive(Debug, Drop, PartialEq, Eq, PartialOrd, Ord, Hash)]
pub struct Name {
    internal: InternalName,
    pub ghost unreserved: { IsTrue (not (has_cedar (components internal))) },
}

impl Name {
    ghost use Rattle.cedar_names.specs.Identifiers.{id_of};
    ghost use Rattle.cedar_names.specs.Names.{internal_of, name_words};

    /// The same name, unless a component of it is `__cedar`.
    pub fn from_internal(n: InternalName) -> Result<Name, ReservedNameError>
        ensures { MatchResult result
            (λ name. (internal_of name ≡ n) × (has_cedar (components n) ≡ false))
            (λ error. (error.name ≡ n) × (has_cedar (components n) ≡ true)) }
    {
        if n.is_reserved() {
            return Err(ReservedNameError { name: n });
        }
        Ok(Name { internal: n })
    }

    /// The name that the text is: identifiers other than `__cedar` with `::` between them, and no blanks. It has no
    /// place. Refused with what is wrong with the text.
    pub fn from_normalized_str(alloc: Global, s: &str) -> Out<Name, NameFault>
        ensures ok { IfOk result (λ n. (name_fault no_unreserved_id s.now ≡ None)
            × (name_words n ≡ parts s.now) × (loc_of (internal_of n) ≡ None)) }
        ensures text { IfOk result (λ n. joined (name_words n) ≡ s.now) }
        ensures refused { IfRefused result (λ fault. name_fault no_unreserved_id s.now
            ≡ Some fault) }
    {
        let ids = normalized_ids(alloc, s, false)?;
        let internal = name_of_ids(ids);
        Ok(Name { internal })
    }

    /// The name of words, with no place; refused with the first of them that a `Name` excludes.
    pub fn of_words(alloc: Global, words: Vec<Text>) -> Out<Name, NameFault>
        requires words { list_all is_word words.items ≡ true }
        requires some { 0 < vec_len words }
        ensures ok { IfOk result (λ n. (words_fault no_unreserved_id words.items ≡ None)
            × (name_words n ≡ words.items) × (loc_of (internal_of n) ≡ None)) }
        ensures refused { IfRefused result (λ fault. words_fault no_unreserved_id words.items
            ≡ Some fault) }
    {
        let internal = unreserved_name(alloc, words)?;
        Ok(Name { internal })
    }

    /// The same name, as one that may have any component.
    pub fn as_internal(&self) -> &InternalName
        ensures { result.now ≡ internal_of self.now }
    {
        &self.internal
    }

    /// The name of one component, with no place.
    pub fn unqualified_name(alloc: Global, id: UnreservedId) -> Name
        ensures { internal_of result ≡ internal_name (id_of id) [] None }
    {
        let internal = InternalName::unqualified_name(alloc, id.into_id(), None);
        Name { internal }
    }
}

impl fmt::Display for Name {
    ghost output = { λ n. Some (joined (components n.internal)) };

    fn fmt<W: fmt::Write>(&self, f: &mut fmt::Formatter<W>) -> fmt::Result {
        self.internal.fmt(f)
    }
}

impl Dup for Name {
    fn dup(&self, alloc: Global) -> Mem<Name> {
        let internal = self.internal.dup(alloc)?;
        Ok(Name { internal })
    }
}

impl InternalName {
    ghost use Rattle.cedar_names.specs.Names.{internal_of};

    /// As `qualify_with`, within the namespace that a `Name` names.
    pub fn qualify_with_name(self, alloc: Global, ns: Option<&Name>) -> Mem<InternalName>
        ensures value { IfOk result (λ n. n
            ≡ qualified self (option_map internal_of (option_copied ns.entry))) }
        ensures kept { IfOk result (λ n. namespace_of self ≢ [] → n ≡ self) }
    {
        match ns {
            Some(name) => self.qualify_with(alloc, Some(name.as_internal())),
            None => self.qualify_with(alloc, None),
        }
    }
}

/// The name of an entity type.
#[derive(Debug, Drop, PartialEq, Eq, PartialOrd, Ord, Hash)]
pub struct EntityType {
    name: Name,
}

impl EntityType {
    ghost use Rattle.cedar_names.specs.Identifiers.{id_word};
    ghost use Rattle.cedar_names.specs.Names.{internal_of, name_of, entity_words};

    /// The entity type that the text names, as `Name::from_normalized_str`.
    pub fn from_normalized_str(alloc: Global, s: &str) -> Out<EntityType, NameFault>
        ensures ok { IfOk result (λ t. (name_fault no_unreserved_id s.now ≡ None)
            × (entity_words t ≡ parts s.now) × (loc_of (internal_of (name_of t)) ≡ None)) }
        ensures text { IfOk result (λ t. joined (entity_words t) ≡ s.now) }
        ensures refused { IfRefused result (λ fault. name_fault no_unreserved_id s.now
            ≡ Some fault) }
    {
        let name = Name::from_normalized_str(alloc, s)?;
        Ok(EntityType { name })
    }

    /// The entity type of this name.
    pub fn from_name(n: Name) -> EntityType
        ensures { name_of result ≡ n }
    {
        EntityType { name: n }
    }

    /// The name.
    pub fn name(&self) -> &Name
        ensures { result.now ≡ name_of self.now }
    {
        &self.name
    }

    /// The name, by value. It takes no memory.
    pub fn into_name(self) -> Name
        ensures { result ≡ name_of self }
    {
        let EntityType { name } = self;
        name
    }

    /// Whether the basename is `Action`.
    pub fn is_action(&self) -> bool
        ensures { result
            ≡ bytes_eq (id_word (basename_of (internal_of (name_of self.now)))) (codes "Action") }
    {
        self.name.as_internal().basename().as_ref() == "Action"
    }

    /// The place, if it has one.
    pub fn loc(&self) -> Option<&Loc>
        ensures { option_copied result ≡ loc_of (internal_of (name_of self.now)) }
    {
        self.name.as_internal().loc()
    }
}

impl fmt::Display for EntityType {
    ghost output = { λ t. Some (joined (components t.name.internal)) };

    fn fmt<W: fmt::Write>(&self, f: &mut fmt::Formatter<W>) -> fmt::Result {
        self.name.fmt(f)
    }
}

impl Dup for EntityType {
    fn dup(&self, alloc: Global) -> Mem<EntityType> {
        let name = self.name.dup(alloc)?;
        Ok(EntityType { name })
    }
}
