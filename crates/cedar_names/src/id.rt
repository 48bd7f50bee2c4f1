// SPDX-License-Identifier: Apache-2.0
ghost use Rattle.std.specs.Prelude.{◌≡◌, [], Some, None, true, false, not, IsTrue, IfOk, MatchOption, MatchResult, codes};
ghost use Rattle.cedar_text.specs.Failures.{IfRefused};
ghost use Rattle.cedar_text.specs.Faults.{word_fault, no_id, no_unreserved_id};
ghost use Rattle.cedar_text.specs.Words.{is_id, is_cedar, is_unreserved_id};

use crate::internal_name::{InternalName, ReservedNameError};
use cedar_text::{
    Dup, Mem, NameFault, Out, Text, check_form, is_cedar, is_reserved_word, is_word, reserved,
};
use std::alloc::Global;
use std::fmt;
use std::fmt::Display;

/// An identifier: a word that is none of the nine reserved words.
#[derive(Debug, Drop, PartialEq, Eq, PartialOrd, Ord, Hash)]
pub struct Id {
    word: Text,
    pub ghost form: { IsTrue (is_id word) },
}

impl Id {
    ghost use Rattle.cedar_names.specs.Identifiers.{id_word};

    /// The identifier that the text is, if it is one.
    pub fn new(alloc: Global, s: &str) -> Mem<Option<Id>>
        ensures { IfOk result (λ id. MatchOption id (is_id s.now
            ≡ false) (λ id. (id_word id ≡ s.now) × IsTrue (is_id s.now))) }
    {
        if !is_word(s) || is_reserved_word(s) {
            return Ok(None);
        }
        let word = Text::new(alloc, s)?;
        Ok(Some(Id { word }))
    }

    /// As `new`. Where the text is short, it shares the memory of `near`.
    pub fn beside(alloc: Global, near: &Text, s: &str) -> Mem<Option<Id>>
        ensures { IfOk result (λ id. MatchOption id (is_id s.now
            ≡ false) (λ id. (id_word id ≡ s.now) × IsTrue (is_id s.now))) }
    {
        if !is_word(s) || is_reserved_word(s) {
            return Ok(None);
        }
        let word = near.beside(alloc, s)?;
        Ok(Some(Id { word }))
    }

    /// The identifier that the text is; refused with what is wrong with it.
    pub fn from_normalized_str(alloc: Global, s: &str) -> Out<Id, NameFault>
        ensures ok { IfOk result (λ id. (word_fault no_id s.now ≡ None) × (id_word id ≡ s.now)) }
        ensures refused { IfRefused result (λ fault. word_fault no_id s.now ≡ Some fault) }
    {
        check_form(alloc, s)?;
        if is_reserved_word(s) {
            return reserved(alloc, s);
        }
        let word = Text::new(alloc, s)?;
        Ok(Id { word })
    }

    /// The identifier of a word that is known to be one. It takes no memory.
    pub fn of_word(word: Text) -> Id
        requires { IsTrue (is_id word) }
        ensures { id_word result ≡ word }
    {
        Id { word }
    }

    /// The identifier `__cedar`.
    pub fn cedar(alloc: Global) -> Mem<Id>
        ensures { IfOk result (λ id. id_word id ≡ codes "__cedar") }
    {
        let word = Text::new(alloc, "__cedar")?;
        Ok(Id { word })
    }

    /// The word.
    pub fn as_ref(&self) -> &str
        ensures { result.now ≡ id_word self.now }
    {
        self.word.as_str()
    }

    /// The word as shared text, whose copies take no memory.
    pub fn as_text(&self) -> &Text
        ensures { result.now ≡ id_word self.now }
    {
        &self.word
    }

    /// The word as shared text, by value.
    pub fn into_text(self) -> Text
        ensures { result ≡ id_word self }
    {
        let Id { word } = self;
        word
    }
}

impl fmt::Display for Id {
    ghost output = { λ id. Some id.word };

    fn fmt<W: fmt::Write>(&self, f: &mut fmt::Formatter<W>) -> fmt::Result {
        self.word.fmt(f)
    }
}

impl Dup for Id {
    fn dup(&self, alloc: Global) -> Mem<Id> {
        let word = self.word.dup(alloc)?;
        Ok(Id { word })
    }
}

/// An identifier other than `__cedar`.
#[derive(Debug, Drop, PartialEq, Eq, PartialOrd, Ord, Hash)]
pub struct UnreservedId {
    id: Id,
    pub ghost unreserved: { IsTrue (not (is_cedar id.word)) },
}

impl UnreservedId {
    ghost use Rattle.cedar_names.specs.Components.{internal_name};
    ghost use Rattle.cedar_names.specs.Identifiers.{id_of, id_word, unreserved_word};

    /// The identifier that the text is; refused with what is wrong with it, as where it is `__cedar`.
    pub fn from_normalized_str(alloc: Global, s: &str) -> Out<UnreservedId, NameFault>
        ensures ok { IfOk result (λ id. (word_fault no_unreserved_id s.now ≡ None)
            × (unreserved_word id ≡ s.now)) }
        ensures refused { IfRefused result (λ fault. word_fault no_unreserved_id s.now
            ≡ Some fault) }
    {
        let id = Id::from_normalized_str(alloc, s)?;
        if is_cedar(s) {
            return reserved(alloc, s);
        }
        Ok(UnreservedId { id })
    }

    /// The identifier of a word that is known to be one.
    pub fn known(alloc: Global, word: &str) -> Mem<UnreservedId>
        requires { IsTrue (is_unreserved_id word.now) }
        ensures { IfOk result (λ id. unreserved_word id ≡ word.now) }
    {
        let word = Text::new(alloc, word)?;
        Ok(UnreservedId { id: Id { word } })
    }

    /// The identifier, unless it is `__cedar`. It takes no memory.
    pub fn try_from_id(alloc: Global, id: Id) -> Result<UnreservedId, ReservedNameError>
        ensures { MatchResult result
            (λ u. (id_of u ≡ id) × (is_cedar (id_word id) ≡ false))
            (λ error. (error.name ≡ internal_name id [] None) × (is_cedar (id_word id) ≡ true)) }
    {
        if is_cedar(id.as_ref()) {
            return Err(ReservedNameError {
                name: InternalName::unqualified_name(alloc, id, None),
            });
        }
        Ok(UnreservedId { id })
    }

    /// The word.
    pub fn as_ref(&self) -> &str
        ensures { result.now ≡ unreserved_word self.now }
    {
        self.id.as_ref()
    }

    /// The word as shared text, whose copies take no memory.
    pub fn as_text(&self) -> &Text
        ensures { result.now ≡ unreserved_word self.now }
    {
        self.id.as_text()
    }

    /// The same word as an identifier.
    pub fn into_id(self) -> Id
        ensures { result ≡ id_of self }
    {
        let UnreservedId { id } = self;
        id
    }
}

impl fmt::Display for UnreservedId {
    ghost output = { λ id. Some id.id.word };

    fn fmt<W: fmt::Write>(&self, f: &mut fmt::Formatter<W>) -> fmt::Result {
        self.id.fmt(f)
    }
}

impl Dup for UnreservedId {
    fn dup(&self, alloc: Global) -> Mem<UnreservedId> {
        let id = self.id.dup(alloc)?;
        Ok(UnreservedId { id })
    }
}
