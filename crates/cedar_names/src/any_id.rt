// SPDX-License-Identifier: Apache-2.0
ghost use Rattle.std.specs.Prelude.{◌≡◌, Some, None, IsTrue, false, IfOk, MatchOption};
ghost use Rattle.cedar_text.specs.Failures.{IfRefused};
ghost use Rattle.cedar_text.specs.Faults.{word_fault, no_any_id};
ghost use Rattle.cedar_text.specs.Words.{is_word};

use cedar_text::{Dup, Mem, NameFault, Out, Text, check_form, is_word};
use std::alloc::Global;
use std::fmt;
use std::fmt::Display;

/// Any word, reserved or not.
#[derive(Debug, Drop, PartialEq, Eq, PartialOrd, Ord, Hash)]
pub struct AnyId {
    word: Text,
    pub ghost form: { IsTrue (is_word word) },
}

impl AnyId {
    ghost use Rattle.cedar_names.specs.Identifiers.{any_word};

    /// The word that the text is, if it is one.
    pub fn new(alloc: Global, s: &str) -> Mem<Option<AnyId>>
        ensures { IfOk result (λ id. MatchOption id (is_word s.now
            ≡ false) (λ id. (any_word id ≡ s.now) × IsTrue (is_word s.now))) }
    {
        if !is_word(s) {
            return Ok(None);
        }
        let word = Text::new(alloc, s)?;
        Ok(Some(AnyId { word }))
    }

    /// The word that the text is; refused with what is wrong with its form.
    pub fn from_normalized_str(alloc: Global, s: &str) -> Out<AnyId, NameFault>
        ensures ok { IfOk result (λ id. (word_fault no_any_id s.now ≡ None)
            × (any_word id ≡ s.now)) }
        ensures refused { IfRefused result (λ fault. word_fault no_any_id s.now ≡ Some fault) }
    {
        check_form(alloc, s)?;
        let word = Text::new(alloc, s)?;
        Ok(AnyId { word })
    }

    /// The word.
    pub fn as_ref(&self) -> &str
        ensures { result.now ≡ any_word self.now }
    {
        self.word.as_str()
    }

    /// The word as shared text, whose copies take no memory.
    pub fn as_text(&self) -> &Text
        ensures { result.now ≡ any_word self.now }
    {
        &self.word
    }
}

impl fmt::Display for AnyId {
    ghost output = { λ id. Some id.word };

    fn fmt<W: fmt::Write>(&self, f: &mut fmt::Formatter<W>) -> fmt::Result {
        self.word.fmt(f)
    }
}

impl Dup for AnyId {
    fn dup(&self, alloc: Global) -> Mem<AnyId> {
        let word = self.word.dup(alloc)?;
        Ok(AnyId { word })
    }
}
