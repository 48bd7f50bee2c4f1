// SPDX-License-Identifier: Apache-2.0
ghost use Rattle.std.specs.Prelude.{◌≡◌, [], ◌++◌, None, Some, true, false, IfOk, MatchResult, codes};
ghost use Rattle.cedar_print.specs.of_names.Identifiers.{unreserved_word};
ghost use Rattle.cedar_written.specs.CommonTypeIds.{common_id, is_reserved_basename, reserved_basename_text, unreserved_of};

use cedar_print::{Dup, Mem, Span, UnreservedId};
use std::alloc::Global;
use std::error::Error;
use std::fmt;

/// The identifier of a common type within its namespace.
#[derive(Debug, Drop, PartialEq, Eq, PartialOrd, Ord, Hash)]
pub struct CommonTypeId {
    id: UnreservedId,
}

impl CommonTypeId {
    /// The identifier, unless it is one of the eight words that JSON takes for a kind of type.
    pub fn new(id: UnreservedId) -> Result<CommonTypeId, ReservedCommonTypeBasenameError>
        ensures { MatchResult result
            (λ c. (c ≡ common_id id) × (is_reserved_basename (unreserved_word id) ≡ false))
            (λ error. (error.id ≡ id) × (is_reserved_basename (unreserved_word id) ≡ true)) }
    {
        if is_reserved_basename(id.as_ref()) {
            return Err(ReservedCommonTypeBasenameError { id });
        }
        Ok(CommonTypeId { id })
    }

    /// The identifier, whatever it is.
    pub fn unchecked(id: UnreservedId) -> CommonTypeId
        ensures { result ≡ common_id id }
    {
        CommonTypeId { id }
    }

    /// The same identifier, as one that may be any but `__cedar`.
    pub fn as_ref(&self) -> &UnreservedId
        ensures { result.now ≡ unreserved_of self.now }
    {
        &self.id
    }
}

impl fmt::Display for CommonTypeId {
    ghost output = { λ c. Some (unreserved_word (unreserved_of c)) };

    fn fmt<W: fmt::Write>(&self, f: &mut fmt::Formatter<W>) -> fmt::Result {
        self.id.fmt(f)
    }
}

/// Whether no common type that is declared may have the word as its identifier.
fn is_reserved_basename(word: &str) -> bool
    ensures { result ≡ is_reserved_basename word.now }
{
    word == "Bool"
        || word == "Boolean"
        || word == "Entity"
        || word == "Extension"
        || word == "Long"
        || word == "Record"
        || word == "Set"
        || word == "String"
}

impl From<CommonTypeId> for UnreservedId {
    ghost from_gives = { λ c id. id ≡ unreserved_of c };

    fn from(c: CommonTypeId) -> UnreservedId {
        let CommonTypeId { id } = c;
        id
    }
}

impl Dup for CommonTypeId {
    fn dup(&self, alloc: Global) -> Mem<CommonTypeId> {
        let id = self.id.dup(alloc)?;
        Ok(CommonTypeId { id })
    }
}

/// An identifier was refused because a common type may not have it.
#[derive(Debug, Drop, PartialEq, Eq)]
pub struct ReservedCommonTypeBasenameError {
    pub id: UnreservedId,
}

impl fmt::Display for ReservedCommonTypeBasenameError {
    ghost output = { λ e. Some (reserved_basename_text (unreserved_word e.id)) };

    fn fmt<W: fmt::Write>(&self, f: &mut fmt::Formatter<W>) -> fmt::Result {
        let id = &self.id;
        write!(
            f,
            "this is reserved and cannot be the basename of a common-type declaration: {id}"
        )
    }
}

impl ReservedCommonTypeBasenameError {
    /// What to do about it: there is nothing to say.
    pub fn help(&self, _alloc: Global) -> Mem<Option<String>>
        ensures { IfOk result (λ help. help ≡ None) }
    {
        Ok(None)
    }

    /// The places of the kept pieces that have one: none has.
    pub fn spans(&self, alloc: Global) -> Mem<Vec<Span>>
        ensures { IfOk result (λ spans. spans.items ≡ []) }
    {
        Ok(Vec::new(alloc))
    }
}

impl Error for ReservedCommonTypeBasenameError {}

impl Dup for ReservedCommonTypeBasenameError {
    fn dup(&self, alloc: Global) -> Mem<ReservedCommonTypeBasenameError> {
        let id = self.id.dup(alloc)?;
        Ok(ReservedCommonTypeBasenameError { id })
    }
}
