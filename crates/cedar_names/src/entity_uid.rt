// SPDX-License-Identifier: Apache-2.0
ghost use Rattle.std.specs.Prelude.{◌≡◌, Some, None, IfOk};
ghost use Rattle.std.specs.Option.{option_copied};
ghost use Rattle.cedar_names.specs.Components.{loc_of};
ghost use Rattle.cedar_text.specs.Failures.{IfRefused};
ghost use Rattle.cedar_text.specs.Literals.{uid_fault, WritesUid};
ghost use Rattle.cedar_names.specs.Names.{internal_of, name_of, entity_words};
ghost use Rattle.cedar_names.specs.EntityUids.{eid_text, entity_uid, entity_type_of, eid_of, place_of, uid_text};

use crate::name::{EntityType, Name};
use cedar_text::{
    Dup, Escaped, Failure, Loc, Mem, NameFault, Out, Text, parts_of, quote_place, read_literal,
    words_before_quote,
};
use std::alloc::Global;
use std::fmt;

/// The id of an entity within its type: any text.
#[derive(Debug, Drop, PartialEq, Eq, PartialOrd, Ord, Hash)]
pub struct Eid {
    text: Text,
}

impl Eid {
    /// The id of this text.
    pub fn new(t: Text) -> Eid
        ensures { eid_text result ≡ t }
    {
        Eid { text: t }
    }

    /// The text.
    pub fn as_str(&self) -> &str
        ensures { result.now ≡ eid_text self.now }
    {
        self.text.as_str()
    }

    /// The text, by value. It takes no memory.
    pub fn into_text(self) -> Text
        ensures { result ≡ eid_text self }
    {
        let Eid { text } = self;
        text
    }
}

impl Dup for Eid {
    fn dup(&self, alloc: Global) -> Mem<Eid> {
        let text = self.text.dup(alloc)?;
        Ok(Eid { text })
    }
}

/// An entity: its type, and its id. Comparisons and hashes leave the place out.
#[derive(Debug, Drop)]
#[derive_where(PartialEq, Eq, PartialOrd, Ord, Hash)]
pub struct EntityUID {
    ty: EntityType,
    eid: Eid,
    #[derive_where(skip(EqHashOrd))]
    loc: Option<Loc>,
}

impl EntityUID {
    /// The entity of this id in this type, at this place.
    pub fn from_components(ty: EntityType, eid: Eid, loc: Option<Loc>) -> EntityUID
        ensures { result ≡ entity_uid ty eid loc }
    {
        EntityUID { ty, eid, loc }
    }

    /// The entity that the text writes: the name of its type as `Name::from_normalized_str` takes it, `::`, and its id
    /// as a string literal. It has no place. Refused with what is wrong with the text.
    pub fn from_normalized_str(alloc: Global, s: &str) -> Out<EntityUID, NameFault>
        ensures ok { IfOk result (λ uid. uid_fault s.now ≡ None) }
        ensures written { IfOk result
            (λ uid. WritesUid s.now (entity_words (entity_type_of uid)) (eid_text (eid_of uid))) }
        ensures place { IfOk result (λ uid. (place_of uid ≡ None)
            × (loc_of (internal_of (name_of (entity_type_of uid))) ≡ None)) }
        ensures refused { IfRefused result (λ fault. uid_fault s.now ≡ Some fault) }
    {
        let (front, quoted) = s.split_at(quote_place(s));
        if quoted.is_empty() {
            parts_of(alloc, front)?;
            return Err(Failure::Refused(NameFault::Empty));
        }
        let words = words_before_quote(alloc, front)?;
        let text = read_literal(alloc, front.len() + 1, quoted.split_at(1).1)?;
        let name = Name::of_words(alloc, words)?;
        let ty = EntityType::from_name(name);
        Ok(EntityUID::from_components(ty, Eid::new(text), None))
    }

    /// The type and the id.
    pub fn components(self) -> (EntityType, Eid)
        ensures entity_type { result.0 ≡ entity_type_of self }
        ensures eid { result.1 ≡ eid_of self }
    {
        let EntityUID { ty, eid, loc: _ } = self;
        (ty, eid)
    }

    /// The type.
    pub fn entity_type(&self) -> &EntityType
        ensures { result.now ≡ entity_type_of self.now }
    {
        &self.ty
    }

    /// The id within the type.
    pub fn eid(&self) -> &Eid
        ensures { result.now ≡ eid_of self.now }
    {
        &self.eid
    }

    /// The place, if it has one.
    pub fn loc(&self) -> Option<&Loc>
        ensures { option_copied result ≡ place_of self.now }
    {
        self.loc.as_ref()
    }
}

impl fmt::Display for EntityUID {
    ghost output = { λ uid. Some (uid_text uid) };

    fn fmt<W: fmt::Write>(&self, f: &mut fmt::Formatter<W>) -> fmt::Result {
        let ty = &self.ty;
        let eid = Escaped(self.eid.as_str());
        write!(f, "{ty}::\"{eid}\"")
    }
}

impl Dup for EntityUID {
    fn dup(&self, alloc: Global) -> Mem<EntityUID> {
        let ty = self.ty.dup(alloc)?;
        let eid = self.eid.dup(alloc)?;
        let loc = self.loc.dup(alloc)?;
        Ok(EntityUID { ty, eid, loc })
    }
}
