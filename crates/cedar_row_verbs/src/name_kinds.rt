// SPDX-License-Identifier: Apache-2.0
use crate::lists::ListTold;
use crate::refusals::{refusal, told};
use cedar_data::{Mem, Out, Text};
use cedar_names::{AnyId, Id, InternalName, Name, UnreservedId};
use cedar_text::{NameFault, check_form, parts_of, words_before_quote};
use std::alloc::Global;

/// As what a text is read.
#[derive(Clone, Copy)]
pub enum Kind {
    /// `any`: a word.
    Any,
    /// `any-new`: a word, or nothing.
    AnyNew,
    /// `form`: whether it has the form of a word.
    Form,
    /// `front`: the words that stand before the quote of a literal.
    Front,
    /// `id`: an identifier.
    Id,
    /// `id-new`: an identifier, or nothing.
    IdNew,
    /// `internal`: a name that may be reserved.
    Internal,
    /// `name`: a name that isn't reserved.
    Name,
    /// `parts`: words with colons between them.
    Parts,
    /// `unqualified`: a name of one component.
    Unqualified,
    /// `unreserved`: an identifier other than `__cedar`.
    Unreserved,
}

impl Kind {
    /// The kind of this name.
    pub fn named(word: &str) -> Option<Kind> {
        match word {
            "any" => Some(Kind::Any),
            "any-new" => Some(Kind::AnyNew),
            "form" => Some(Kind::Form),
            "front" => Some(Kind::Front),
            "id" => Some(Kind::Id),
            "id-new" => Some(Kind::IdNew),
            "internal" => Some(Kind::Internal),
            "name" => Some(Kind::Name),
            "parts" => Some(Kind::Parts),
            "unqualified" => Some(Kind::Unqualified),
            "unreserved" => Some(Kind::Unreserved),
            _ => None,
        }
    }

    /// What is said of a text that is read as this.
    pub fn told(self, alloc: Global, text: &str) -> Mem<String> {
        match self {
            Kind::Any => told(alloc, AnyId::from_normalized_str(alloc, text)),
            Kind::AnyNew => any_told(alloc, text),
            Kind::Form => form_told(alloc, text),
            Kind::Front => words_told(alloc, words_before_quote(alloc, text)),
            Kind::Id => told(alloc, Id::from_normalized_str(alloc, text)),
            Kind::IdNew => id_told(alloc, text),
            Kind::Internal => read_told(alloc, InternalName::from_normalized_str(alloc, text)),
            Kind::Name => name_told(alloc, text),
            Kind::Parts => words_told(alloc, parts_of(alloc, text)),
            Kind::Unqualified => read_told(
                alloc,
                InternalName::parse_unqualified_name(alloc, text),
            ),
            Kind::Unreserved => told(alloc, UnreservedId::from_normalized_str(alloc, text)),
        }
    }
}

fn any_told(alloc: Global, text: &str) -> Mem<String> {
    match AnyId::new(alloc, text)? {
        Some(word) => Ok(format!(in alloc; "{word}")?),
        None => Ok(format!(in alloc; "none")?),
    }
}

fn id_told(alloc: Global, text: &str) -> Mem<String> {
    match Id::new(alloc, text)? {
        Some(id) => Ok(format!(in alloc; "{id}")?),
        None => Ok(format!(in alloc; "none")?),
    }
}

fn form_told(alloc: Global, text: &str) -> Mem<String> {
    match check_form(alloc, text) {
        Ok(()) => Ok(format!(in alloc; "a word")?),
        Err(failure) => refusal(alloc, failure),
    }
}

fn words_told(alloc: Global, answer: Out<Vec<Text>, NameFault>) -> Mem<String> {
    match answer {
        Ok(words) => list_told(alloc, words.as_slice()),
        Err(failure) => refusal(alloc, failure),
    }
}

fn list_told(alloc: Global, words: &[Text]) -> Mem<String> {
    let mut told = ListTold::new(alloc);
    for word in words {
        told.add(alloc, word)?;
    }
    told.whole(alloc)
}

fn name_told(alloc: Global, text: &str) -> Mem<String> {
    match Name::from_normalized_str(alloc, text) {
        Ok(name) => internal_told(alloc, name.as_internal()),
        Err(failure) => refusal(alloc, failure),
    }
}

fn read_told(alloc: Global, answer: Out<InternalName, NameFault>) -> Mem<String> {
    match answer {
        Ok(name) => internal_told(alloc, &name),
        Err(failure) => refusal(alloc, failure),
    }
}

/// A name, its components, and what else there is to say of it.
pub fn internal_told(alloc: Global, name: &InternalName) -> Mem<String> {
    let components = components_told(alloc, name)?;
    let extent = if name.is_unqualified() {
        ", unqualified"
    } else {
        ""
    };
    let use_of = if name.is_reserved() { ", reserved" } else { "" };
    let place = if name.loc().is_some() { ", placed" } else { "" };
    Ok(format!(in alloc; "{name} {components}{extent}{use_of}{place}")?)
}

fn components_told(alloc: Global, name: &InternalName) -> Mem<String> {
    let mut told = ListTold::new(alloc);
    for id in name.components() {
        told.add(alloc, id)?;
    }
    told.whole(alloc)
}
