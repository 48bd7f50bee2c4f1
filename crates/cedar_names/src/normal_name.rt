// SPDX-License-Identifier: Apache-2.0
ghost use Rattle.std.specs.Prelude.{◌≡◌, [], ◌<◌, Some, None, true, false, IfOk, vec_len};
ghost use Rattle.std.specs.List.{list_all};
ghost use Rattle.cedar_names.specs.Components.{components, has_cedar, loc_of};
ghost use Rattle.cedar_text.specs.Joining.{joined};
ghost use Rattle.cedar_text.specs.Failures.{IfRefused};
ghost use Rattle.cedar_text.specs.Faults.{no_unreserved_id};
ghost use Rattle.cedar_names.specs.Identifiers.{id_words};
ghost use Rattle.cedar_text.specs.NormalNames.{parts, words_fault, name_fault, excluded_words};
ghost use Rattle.cedar_text.specs.Words.{is_word};

use crate::id::Id;
use crate::internal_name::InternalName;
use cedar_text::{Failure, NameFault, Out, Text, is_cedar, is_reserved_word, parts_of};
use std::alloc::Global;

/// Whether a name excludes the word, where `__cedar` is allowed and where it is not.
fn is_excluded(word: &str, cedar_allowed: bool) -> bool
    ensures { result ≡ excluded_words cedar_allowed word.now }
{
    is_reserved_word(word) || (!cedar_allowed && is_cedar(word))
}

/// The identifiers of words; refused with the first that is excluded.
fn ids_of(alloc: Global, words: Vec<Text>, cedar_allowed: bool) -> Out<Vec<Id>, NameFault>
    requires { list_all is_word words.items ≡ true }
    ensures ok { IfOk result (λ ids. (words_fault (excluded_words cedar_allowed) words.items ≡ None)
        × (id_words ids.items ≡ words.items)) }
    ensures refused { IfRefused result
        (λ fault. words_fault (excluded_words cedar_allowed) words.items ≡ Some fault) }
{
    let mut ids = Vec::new(alloc);
    for word in words {
        if is_excluded(word.as_str(), cedar_allowed) {
            return Err(Failure::Refused(NameFault::Reserved { word }));
        }
        ids.push(Id::of_word(word))?;
    }
    Ok(ids)
}

/// The identifiers of a normalized name; refused with what is wrong with it.
pub fn normalized_ids(alloc: Global, s: &str, cedar_allowed: bool) -> Out<Vec<Id>, NameFault>
    ensures ok { IfOk result (λ ids. (name_fault (excluded_words cedar_allowed) s.now ≡ None)
        × (id_words ids.items ≡ parts s.now)) }
    ensures some { IfOk result (λ ids. 0 < vec_len ids) }
    ensures text { IfOk result (λ ids. joined (id_words ids.items) ≡ s.now) }
    ensures unreserved { IfOk result (λ ids. cedar_allowed ≡ false → has_cedar (id_words ids.items)
        ≡ false) }
    ensures refused { IfRefused result (λ fault. name_fault (excluded_words cedar_allowed) s.now
        ≡ Some fault) }
{
    let words = parts_of(alloc, s)?;
    let ids = ids_of(alloc, words, cedar_allowed)?;
    Ok(ids)
}

/// The name of these components, the last of which is the basename, with no place.
pub fn name_of_ids(mut ids: Vec<Id>) -> InternalName
    requires { 0 < vec_len ids }
    ensures words { components result ≡ id_words ids.items }
    ensures place { loc_of result ≡ None }
{
    match ids.pop() {
        Some(basename) => InternalName::new(basename, ids, None),
        None => unreachable!(),
    }
}

/// The name of words, with no place; refused with the first of them that a `Name` excludes.
pub fn unreserved_name(alloc: Global, words: Vec<Text>) -> Out<InternalName, NameFault>
    requires words { list_all is_word words.items ≡ true }
    requires some { 0 < vec_len words }
    ensures ok { IfOk result (λ n. (words_fault no_unreserved_id words.items ≡ None)
        × (components n ≡ words.items) × (loc_of n ≡ None)) }
    ensures unreserved { IfOk result (λ n. has_cedar (components n) ≡ false) }
    ensures refused { IfRefused result (λ fault. words_fault no_unreserved_id words.items
        ≡ Some fault) }
{
    let ids = ids_of(alloc, words, false)?;
    Ok(name_of_ids(ids))
}
