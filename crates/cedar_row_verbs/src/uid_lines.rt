// SPDX-License-Identifier: Apache-2.0
use crate::refusals::refusal_line;
use cedar_data::Mem;
use cedar_names::EntityUID;
use cedar_text::read_literal;
use std::alloc::Global;

/// `uid`: the entity that the input writes, its type and its id; or why it is refused.
pub fn uid(alloc: Global, _words: &[&str], input: &str) -> Mem<String> {
    match EntityUID::from_normalized_str(alloc, input) {
        Ok(uid) => uid_told(alloc, &uid),
        Err(failure) => refusal_line(alloc, failure),
    }
}

fn uid_told(alloc: Global, uid: &EntityUID) -> Mem<String> {
    let ty = uid.entity_type();
    let eid = uid.eid().as_str();
    let role = if ty.is_action() { ", an action's" } else { "" };
    let place = if uid.loc().is_some() { "placed\n" } else { "" };
    Ok(format!(in alloc; "{uid}\ntype {ty}{role}\nid {eid}\n{place}")?)
}

/// `literal`: what the literal stands for that begins at the first quote of the input; or why it is refused.
pub fn literal(alloc: Global, _words: &[&str], input: &str) -> Mem<String> {
    let Some((front, inner)) = input.split_once('"') else {
        return Ok(format!(in alloc; "no quote\n")?);
    };
    match read_literal(alloc, front.len() + 1, inner) {
        Ok(text) => Ok(format!(in alloc; "text {text}\n")?),
        Err(failure) => refusal_line(alloc, failure),
    }
}
