// SPDX-License-Identifier: Apache-2.0
use crate::lists::{Definition, several_beside};
use cedar_data::{Failure, Mem, NoMemory, Out};
use cedar_names::{InternalName, UnreservedId};
use cedar_row_trees::line_of;
use cedar_text::NameFault;
use cedar_written::{ConditionalName, ReferenceType, SchemaType, TypeVariant};
use std::alloc::Global;

/// `beside FORM NAME KIND ID [NAMESPACE]`: what the texts denote together that the input is, with a definition that no
/// text makes: the common type ID alone, in the namespace. It is the type FORM (`entity`, `common` or `either`) of the
/// full name NAME, as a reference of the kind KIND (one of the same words).
pub fn beside(alloc: Global, words: &[&str], input: &str) -> Mem<String> {
    match definition_of(alloc, words) {
        Ok(definition) => {
            let mut others = Vec::new(alloc);
            others.push(definition)?;
            several_beside(alloc, input, others)
        }
        Err(Failure::Refused(_)) => line_of(alloc, "no definition"),
        Err(Failure::NoMemory) => Err(NoMemory),
    }
}

fn definition_of(alloc: Global, words: &[&str]) -> Out<Definition, NameFault> {
    let name = InternalName::from_normalized_str(alloc, word(words, 1))?;
    let name = ConditionalName::unconditional(alloc, name, kind_named(word(words, 2)))?;
    let id = UnreservedId::from_normalized_str(alloc, word(words, 3))?;
    let namespace = match words.get(4) {
        None => None,
        Some(text) => Some(InternalName::from_normalized_str(alloc, text)?),
    };
    let ty = type_of(kind_named(word(words, 0)), name);
    let definition = Definition::from_common_type_def(alloc, namespace, id, ty)?;
    Ok(definition)
}

fn word<'a>(words: &[&'a str], at: usize) -> &'a str {
    words.get(at).copied().unwrap_or("")
}

fn kind_named(word: &str) -> ReferenceType {
    match word {
        "common" => ReferenceType::Common,
        "entity" => ReferenceType::Entity,
        _ => ReferenceType::CommonOrEntity,
    }
}

fn type_of(form: ReferenceType, name: ConditionalName) -> SchemaType<ConditionalName> {
    let ty = match form {
        ReferenceType::Common => {
            return SchemaType::CommonTypeRef {
                type_name: name,
                loc: None,
            };
        }
        ReferenceType::Entity => TypeVariant::Entity { name },
        ReferenceType::CommonOrEntity => TypeVariant::EntityOrCommon { type_name: name },
    };
    SchemaType::Variant { ty, loc: None }
}
