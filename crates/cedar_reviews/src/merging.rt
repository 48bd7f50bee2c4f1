// SPDX-License-Identifier: Apache-2.0
ghost use Rattle.std.specs.Prelude.{◌≡◌, Some, None, [], ◌∷◌, true, codes, IfErr, IfOk};
ghost use Rattle.std.specs.String.{string_bytes};
ghost use Rattle.serde_json.specs.Data.{array};
ghost use Rattle.serde_json.specs.View.{items_view, view};
ghost use Rattle.cedar_data.specs.Answers.{IfRefused};
ghost use Rattle.cedar_envelope.specs.Envelopes.{IsEnvelope, contents};
ghost use Rattle.cedar_names.specs.Extensions.{extension_words};
ghost use Rattle.cedar_reviews.specs.Holding.{TellsEnvelope, TellsNoDeclaration};
ghost use Rattle.cedar_reviews.specs.Merging.{AreMergedAs, Declares, EachDeclares, HoldsMerged, HoldsUnmerged, IsMergedAs, MakesMerge, TellsMerging, TellsUndeclared, TellsUnlisted, TellsUnmerged, other_item, other_value, text_in, texts_in};
ghost use Rattle.cedar_text.specs.Words.{has_word};

use crate::holding::opened;
use crate::printing::printed;
use crate::refusal::{refused, refused_by};
use crate::schemas_not_texts::SchemasNotTexts;
use cedar_data::{Failure, Out, Text};
use cedar_envelope::Envelope;
use cedar_fragment::{Fragment, RawName};
use cedar_merge::merge;
use cedar_names::Extensions;
use cedar_schema::FragmentText;
use serde_json::Value;
use std::alloc::Global;

/// What is written of the schemas whose texts the input, an object in JSON, lists at the key `schemas`: what they
/// declare together, in the human syntax; or else what is told of the first fault.
pub(crate) fn merge_schemas(
    alloc: Global,
    input: &str,
    extensions: &Extensions,
) -> Out<String, String>
    ensures due { IfOk result (λ due.
        MakesMerge input.now (extension_words extensions.now) (string_bytes due)) }
    ensures told { IfRefused result (λ told.
        TellsMerging input.now (extension_words extensions.now) (string_bytes told)) }
{
    let envelope = list_opened(alloc, input)?;
    let answer = merge_held(alloc, &envelope, extensions);
    drop(envelope);
    answer
}

/// The object that the input is, with a value at `schemas`.
fn list_opened(alloc: Global, input: &str) -> Out<Envelope, String>
    ensures is { IfOk result
        (λ e. IsEnvelope input.now [] (codes "schemas" ∷ []) (contents e)) }
    ensures told { IfRefused result
        (λ told. TellsEnvelope [] (codes "schemas" ∷ []) input.now (string_bytes told)) }
{
    let values = [Text::new(alloc, "schemas")?];
    opened(alloc, input, &[], &values)
}

/// What is written of the schemas whose texts an object lists at the key `schemas`; or else what is told of the first
/// fault.
fn merge_held(alloc: Global, envelope: &Envelope, extensions: &Extensions) -> Out<String, String>
    requires { has_word (contents envelope.now).value_keys (codes "schemas") ≡ true }
    ensures due { IfOk result (λ due.
        HoldsMerged (contents envelope.now) (extension_words extensions.now) (string_bytes due)) }
    ensures told { IfRefused result (λ told.
        HoldsUnmerged (contents envelope.now) (extension_words extensions.now) (string_bytes told)) }
{
    let Some(value) = envelope.value("schemas") else {
        unreachable!()
    };
    merge_value(alloc, value, extensions)
}

/// What is written of the schemas whose texts the value lists; or else what is told of the first fault.
fn merge_value(alloc: Global, value: &Value, extensions: &Extensions) -> Out<String, String>
    ensures due { IfOk result (λ due.
        IsMergedAs (extension_words extensions.now) (view value.now) (string_bytes due)) }
    ensures told { IfRefused result (λ told.
        TellsUnlisted (extension_words extensions.now) (view value.now) (string_bytes told)) }
{
    let items = match items_of_texts(value) {
        Ok(items) => items,
        Err(error) => return refused_by(alloc, error),
    };
    let fragments = declared(alloc, items.as_slice(), extensions)?;
    merge_fragments(alloc, fragments)
}

/// The items of a list of texts.
fn items_of_texts(value: &Value) -> Result<&Vec<Value>, SchemasNotTexts>
    ensures texts { IfOk result (λ items. (view value.now ≡ array (items_view items.now.items))
        × (other_item 0 (items_view items.now.items) ≡ None)) }
    ensures other { IfErr result (λ e. other_value (view value.now) ≡ Some e.at) }
{
    let Some(items) = value.as_array() else {
        return Err(SchemasNotTexts { at: None });
    };
    match first_other(items.as_slice()) {
        Some(place) => Err(SchemasNotTexts { at: Some(place) }),
        None => Ok(items),
    }
}

/// The place of the first value that is no text.
fn first_other(items: &[Value]) -> Option<u64>
    ensures { result ≡ other_item 0 (items_view items.now) }
{
    let mut place = 0usize;
    for item in items {
        if item.as_str().is_none() {
            return Some(place as u64);
        }
        place += 1;
    }
    None
}

/// The fragments that the texts declare; or what is told of the first that declares none.
fn declared(
    alloc: Global,
    items: &[Value],
    extensions: &Extensions,
) -> Out<Vec<Fragment<RawName>>, String>
    ensures made { IfOk result (λ made. EachDeclares (extension_words extensions.now)
        (texts_in (items_view items.now)) made.items) }
    ensures told { IfRefused result (λ told. TellsUndeclared (extension_words extensions.now)
        (texts_in (items_view items.now)) (string_bytes told)) }
{
    let mut fragments = Vec::new(alloc);
    for item in items {
        let fragment = declared_by(alloc, item, extensions)?;
        fragments.push(fragment)?;
    }
    Ok(fragments)
}

/// The fragment that the text declares; or what is told where it declares none.
fn declared_by(
    alloc: Global,
    item: &Value,
    extensions: &Extensions,
) -> Out<Fragment<RawName>, String>
    ensures made { IfOk result (λ made. Declares (extension_words extensions.now)
        (text_in (view item.now)) made) }
    ensures told { IfRefused result (λ told. TellsNoDeclaration (text_in (view item.now))
        (string_bytes told)) }
{
    let text = item.as_str().unwrap_or("");
    match Fragment::from_cedarschema_str(alloc, text, extensions) {
        Ok((fragment, _)) => Ok(fragment),
        Err(Failure::Refused(error)) => refused(alloc, error),
        Err(Failure::NoMemory) => Err(Failure::NoMemory),
    }
}

/// What the fragments declare together, in the human syntax; or what is told where that can't be written.
fn merge_fragments(alloc: Global, fragments: Vec<Fragment<RawName>>) -> Out<String, String>
    ensures due { IfOk result (λ due. AreMergedAs fragments.items (string_bytes due)) }
    ensures told { IfRefused result (λ told. TellsUnmerged fragments.items (string_bytes told)) }
{
    match merge(alloc, fragments) {
        Ok(merged) => printed(alloc, merged),
        Err(Failure::Refused(error)) => refused_by(alloc, error),
        Err(Failure::NoMemory) => Err(Failure::NoMemory),
    }
}
