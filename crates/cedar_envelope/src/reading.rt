// SPDX-License-Identifier: Apache-2.0
ghost use Rattle.std.specs.Prelude.{◌≡◌, ◌++◌, Some, None, IfOk, bytes_eq};
ghost use Rattle.std.specs.List.{IsDistinct};
ghost use Rattle.cedar_text.specs.Failures.{IfRefused};
ghost use Rattle.serde_json.specs.Read.{read};
ghost use Rattle.serde_json.specs.View.{view, members_view};
ghost use Rattle.cedar_envelope.specs.Envelopes.{IsEnvelope, contents};
ghost use Rattle.cedar_envelope.specs.declared.fault.EnvelopeFault.TheVariants.{MissingField, NotJson};
ghost use Rattle.cedar_envelope.specs.Faults.{envelope_fault, fault_in, first_at, keys_fault, repeat_fault, text_fault, unknown_fault, value_fault};

use crate::envelope::Envelope;
use crate::fault::EnvelopeFault;
use crate::keys::is_either;
use cedar_data::{Failure, Out, Text};
use cedar_json_counts::{count_colons, count_members};
use cedar_json_types::kind_of;
use serde_json::{Map, Value};
use std::alloc::Global;

/// The value that the text is.
fn read_whole(alloc: Global, text: &str) -> Out<Value, EnvelopeFault>
    ensures ok { IfOk result (λ whole. read text.now ≡ Some (view whole)) }
    ensures refused { IfRefused result (λ fault. (read text.now ≡ None) × (fault ≡ NotJson)) }
{
    match Value::from_str(alloc, text) {
        Ok(whole) => Ok(whole),
        Err(error) => {
            if error.is_memory() {
                return Err(Failure::NoMemory);
            }
            Err(Failure::Refused(EnvelopeFault::NotJson))
        }
    }
}

/// Refuses a text that has a key twice in an object.
fn refuse_repeats(text: &str, whole: &Value) -> Out<(), EnvelopeFault>
    ensures clean { IfOk result (λ _. repeat_fault text.now (view whole.now) ≡ None) }
    ensures refused { IfRefused result (λ fault. repeat_fault text.now (view whole.now)
        ≡ Some fault) }
{
    let colons = count_colons(text);
    let members = count_members(whole);
    if members < colons {
        return Err(Failure::Refused(EnvelopeFault::RepeatedKey { colons, members }));
    }
    Ok(())
}

/// Refuses the first key that is neither one of the texts' nor one of the values'.
fn refuse_unknown(
    alloc: Global,
    members: &Map<String, Value>,
    texts: &[Text],
    values: &[Text],
) -> Out<(), EnvelopeFault>
    ensures clean { IfOk result
        (λ _. unknown_fault (texts.now ++ values.now) (members_view members.now.entries) ≡ None) }
    ensures refused { IfRefused result
        (λ fault. unknown_fault (texts.now ++ values.now) (members_view members.now.entries)
        ≡ Some fault) }
{
    for (key, _) in members.iter() {
        if !is_either(texts, values, key.as_str()) {
            let field = Text::new(alloc, key.as_str())?;
            return Err(Failure::Refused(EnvelopeFault::UnknownField { field }));
        }
    }
    Ok(())
}

/// Refuses what is no object, or has a key that is neither one of the texts' nor one of the values'.
fn check_keys(
    alloc: Global,
    whole: &Value,
    texts: &[Text],
    values: &[Text],
) -> Out<(), EnvelopeFault>
    ensures clean { IfOk result (λ _. keys_fault (texts.now ++ values.now) (view whole.now)
        ≡ None) }
    ensures refused { IfRefused result
        (λ fault. keys_fault (texts.now ++ values.now) (view whole.now) ≡ Some fault) }
{
    let Some(members) = whole.as_object() else {
        return Err(Failure::Refused(EnvelopeFault::NotAnObject {
            found: kind_of(whole),
        }));
    };
    refuse_unknown(alloc, members, texts, values)
}

/// Refuses an object that lacks the key.
fn missing<T>(alloc: Global, key: &str) -> Out<T, EnvelopeFault>
    ensures ok { IfOk result (λ _. ⊥) }
    ensures refused { IfRefused result (λ fault. fault ≡ MissingField key.now) }
{
    let field = Text::new(alloc, key)?;
    Err(Failure::Refused(EnvelopeFault::MissingField { field }))
}

/// Refuses an object that has no text at the key.
fn check_text(alloc: Global, whole: &Value, key: &str) -> Out<(), EnvelopeFault>
    ensures clean { IfOk result (λ _. text_fault (view whole.now) key.now ≡ None) }
    ensures refused { IfRefused result (λ fault. text_fault (view whole.now) key.now ≡ Some fault) }
{
    let Some(member) = whole.get(key) else {
        return missing(alloc, key);
    };
    if member.as_str().is_none() {
        let field = Text::new(alloc, key)?;
        let found = kind_of(member);
        return Err(Failure::Refused(EnvelopeFault::NotAString { field, found }));
    }
    Ok(())
}

/// Refuses an object that lacks a text at one of the keys, the first of them first.
fn check_texts(alloc: Global, whole: &Value, texts: &[Text]) -> Out<(), EnvelopeFault>
    ensures clean { IfOk result (λ _. first_at (text_fault (view whole.now)) texts.now ≡ None) }
    ensures refused { IfRefused result
        (λ fault. first_at (text_fault (view whole.now)) texts.now ≡ Some fault) }
{
    for key in texts {
        check_text(alloc, whole, key.as_str())?;
    }
    Ok(())
}

/// Refuses an object that lacks one of the keys, the first of them first.
fn check_values(alloc: Global, whole: &Value, values: &[Text]) -> Out<(), EnvelopeFault>
    ensures clean { IfOk result (λ _. first_at (value_fault (view whole.now)) values.now ≡ None) }
    ensures refused { IfRefused result
        (λ fault. first_at (value_fault (view whole.now)) values.now ≡ Some fault) }
{
    for key in values {
        if whole.get(key.as_str()).is_none() {
            return missing(alloc, key.as_str());
        }
    }
    Ok(())
}

/// Refuses the value of the text with its first fault.
fn check_whole(
    alloc: Global,
    text: &str,
    whole: &Value,
    texts: &[Text],
    values: &[Text],
) -> Out<(), EnvelopeFault>
    ensures clean { IfOk result (λ _. fault_in text.now texts.now values.now (view whole.now)
        ≡ None) }
    ensures refused { IfRefused result
        (λ fault. fault_in text.now texts.now values.now (view whole.now) ≡ Some fault) }
{
    refuse_repeats(text, whole)?;
    check_keys(alloc, whole, texts, values)?;
    check_texts(alloc, whole, texts)?;
    check_values(alloc, whole, values)
}

/// The envelope that the text is: an object in JSON that has a text at each of the keys `texts`, a value at each of the
/// keys `values`, no other key, and no key twice. Any other text is refused with its first fault. No key may stand
/// twice in `texts` and `values`.
pub fn read_envelope(
    alloc: Global,
    text: &str,
    texts: &[Text],
    values: &[Text],
) -> Out<Envelope, EnvelopeFault>
    requires distinct { IsDistinct bytes_eq (texts.now ++ values.now) }
    ensures ok { IfOk result (λ e. IsEnvelope text.now texts.now values.now (contents e)) }
    ensures clean { IfOk result (λ _. envelope_fault text.now texts.now values.now ≡ None) }
    ensures refused { IfRefused result
        (λ fault. envelope_fault text.now texts.now values.now ≡ Some fault) }
{
    let whole = read_whole(alloc, text)?;
    check_whole(alloc, text, &whole, texts, values)?;
    let envelope = Envelope::new(alloc, whole, texts, values)?;
    Ok(envelope)
}
