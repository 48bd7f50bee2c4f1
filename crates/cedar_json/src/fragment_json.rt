// SPDX-License-Identifier: Apache-2.0
ghost use Rattle.std.specs.Prelude.{◌≡◌, Some, None, Result, Ok, Err, IfOk};
ghost use Rattle.std.specs.Option.{option_copied, option_map};
ghost use Rattle.std.specs.Str.{trim_start};
ghost use Rattle.cedar_data.specs.declared.memory.Failure.TheVariants.{Refused, NoMemory};
ghost use Rattle.cedar_text.specs.Failures.{IfRefused};
ghost use Rattle.serde_json.specs.View.{view};
ghost use Rattle.cedar_json_types.specs.Faults.{here, refusal};
ghost use Rattle.cedar_json_namespaces.specs.Namespaces.{IsFragment};
ghost use Rattle.cedar_json.specs.TextFaults as texts;
ghost use Rattle.cedar_json.specs.TextFaults.{IsFragmentText, advised, advised_fault, advice_behind, repeats, text_fault, value_fault};

use cedar_data::{Failure, Out};
use cedar_fragment::{Fragment, RawName};
use cedar_json_counts::{count_colons, count_members};
use cedar_json_fault::{JsonDeserializationAdvice, JsonDeserializationError, JsonFault};
use cedar_json_namespaces::read_fragment;
use cedar_json_types::refuse;
use serde_json::Value;
use std::alloc::Global;

/// Fragments as texts in JSON.
pub trait FragmentJson: Sized {
    /// The fragment that the text has the shape of. A text that is no JSON is refused, then one that has a key twice in
    /// an object, then the value's first fault; each with what to do about it.
    fn from_json_str(alloc: Global, json: &str) -> Out<Fragment<RawName>, JsonDeserializationError>
        ensures shape { IfOk result (λ f. IsFragmentText json.now f) }
        ensures clean { IfOk result (λ _. text_fault json.now ≡ None) }
        ensures refused { IfRefused result (λ e. advised_fault json.now ≡ Some e) };
}

/// Whether the value has a key that a namespace has.
fn is_namespace_like(value: &Value) -> bool
    ensures { result ≡ texts.namespace_like (view value.now) }
{
    value.get("entityTypes").is_some()
        || value.get("actions").is_some()
        || value.get("commonTypes").is_some()
}

/// What to do about a text that begins as an object.
fn missing_namespace(value: Option<&Value>) -> Option<JsonDeserializationAdvice>
    ensures { result ≡ texts.missing_namespace (option_map view (option_copied value.entry)) }
{
    match value {
        Some(value) if is_namespace_like(value) => {
            Some(JsonDeserializationAdvice::MissingNamespace)
        }
        _ => None,
    }
}

/// What to do about a text that was refused, by its first character other than white space and by the value that it is.
fn advice_on(text: &str, value: Option<&Value>) -> Option<JsonDeserializationAdvice>
    ensures { result
        ≡ advice_behind (trim_start text.now) (option_map view (option_copied value.entry)) }
{
    match text.trim_start().as_bytes().first() {
        None => None,
        Some(byte) => if *byte == b'{' {
            missing_namespace(value)
        } else {
            Some(JsonDeserializationAdvice::CedarFormat)
        },
    }
}

/// The same answer, with this advice where it is a refusal.
fn with_advice(
    read: Out<Fragment<RawName>, JsonDeserializationError>,
    advice: Option<JsonDeserializationAdvice>,
) -> Out<Fragment<RawName>, JsonDeserializationError>
    ensures ok { IfOk result (λ f. read ≡ Ok f) }
    ensures refused { IfRefused result (λ e. option_map (advised advice) (refusal read) ≡ Some e) }
{
    match read {
        Ok(fragment) => Ok(fragment),
        Err(Failure::NoMemory) => Err(Failure::NoMemory),
        Err(Failure::Refused(error)) => Err(Failure::Refused(error.advised(advice))),
    }
}

/// Refuses a text that has a key twice in an object.
fn refuse_repeats(alloc: Global, text: &str, value: &Value) -> Out<(), JsonDeserializationError>
    ensures clean { IfOk result (λ _. repeats text.now (view value.now) ≡ None) }
    ensures refused { IfRefused result (λ e. repeats text.now (view value.now) ≡ Some e) }
{
    let colons = count_colons(text);
    let members = count_members(value);
    if members < colons {
        return refuse(alloc, JsonFault::RepeatedKey { colons, members });
    }
    Ok(())
}

/// The fragment that the value of the text has the shape of.
fn read_value(
    alloc: Global,
    text: &str,
    value: &Value,
) -> Out<Fragment<RawName>, JsonDeserializationError>
    ensures shape { IfOk result (λ f. IsFragment (view value.now) f) }
    ensures once { IfOk result (λ _. repeats text.now (view value.now) ≡ None) }
    ensures clean { IfOk result (λ _. value_fault text.now (Some (view value.now)) ≡ None) }
    ensures refused { IfRefused result (λ e. value_fault text.now (Some (view value.now))
        ≡ Some e) }
{
    refuse_repeats(alloc, text, value)?;
    read_fragment(alloc, value)
}

impl FragmentJson for Fragment<RawName> {
    fn from_json_str(
        alloc: Global,
        json: &str,
    ) -> Out<Fragment<RawName>, JsonDeserializationError> {
        match Value::from_str(alloc, json) {
            Ok(value) => {
                let read = read_value(alloc, json, &value);
                with_advice(read, advice_on(json, Some(&value)))
            }
            Err(error) => {
                if error.is_memory() {
                    return Err(Failure::NoMemory);
                }
                with_advice(refuse(alloc, JsonFault::NotJson), advice_on(json, None))
            }
        }
    }
}
