// SPDX-License-Identifier: Apache-2.0
ghost use Rattle.std.specs.Prelude.{◌≡◌, [], Some, None, IfOk};
ghost use Rattle.cedar_names.specs.Annotating.{annotation_entries, any_cmp};
ghost use Rattle.cedar_text.specs.Failures.{IfRefused};
ghost use Rattle.serde_json.specs.View.{view, members_view};
ghost use Rattle.cedar_json_types.specs.Faults.{members_fault, entry_fault};
ghost use Rattle.cedar_json_types.specs.Parts.{any_id_fault, annotation_fault, annotations_fault, AreAnnotations, IdentifiesAny, IsAnnotation, IsNote, NoAnnotations};
ghost use Rattle.cedar_json_types.specs.Shapes.{Entry, MapMembers};

use crate::reading::{JsonKey, MayBeAbsent, ReadPart};
use crate::refusing::{under, wrong_type};
use cedar_data::{Out, Text};
use cedar_json_fault::{JsonDeserializationError, JsonKind};
use cedar_names::{Annotation, Annotations, AnyId};
use serde_json::{Map as Members, Value};
use std::alloc::Global;

/// The text of an annotation.
fn read_note(alloc: Global, value: &Value) -> Out<Text, JsonDeserializationError>
    ensures shape { IfOk result (λ t. IsNote (view value.now) t) }
    ensures clean { IfOk result (λ _. annotation_fault (view value.now) ≡ None) }
    ensures refused { IfRefused result (λ e. annotation_fault (view value.now) ≡ Some e) }
{
    match value {
        Value::Null => {
            let text = Text::new(alloc, "")?;
            Ok(text)
        }
        Value::String(text) => {
            let text = Text::new(alloc, text.as_str())?;
            Ok(text)
        }
        _ => wrong_type(alloc, value, JsonKind::String),
    }
}

impl ReadPart for Annotation {
    ghost shapes = { IsAnnotation };

    ghost fault = { annotation_fault };

    fn from_json_value(alloc: Global, json: &Value) -> Out<Annotation, JsonDeserializationError> {
        let val = read_note(alloc, json)?;
        Ok(Annotation { val, loc: None })
    }
}

/// The key and the annotation that a member is.
fn read_entry(
    alloc: Global,
    key: &str,
    value: &Value,
) -> Out<(AnyId, Annotation), JsonDeserializationError>
    ensures shape { IfOk result
        (λ e. Entry IdentifiesAny IsAnnotation key.now (view value.now) e.0 e.1) }
    ensures clean { IfOk result
        (λ _. entry_fault any_id_fault annotation_fault key.now (view value.now) ≡ None) }
    ensures refused { IfRefused result
        (λ e. entry_fault any_id_fault annotation_fault key.now (view value.now) ≡ Some e) }
{
    let id = AnyId::from_key(alloc, key)?;
    let annotation = under(alloc, key, Annotation::from_json_value(alloc, value))?;
    Ok((id, annotation))
}

/// The annotations that the members are.
#[tactic(auto, using(crate::proofs::MemberLoops::reads_members))]
fn read_members(
    alloc: Global,
    members: &Members<String, Value>,
) -> Out<Annotations, JsonDeserializationError>
    ensures shape { IfOk result
        (λ a. MapMembers any_cmp (Entry IdentifiesAny IsAnnotation)
        (members_view members.now.entries) (annotation_entries a)) }
    ensures clean { IfOk result
        (λ _. members_fault (entry_fault any_id_fault annotation_fault)
        (members_view members.now.entries) ≡ None) }
    ensures refused { IfRefused result
        (λ e. members_fault (entry_fault any_id_fault annotation_fault)
        (members_view members.now.entries) ≡ Some e) }
{
    let mut read = Annotations::new(alloc);
    for (key, member) in members.iter() {
        let (id, annotation) = read_entry(alloc, key.as_str(), member)?;
        read.insert(id, annotation)?;
    }
    Ok(read)
}

impl ReadPart for Annotations {
    ghost shapes = { AreAnnotations };

    ghost fault = { annotations_fault };

    fn from_json_value(alloc: Global, json: &Value) -> Out<Annotations, JsonDeserializationError> {
        let Some(members) = json.as_object() else {
            return wrong_type(alloc, json, JsonKind::Object);
        };
        read_members(alloc, members)
    }
}

impl MayBeAbsent for Annotations {
    ghost absent = { NoAnnotations };

    fn when_absent(alloc: Global) -> Annotations {
        Annotations::new(alloc)
    }
}
