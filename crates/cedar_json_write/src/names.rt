// SPDX-License-Identifier: Apache-2.0
ghost use Rattle.std.specs.Prelude.{◌≡◌, IfOk, OnOk};
ghost use Rattle.serde_json.specs.Data.{string};
ghost use Rattle.serde_json.specs.View.{view, members_view};
ghost use Rattle.cedar_names.specs.Annotating.{annotation_entries};
ghost use Rattle.cedar_names.specs.Identifiers.{any_word, unreserved_word};
ghost use Rattle.cedar_json_write.specs.Written.{annotation_json, annotations_json, common_word, name_json, namespace_text, notes, put_all};

use crate::fields::{Members, put_at, put_value, text_value};
use crate::to_json::{ToJson, ToKey};
use cedar_data::{Mem, Text};
use cedar_fragment::{CommonTypeId, RawName};
use cedar_names::{Annotation, Annotations, AnyId, Name, UnreservedId};
use serde_json::Value;
use std::alloc::Global;

impl ToJson for Text {
    ghost written = { string };

    fn to_json_value(&self, alloc: Global) -> Mem<Value> {
        text_value(alloc, self.as_str())
    }
}

impl ToJson for RawName {
    ghost written = { name_json };

    fn to_json_value(&self, alloc: Global) -> Mem<Value> {
        let text = self.to_string(alloc)?;
        Ok(Value::from(text))
    }
}

impl ToKey for Text {
    ghost text = { λ k. k };

    fn to_key(&self, alloc: Global) -> Mem<String> {
        let key = String::from_str(alloc, self.as_str())?;
        Ok(key)
    }
}

impl ToKey for UnreservedId {
    ghost text = { unreserved_word };

    fn to_key(&self, alloc: Global) -> Mem<String> {
        let key = String::from_str(alloc, self.as_ref())?;
        Ok(key)
    }
}

impl ToKey for CommonTypeId {
    ghost text = { common_word };

    fn to_key(&self, alloc: Global) -> Mem<String> {
        self.as_ref().to_key(alloc)
    }
}

impl ToKey for Option<Name> {
    ghost text = { namespace_text };

    fn to_key(&self, alloc: Global) -> Mem<String> {
        match self {
            Some(name) => {
                let key = name.to_string(alloc)?;
                Ok(key)
            }
            None => Ok(String::new(alloc)),
        }
    }
}

/// The object of the annotations.
#[tactic(auto, using(crate::proofs::Building::puts))]
fn write_annotations(alloc: Global, annotations: &Annotations) -> Mem<Value>
    ensures { IfOk result (λ v. view v ≡ annotations_json (annotation_entries annotations.now)) }
{
    let mut members = Members::new(alloc);
    for (key, annotation) in annotations.iter() {
        let key = String::from_str(alloc, key.as_ref())?;
        let text = text_value(alloc, annotation.val.as_str())?;
        put_at(&mut members, key, text)?;
    }
    Ok(Value::from(members))
}

/// Puts the annotations at the key `annotations`, unless there is none.
pub(crate) fn put_notes(alloc: Global, members: &mut Members, annotations: &Annotations) -> Mem<()>
    ensures { OnOk result (members_view members.new.entries
        ≡ put_all (notes annotations.now) (members_view members.old.entries)) }
{
    if annotations.is_empty() {
        return Ok(());
    }
    let value = write_annotations(alloc, annotations)?;
    put_value(alloc, members, "annotations", value)
}
