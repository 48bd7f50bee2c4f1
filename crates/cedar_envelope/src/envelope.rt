// SPDX-License-Identifier: Apache-2.0
ghost use Rattle.std.specs.Prelude.{IsTrue};
ghost use Rattle.std.specs.List.{list_all};
ghost use Rattle.serde_json.specs.View.{view};
ghost use Rattle.cedar_envelope.specs.Members.{has_member, has_text};

use crate::keys::{copied, is_one};
use cedar_data::{Items, Mem, Text};
use serde_json::Value;
use std::alloc::Global;

/// An object in JSON with its texts and its values, each asked for by its key.
#[derive(Debug, Drop)]
pub struct Envelope {
    whole: Value,
    texts: Items<Text>,
    values: Items<Text>,
    /// The object has a text at each key of the texts.
    pub ghost texts_there: { IsTrue (list_all (has_text (view whole)) texts) },
    /// The object has a member at each key of the values.
    pub ghost values_there: { IsTrue (list_all (has_member (view whole)) values) },
}

impl Envelope {
    ghost use Rattle.std.specs.Prelude.{◌≡◌, false, IfOk, MatchOption};
    ghost use Rattle.cedar_text.specs.Words.{has_word};
    ghost use Rattle.cedar_envelope.specs.Envelopes.{HoldsText, HoldsValue, contents, enveloped};

    /// The envelope of this object with copies of these keys.
    pub(crate) fn new(alloc: Global, whole: Value, texts: &[Text], values: &[Text]) -> Mem<Envelope>
        requires texts { IsTrue (list_all (has_text (view whole)) texts.now) }
        requires values { IsTrue (list_all (has_member (view whole)) values.now) }
        ensures { IfOk result (λ e. contents e ≡ enveloped (view whole) texts.now values.now) }
    {
        let texts = copied(alloc, texts)?;
        let values = copied(alloc, values)?;
        Ok(Envelope {
            whole,
            texts,
            values,
        })
    }

    /// The text at the key, which is there exactly where the key is one of the texts'.
    pub fn text(&self, key: &str) -> Option<&str>
        ensures { MatchOption result (has_word (contents self.now).text_keys key.now
            ≡ false) (λ text. HoldsText (contents self.now) key.now text.now) }
    {
        if !is_one(self.texts.as_slice(), key) {
            return None;
        }
        let Some(member) = self.whole.get(key) else {
            return None;
        };
        member.as_str()
    }

    /// The value at the key, which is there exactly where the key is one of the values'.
    pub fn value(&self, key: &str) -> Option<&Value>
        ensures { MatchOption result (has_word (contents self.now).value_keys key.now
            ≡ false) (λ value. HoldsValue (contents self.now) key.now (view value.now)) }
    {
        if !is_one(self.values.as_slice(), key) {
            return None;
        }
        self.whole.get(key)
    }
}
