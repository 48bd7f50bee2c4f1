// SPDX-License-Identifier: Apache-2.0
ghost use Rattle.std.specs.Prelude.{◌≡◌, [], ◌∷◌, Some, IfOk};
ghost use Rattle.std.specs.Option.{option_map};
ghost use Rattle.std.specs.String.{string_bytes};
ghost use Rattle.cedar_json_fault.specs.JsonErrors.{advice_of, fault_of, json_error, path_of};
ghost use Rattle.cedar_json_fault.specs.JsonTexts.{advice_text, fault_text};

use crate::json_fault::JsonFault;
use cedar_written::{Dup, Items, Mem, Span, Text};
use std::alloc::Global;
use std::error::Error;
use std::fmt;

/// What to do where a text is no schema in JSON.
#[derive(Clone, Copy, Debug, PartialEq, Eq)]
pub enum JsonDeserializationAdvice {
    /// The text seems to be a schema in the human syntax.
    CedarFormat,
    /// The text seems to be the definitions of a namespace without its name.
    MissingNamespace,
}

impl JsonDeserializationAdvice {
    /// The advice in words.
    fn words(self) -> &'static str
        ensures { result.now ≡ advice_text self }
    {
        match self {
            JsonDeserializationAdvice::CedarFormat =>
                "this API was expecting a schema in the JSON format; did you mean to use a different function, which expects the Cedar schema format?",
            JsonDeserializationAdvice::MissingNamespace =>
                "JSON formatted schema must specify a namespace. If you want to use the empty namespace, explicitly specify it with `{ \"\": {..} }`",
        }
    }
}

impl Dup for JsonDeserializationAdvice {
    fn dup(&self, _alloc: Global) -> Mem<JsonDeserializationAdvice> {
        Ok(*self)
    }
}

/// Why a schema in JSON was refused: a fault, where it is, and maybe what to do.
#[derive(Debug, Drop, PartialEq, Eq)]
pub struct JsonDeserializationError {
    fault: JsonFault,
    path: Items<Text>,
    advice: Option<JsonDeserializationAdvice>,
}

impl JsonDeserializationError {
    /// The error of this fault behind these keys and places, the outermost first.
    pub fn new(
        fault: JsonFault,
        path: Vec<Text>,
        advice: Option<JsonDeserializationAdvice>,
    ) -> JsonDeserializationError
        ensures { result ≡ json_error fault path.items advice }
    {
        JsonDeserializationError {
            fault,
            path: Items::from_vec(path),
            advice,
        }
    }

    /// The same error, behind this key or place of the value in which it was found.
    pub fn behind(self, alloc: Global, key: &str) -> Mem<JsonDeserializationError>
        ensures { IfOk result (λ e. e
            ≡ json_error (fault_of self) (key.now ∷ path_of self) (advice_of self)) }
    {
        let key = Text::new(alloc, key)?;
        let JsonDeserializationError {
            fault,
            path,
            advice,
        } = self;
        let mut keys = path.into_vec();
        keys.insert(0, key)?;
        Ok(JsonDeserializationError::new(fault, keys, advice))
    }

    /// The same error, with this advice.
    pub fn advised(self, advice: Option<JsonDeserializationAdvice>) -> JsonDeserializationError
        ensures { result ≡ json_error (fault_of self) (path_of self) advice }
    {
        let JsonDeserializationError {
            fault,
            path,
            advice: _,
        } = self;
        JsonDeserializationError {
            fault,
            path,
            advice,
        }
    }

    /// The fault.
    pub fn fault(&self) -> &JsonFault
        ensures { result.now ≡ fault_of self.now }
    {
        &self.fault
    }

    /// The keys and the decimal places of the values in which the fault stands, from the outermost in.
    pub fn path(&self) -> &[Text]
        ensures { result.now ≡ path_of self.now }
    {
        self.path.as_slice()
    }

    /// What to do, if there is something to say.
    pub fn advice(&self) -> Option<JsonDeserializationAdvice>
        ensures { result ≡ advice_of self.now }
    {
        self.advice
    }

    /// The advice in words.
    pub fn help(&self, alloc: Global) -> Mem<Option<String>>
        ensures { IfOk result (λ help. option_map string_bytes help
            ≡ option_map advice_text (advice_of self.now)) }
    {
        match self.advice {
            Some(advice) => {
                let words = advice.words();
                let help = format!(in alloc; "{words}")?;
                Ok(Some(help))
            }
            None => Ok(None),
        }
    }

    /// The places of the kept pieces that have one: none has.
    pub fn spans(&self, alloc: Global) -> Mem<Vec<Span>>
        ensures { IfOk result (λ spans. spans.items ≡ []) }
    {
        Ok(Vec::new(alloc))
    }
}

impl fmt::Display for JsonDeserializationError {
    ghost output = { λ error. Some (fault_text (fault_of error)) };

    fn fmt<W: fmt::Write>(&self, f: &mut fmt::Formatter<W>) -> fmt::Result {
        self.fault.fmt(f)
    }
}

impl Error for JsonDeserializationError {}

impl Dup for JsonDeserializationError {
    fn dup(&self, alloc: Global) -> Mem<JsonDeserializationError> {
        let fault = self.fault.dup(alloc)?;
        let path = self.path.dup(alloc)?;
        Ok(JsonDeserializationError {
            fault,
            path,
            advice: self.advice,
        })
    }
}
