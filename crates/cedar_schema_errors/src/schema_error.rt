// SPDX-License-Identifier: Apache-2.0
ghost use Rattle.std.specs.Prelude.{◌≡◌, Some, IfOk};
ghost use Rattle.std.specs.Option.{option_map};
ghost use Rattle.std.specs.String.{string_bytes};
ghost use Rattle.cedar_schema_errors.specs.ErrorTexts.{error_help, error_spans, error_text};
ghost use Rattle.cedar_schema_errors.specs.declared.schema_error.CedarSchemaError.TheVariants as error;

use crate::parse_error::CedarSchemaParseError;
use cedar_data::{Dup, Mem};
use cedar_schema_error::SchemaError;
use cedar_text::Span;
use std::alloc::Global;
use std::error::Error;
use std::fmt;

/// Why a text becomes no schema.
#[derive(Debug, Drop)]
pub enum CedarSchemaError {
    /// The text declares a fragment that is at fault.
    Schema(SchemaError),
    /// The text declares no fragment.
    Parsing(CedarSchemaParseError),
}

impl CedarSchemaError {
    /// What to do about the error, if there is something to say. It fails only for want of memory.
    pub fn help(&self, alloc: Global) -> Mem<Option<String>>
        ensures { IfOk result (λ help. option_map string_bytes help ≡ error_help self.now) }
    {
        match self {
            CedarSchemaError::Schema(error) => error.help(alloc),
            CedarSchemaError::Parsing(error) => error.help(alloc),
        }
    }

    /// The places that the error keeps, in order. It fails only for want of memory.
    pub fn spans(&self, alloc: Global) -> Mem<Vec<Span>>
        ensures { IfOk result (λ spans. spans.items ≡ error_spans self.now) }
    {
        match self {
            CedarSchemaError::Schema(error) => error.spans(alloc),
            CedarSchemaError::Parsing(error) => error.spans(alloc),
        }
    }
}

impl fmt::Display for CedarSchemaError {
    ghost output = { λ error. Some (error_text error) };

    fn fmt<W: fmt::Write>(&self, f: &mut fmt::Formatter<W>) -> fmt::Result {
        match self {
            CedarSchemaError::Schema(error) => error.fmt(f),
            CedarSchemaError::Parsing(error) => error.fmt(f),
        }
    }
}

impl Error for CedarSchemaError {}

impl From<SchemaError> for CedarSchemaError {
    ghost from_gives = { λ kept e. e ≡ error.Schema kept };

    fn from(kept: SchemaError) -> CedarSchemaError {
        CedarSchemaError::Schema(kept)
    }
}

impl From<CedarSchemaParseError> for CedarSchemaError {
    ghost from_gives = { λ kept e. e ≡ error.Parsing kept };

    fn from(kept: CedarSchemaParseError) -> CedarSchemaError {
        CedarSchemaError::Parsing(kept)
    }
}

impl Dup for CedarSchemaError {
    fn dup(&self, alloc: Global) -> Mem<CedarSchemaError> {
        match self {
            CedarSchemaError::Schema(error) => {
                let error = error.dup(alloc)?;
                Ok(CedarSchemaError::Schema(error))
            }
            CedarSchemaError::Parsing(error) => {
                let error = error.dup(alloc)?;
                Ok(CedarSchemaError::Parsing(error))
            }
        }
    }
}
