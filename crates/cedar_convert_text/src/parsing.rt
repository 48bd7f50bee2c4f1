// SPDX-License-Identifier: Apache-2.0
ghost use Rattle.std.specs.Prelude.{◌≡◌, Some, IfOk};
ghost use Rattle.std.specs.Option.{option_map};
ghost use Rattle.std.specs.String.{string_bytes};
ghost use Rattle.cedar_data.specs.Answers.{Accepts, IfRefused};
ghost use Rattle.cedar_names.specs.Extensions.{extension_words};
ghost use Rattle.cedar_tree.specs.Meanings.{schema_tree};
ghost use Rattle.cedar_tree.specs.Trees.{Schema as SchemaTree};
ghost use Rattle.cedar_convert.specs.of_convert_warnings.Shadowing.{warnings};
ghost use Rattle.cedar_syntax.specs.Texts.{ReadsText};
ghost use Rattle.cedar_convert.specs.of_convert_faults.Faults.{schema_faults};
ghost use Rattle.cedar_convert.specs.of_convert_fragment.Declares.{Declares};
ghost use Rattle.cedar_convert.specs.of_convert_fragment.Fragments.{Fragment as Declared};
ghost use Rattle.cedar_convert_text.specs.Texts.{AreFaults, DeclaresText, TellsText, parse_help, parse_spans, parse_text};
ghost use Rattle.cedar_convert.specs.of_convert_fragment.Views.{fragment_seen};
ghost use Rattle.cedar_convert_text.specs.declared.parsing.CedarSchemaParseErrors.TheVariants as error_of;

use cedar_convert::{
    Fragment, RawName, SchemaWarning, ToJsonSchemaErrors, cedar_schema_to_json_schema,
};
use cedar_data::{Dup, Failure, Mem, Out};
use cedar_names::Extensions;
use cedar_syntax::{Schema, parse_schema};
use cedar_text::Span;
use cedar_tree::ParseErrors;
use std::alloc::Global;
use std::error::Error;
use std::fmt;

/// Why a text declares no fragment: it is no schema, or it is one with faults.
#[derive(Debug, Drop, PartialEq, Eq)]
pub enum CedarSchemaParseErrors {
    /// The text is no schema.
    SyntaxError(ParseErrors),
    /// The text is a schema that declares no fragment.
    JsonError(ToJsonSchemaErrors),
}

impl CedarSchemaParseErrors {
    /// What to do about the first error, if there is something to say. It fails only for want of memory.
    pub fn help(&self, alloc: Global) -> Mem<Option<String>>
        ensures { IfOk result (λ help. option_map string_bytes help ≡ parse_help self.now) }
    {
        match self {
            CedarSchemaParseErrors::SyntaxError(errors) => errors.help(alloc),
            CedarSchemaParseErrors::JsonError(errors) => errors.help(alloc),
        }
    }

    /// The places of all errors, in order. It fails only for want of memory.
    pub fn spans(&self, alloc: Global) -> Mem<Vec<Span>>
        ensures { IfOk result (λ spans. spans.items ≡ parse_spans self.now) }
    {
        match self {
            CedarSchemaParseErrors::SyntaxError(errors) => errors.spans(alloc),
            CedarSchemaParseErrors::JsonError(errors) => errors.spans(alloc),
        }
    }
}

impl fmt::Display for CedarSchemaParseErrors {
    ghost output = { λ errors. Some (parse_text errors) };

    fn fmt<W: fmt::Write>(&self, f: &mut fmt::Formatter<W>) -> fmt::Result {
        match self {
            CedarSchemaParseErrors::SyntaxError(errors) => errors.fmt(f),
            CedarSchemaParseErrors::JsonError(errors) => errors.fmt(f),
        }
    }
}

impl Error for CedarSchemaParseErrors {}

impl From<ParseErrors> for CedarSchemaParseErrors {
    ghost from_gives = { λ errors e. e ≡ error_of.SyntaxError errors };

    fn from(errors: ParseErrors) -> CedarSchemaParseErrors {
        CedarSchemaParseErrors::SyntaxError(errors)
    }
}

impl From<ToJsonSchemaErrors> for CedarSchemaParseErrors {
    ghost from_gives = { λ errors e. e ≡ error_of.JsonError errors };

    fn from(errors: ToJsonSchemaErrors) -> CedarSchemaParseErrors {
        CedarSchemaParseErrors::JsonError(errors)
    }
}

impl Dup for CedarSchemaParseErrors {
    fn dup(&self, alloc: Global) -> Mem<CedarSchemaParseErrors> {
        match self {
            CedarSchemaParseErrors::SyntaxError(errors) => {
                let errors = errors.dup(alloc)?;
                Ok(CedarSchemaParseErrors::SyntaxError(errors))
            }
            CedarSchemaParseErrors::JsonError(errors) => {
                let errors = errors.dup(alloc)?;
                Ok(CedarSchemaParseErrors::JsonError(errors))
            }
        }
    }
}

/// The schema that a text is, or why it is none.
fn parsed(alloc: Global, src: &str) -> Out<Schema, CedarSchemaParseErrors>
    ensures reads { IfOk result (λ schema. ReadsText src.now (schema_tree schema)) }
    ensures refused { IfRefused result (λ errors. TellsText src.now errors) }
    ensures accepts { (tree : SchemaTree) → ReadsText src.now tree
        → Accepts (λ schema. schema_tree schema ≡ tree) result }
{
    match parse_schema(alloc, src) {
        Ok(schema) => Ok(schema),
        Err(Failure::Refused(errors)) => {
            Err(Failure::Refused(CedarSchemaParseErrors::SyntaxError(errors)))
        }
        Err(Failure::NoMemory) => Err(Failure::NoMemory),
    }
}

/// The fragment that a schema declares, and the warnings of its names, or all that is wrong with the schema.
fn converted(
    alloc: Global,
    schema: Schema,
    extensions: &Extensions,
) -> Out<(Fragment<RawName>, Vec<SchemaWarning>), CedarSchemaParseErrors>
    ensures declares { IfOk result (λ made. Declares (schema_tree schema) (fragment_seen made.0)) }
    ensures warnings { IfOk result (λ made. made.1.items
        ≡ warnings (extension_words extensions.now) (schema_tree schema)) }
    ensures refused { IfRefused result (λ errors. AreFaults errors
        (schema_faults (schema_tree schema))) }
    ensures accepts { (fragment : Declared) → Declares (schema_tree schema) fragment
        → Accepts (λ made. fragment_seen made.0 ≡ fragment) result }
{
    match cedar_schema_to_json_schema(alloc, schema, extensions) {
        Ok(made) => Ok(made),
        Err(Failure::Refused(errors)) => {
            Err(Failure::Refused(CedarSchemaParseErrors::JsonError(errors)))
        }
        Err(Failure::NoMemory) => Err(Failure::NoMemory),
    }
}

/// The fragment that a text declares, and the warnings of its names. Refused with why the text is no schema, or else with
/// all that is wrong with the schema.
pub fn parse_cedar_schema_fragment(
    alloc: Global,
    src: &str,
    extensions: &Extensions,
) -> Out<(Fragment<RawName>, Vec<SchemaWarning>), CedarSchemaParseErrors>
    ensures declares { IfOk result (λ made. DeclaresText src.now (extension_words extensions.now)
        (fragment_seen made.0) made.1.items) }
    ensures refused { IfRefused result (λ errors. TellsText src.now errors) }
    ensures faults { (tree : SchemaTree) → ReadsText src.now tree
        → IfRefused result (λ errors. AreFaults errors (schema_faults tree)) }
    ensures accepts { (tree : SchemaTree) → ReadsText src.now tree
        → (fragment : Declared) → Declares tree fragment
        → Accepts (λ made. fragment_seen made.0 ≡ fragment) result }
{
    match parsed(alloc, src) {
        Ok(schema) => converted(alloc, schema, extensions),
        Err(failure) => Err(failure),
    }
}
