// SPDX-License-Identifier: Apache-2.0
ghost use Rattle.std.specs.Prelude.{◌≡◌, IfOk, IfSome, IsErr};
ghost use Rattle.std.specs.String.{string_bytes};
ghost use Rattle.cedar_data.specs.Answers.{IfRefused};
ghost use Rattle.cedar_reviews.specs.Refusal.{error_line, labelled_refusal, refusal_text};

use cedar_data::{Failure, Mem, Out};
use cedar_schema_errors::CedarSchemaError;
use std::alloc::Global;
use std::fmt::Display;

/// The lines that are printed of an error: the error, and then the help where there is help.
pub fn refusal_text(alloc: Global, error: &CedarSchemaError) -> Mem<String>
    ensures { IfOk result (λ text. string_bytes text ≡ refusal_text error.now) }
{
    labelled_text(alloc, "", error)
}

/// The lines that are printed of an error behind a label.
fn labelled_text(alloc: Global, label: &str, error: &CedarSchemaError) -> Mem<String>
    ensures { IfOk result (λ text. string_bytes text ≡ labelled_refusal label.now error.now) }
{
    match error.help(alloc)? {
        None => {
            let text = format!(in alloc; "error: {label}{error}\n")?;
            Ok(text)
        }
        Some(help) => {
            let text = format!(in alloc; "error: {label}{error}\nhelp: {help}\n")?;
            Ok(text)
        }
    }
}

/// The refusal with the lines that are printed of an error.
pub fn refused<T>(alloc: Global, error: CedarSchemaError) -> Out<T, String>
    ensures never { IsErr result }
    ensures told { IfRefused result (λ told. string_bytes told ≡ refusal_text error) }
{
    refused_behind(alloc, "", error)
}

/// The refusal with the lines that are printed of an error behind a label.
pub(crate) fn refused_behind<T>(
    alloc: Global,
    label: &str,
    error: CedarSchemaError,
) -> Out<T, String>
    ensures never { IsErr result }
    ensures told { IfRefused result
        (λ told. string_bytes told ≡ labelled_refusal label.now error) }
{
    let told = labelled_text(alloc, label, &error)?;
    Err(Failure::Refused(told))
}

/// The refusal with the line that is printed of what is wrong.
pub(crate) fn refused_by<T, E: Display + Drop>(alloc: Global, error: E) -> Out<T, String>
    ensures never { IsErr result }
    ensures told { IfRefused result (λ told. IfSome (E.output error)
        (λ text. string_bytes told ≡ error_line text)) }
{
    let told = format!(in alloc; "error: {error}\n")?;
    Err(Failure::Refused(told))
}
