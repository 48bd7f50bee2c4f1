// SPDX-License-Identifier: Apache-2.0
ghost use Rattle.std.specs.Prelude.{◌≡◌, ℕ, List, [], Option, IfOk, IfSome};
ghost use Rattle.std.specs.String.{string_bytes};
ghost use Rattle.cedar_text.specs.Failures.{IfRefused};
ghost use Rattle.cedar_print.specs.Pieces.{text_of};
ghost use Rattle.cedar_fragment.specs.Printed.{print};
ghost use Rattle.cedar_fmt.specs.Collisions.{collisions};
ghost use Rattle.cedar_fmt.specs.Texts.{kept_names};
ghost use Rattle.cedar_names.specs.declared.internal_name.InternalName.{InternalName};

use crate::collisions::collisions;
use crate::errors::{NameCollisionsError, ToCedarSchemaSyntaxError};
use cedar_data::{Failure, Mem, Out};
use cedar_fragment::{Fragment, RefName};
use cedar_text::NonEmpty;
use std::alloc::Global;
use std::fmt::Display;

/// The schema in the human syntax: its text as it is displayed. Refused with all full names of named namespaces that
/// are both an entity type and a common type, if there are any.
pub fn json_schema_to_cedar_schema_str<N: RefName + Display>(
    alloc: Global,
    json_schema: &Fragment<N>,
) -> Out<String, ToCedarSchemaSyntaxError>
    ensures none { IfOk result (λ text. collisions json_schema.now ≡ []) }
    ensures text { IfOk result
        (λ text. IfSome (text_of N.output (print json_schema.now)) (λ bs. string_bytes text ≡ bs)) }
    ensures refused { IfRefused result (λ error. kept_names error ≡ collisions json_schema.now) }
{
    let names = collisions(alloc, json_schema)?;
    match NonEmpty::from_vec(names) {
        Some(names) => Err(Failure::Refused(ToCedarSchemaSyntaxError::NameCollisions(
            NameCollisionsError { names },
        ))),
        None => Ok(written(alloc, json_schema)?),
    }
}

/// The text of the schema.
fn written<N: RefName + Display>(alloc: Global, fragment: &Fragment<N>) -> Mem<String>
    ensures { IfOk result
        (λ text. IfSome (text_of N.output (print fragment.now)) (λ bs. string_bytes text ≡ bs)) }
{
    let text = fragment.to_string(alloc)?;
    Ok(text)
}

/// What can be written in the human syntax.
pub trait ToCedarSchema {
    /// Its text, if its names tell theirs.
    ghost printed: { Self → Option (List ℕ) };
    /// All full names of named namespaces that are both an entity type and a common type, in order.
    ghost shared: { Self → List InternalName };

    /// The text; refused with the names that are both, if there are any.
    fn to_cedarschema(&self, alloc: Global) -> Out<String, ToCedarSchemaSyntaxError>
        ensures none { IfOk result (λ text. shared self.now ≡ []) }
        ensures text { IfOk result (λ text. IfSome (printed self.now) (λ bs. string_bytes text
            ≡ bs)) }
        ensures refused { IfRefused result (λ error. kept_names error ≡ shared self.now) };
}

impl<N: RefName + Display> ToCedarSchema for Fragment<N> {
    ghost printed = { λ fragment. text_of N.output (print fragment) };

    ghost shared = { λ fragment. collisions fragment };

    fn to_cedarschema(&self, alloc: Global) -> Out<String, ToCedarSchemaSyntaxError> {
        json_schema_to_cedar_schema_str(alloc, self)
    }
}
