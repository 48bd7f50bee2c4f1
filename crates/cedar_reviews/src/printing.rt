// SPDX-License-Identifier: Apache-2.0
ghost use Rattle.std.specs.Prelude.{◌≡◌, ⊤, [], IfOk};
ghost use Rattle.std.specs.String.{string_bytes};
ghost use Rattle.cedar_data.specs.Answers.{Accepts, IfRefused};
ghost use Rattle.cedar_fmt.specs.Collisions.{collisions};
ghost use Rattle.cedar_reviews.specs.Printing.{IsPrintedAs, TellsCollisionsOf};

use crate::refusal::refused_by;
use cedar_data::{Failure, Out};
use cedar_fmt::json_schema_to_cedar_schema_str;
use cedar_fragment::{Fragment, RawName};
use std::alloc::Global;

/// The fragment in the human syntax; or what is told of the names that stand for two types.
pub fn printed(alloc: Global, fragment: Fragment<RawName>) -> Out<String, String>
    ensures due { IfOk result (λ due. IsPrintedAs fragment (string_bytes due)) }
    ensures told { IfRefused result (λ told. TellsCollisionsOf fragment (string_bytes told)) }
    ensures accepts { collisions fragment ≡ [] → Accepts (λ _. ⊤) result }
{
    match json_schema_to_cedar_schema_str(alloc, &fragment) {
        Ok(text) => Ok(text),
        Err(Failure::Refused(error)) => refused_by(alloc, error),
        Err(Failure::NoMemory) => Err(Failure::NoMemory),
    }
}
