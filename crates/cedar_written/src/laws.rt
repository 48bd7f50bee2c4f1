// SPDX-License-Identifier: Apache-2.0
ghost use Rattle.std.specs.Prelude.{◌≡◌};
ghost use Rattle.std.specs.Result.{result_err};
ghost use Rattle.std.specs.declared.result.Result.TheVariants.{Ok};
ghost use Rattle.cedar_written.specs.Bare.{bare_type};
ghost use Rattle.cedar_written.specs.References.{first_refusal, references};
ghost use Rattle.cedar_written.specs.Through.{through_type};
ghost use Rattle.cedar_written.specs.declared.ty.SchemaType.{SchemaType};

use crate::step::Step;

/// A law of the walk over the names of a type. It is refused with the first of its references that is refused; and where
/// none is, all but the names stays as it was. It does nothing when it runs.
pub fn types_are_walked_in_order<N, S: Step<N>>()
    ensures first { (s : S) (t : SchemaType N)
        → result_err (through_type (S.step s) t) ≡ first_refusal (S.step s) (references t) }
    ensures same { (s : S) (t : SchemaType N) (made : SchemaType S.Made)
        → through_type (S.step s) t ≡ Ok made → bare_type made ≡ bare_type t }
{}
