// SPDX-License-Identifier: Apache-2.0
ghost use Rattle.std.specs.Prelude.{◌≡◌};
ghost use Rattle.std.specs.Result.{result_err};
ghost use Rattle.std.specs.declared.result.Result.TheVariants.{Ok};
ghost use Rattle.cedar_written.specs.References.{first_refusal};
ghost use Rattle.cedar_fragment.specs.Definitions.{bare_namespace, through_namespace};
ghost use Rattle.cedar_fragment.specs.References.{references_of_namespace};
ghost use Rattle.cedar_fragment.specs.declared.definitions.NamespaceDefinition.{NamespaceDefinition};

use cedar_json_fault::{RefName, Step};

/// A law of the walk over the names of a namespace. It is refused with the first of its references that is refused, in
/// the order of fields and keys; and where none is, all but the names stays as it was. It does nothing when it runs.
pub fn namespaces_are_walked_in_order<N: RefName, S: Step<N>>()
    ensures first { (s : S) (n : NamespaceDefinition N N.RefName)
        → result_err (through_namespace N.RefName S.Made.RefName (S.step s) n)
        ≡ first_refusal (S.step s) (references_of_namespace n) }
    ensures same { (s : S) (n : NamespaceDefinition N N.RefName)
        (made : NamespaceDefinition S.Made S.Made.RefName)
        → through_namespace N.RefName S.Made.RefName (S.step s) n ≡ Ok made → bare_namespace made
        ≡ bare_namespace n }
{}
