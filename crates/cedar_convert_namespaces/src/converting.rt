// SPDX-License-Identifier: Apache-2.0
ghost use Rattle.std.specs.Prelude.{◌≡◌, [], ⊤, map, IfOk};
ghost use Rattle.cedar_data.specs.Answers.{Accepts, IfRefused};
ghost use Rattle.cedar_tree.specs.Meanings.{annotated_tree, annotations_tree, decl_tree, node_of};
ghost use Rattle.cedar_convert_errors.specs.Texts.{fault_list};
ghost use Rattle.cedar_convert_declarations.specs.of_convert_faults.Conditions.{AreSound};
ghost use Rattle.cedar_convert_declarations.specs.of_convert_faults.Faults.{faults_among};
ghost use Rattle.cedar_convert_declarations.specs.of_convert_fragment.Declares.{definition_of};
ghost use Rattle.cedar_convert_declarations.specs.of_convert_fragment.Views.{definition_seen};

use crate::namespaces::definition_declared;
use cedar_convert_declarations::{
    NamespaceDefinition, RawName, ToJsonSchemaError, ToJsonSchemaErrors, faults_among,
};
use cedar_data::{Failure, Out};
use cedar_text::NonEmpty;
use cedar_tree::{Annotated, Namespace};
use std::alloc::Global;

/// Nothing, where nothing is wrong, and else all that is.
pub fn refuse(faults: Vec<ToJsonSchemaError>) -> Result<(), Failure<ToJsonSchemaErrors>>
    ensures faultless { IfOk result (λ _. faults.items ≡ []) }
    ensures refused { IfRefused result (λ errors. fault_list errors ≡ faults.items) }
    ensures accepts { faults.items ≡ [] → Accepts (λ _. ⊤) result }
{
    match NonEmpty::from_vec(faults) {
        None => Ok(()),
        Some(faults) => Err(Failure::Refused(ToJsonSchemaErrors::new(faults))),
    }
}

/// What the declarations of a namespace declare, under its annotations; of several of one kind and name the last counts.
/// Refused with all that is wrong with the declarations; whether a name stands twice is not asked.
pub fn from_annotated_namespace(
    alloc: Global,
    n: Annotated<Namespace>,
) -> Out<NamespaceDefinition<RawName>, ToJsonSchemaErrors>
    ensures declared { IfOk result (λ made. definition_seen made ≡ definition_of
        (annotations_tree n.annotations) (map (annotated_tree (node_of decl_tree)) n.item.decls)) }
    ensures sound { IfOk result
        (λ _. AreSound (map (annotated_tree (node_of decl_tree)) n.item.decls)) }
    ensures refused { IfRefused result (λ errors. fault_list errors
        ≡ faults_among (map (annotated_tree (node_of decl_tree)) n.item.decls)) }
    ensures accepts { AreSound (map (annotated_tree (node_of decl_tree)) n.item.decls)
        → Accepts (λ _. ⊤) result }
{
    let Annotated { item, annotations } = n;
    let Namespace {
        name: _,
        decls,
        loc: _,
    } = item;
    let faults = faults_among(alloc, &decls)?;
    refuse(faults)?;
    let made = definition_declared(alloc, annotations, decls)?;
    Ok(made)
}
