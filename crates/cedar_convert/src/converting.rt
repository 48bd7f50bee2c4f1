// SPDX-License-Identifier: Apache-2.0
ghost use Rattle.std.specs.Prelude.{◌≡◌, ⊤, map, IfOk};
ghost use Rattle.cedar_data.specs.Answers.{Accepts, IfRefused};
ghost use Rattle.cedar_names.specs.Extensions.{extension_words};
ghost use Rattle.cedar_tree.specs.Meanings.{schema_tree};
ghost use Rattle.cedar_convert_errors.specs.Texts.{fault_list};
ghost use Rattle.cedar_convert_faults.specs.Conditions.{AreDeclared};
ghost use Rattle.cedar_convert_faults.specs.Faults.{faults_of, schema_faults};
ghost use Rattle.cedar_convert_faults.specs.Gathering.{gathered_tree};
ghost use Rattle.cedar_convert_warnings.specs.Shadowing.{shadows, warnings};
ghost use Rattle.cedar_convert_namespaces.specs.of_convert_fragment.Declares.{Declares, fragment_of};
ghost use Rattle.cedar_convert_namespaces.specs.of_convert_fragment.Fragments.{Fragment as Declared};
ghost use Rattle.cedar_convert_namespaces.specs.of_convert_fragment.Views.{fragment_seen};

use cedar_convert_namespaces::{Fragment, RawName, fragment_declared, refuse};
use cedar_convert_warnings::{
    Gathered, SchemaWarning, ToJsonSchemaErrors, gather, schema_faults, schema_warnings,
};
use cedar_data::{Items, Mem, Out};
use cedar_names::Extensions;
use cedar_tree::Schema;
use std::alloc::Global;

/// The fragment that namespaces declare, and the warnings of their names.
fn fragment_and_warnings(
    alloc: Global,
    all: Items<Gathered>,
    extensions: &Extensions,
) -> Mem<(Fragment<RawName>, Vec<SchemaWarning>)>
    ensures fragment { IfOk result (λ made. fragment_seen made.0
        ≡ fragment_of (map gathered_tree all)) }
    ensures warnings { IfOk result (λ made. made.1.items
        ≡ shadows (extension_words extensions.now) (map gathered_tree all)) }
{
    let warnings = schema_warnings(alloc, &all, extensions)?;
    let fragment = fragment_declared(alloc, all)?;
    Ok((fragment, warnings))
}

/// The same, or all that is wrong with the namespaces.
fn convert_gathered(
    alloc: Global,
    all: Items<Gathered>,
    extensions: &Extensions,
) -> Out<(Fragment<RawName>, Vec<SchemaWarning>), ToJsonSchemaErrors>
    ensures fragment { IfOk result (λ made. fragment_seen made.0
        ≡ fragment_of (map gathered_tree all)) }
    ensures declared { IfOk result (λ _. AreDeclared (map gathered_tree all)) }
    ensures warnings { IfOk result (λ made. made.1.items
        ≡ shadows (extension_words extensions.now) (map gathered_tree all)) }
    ensures refused { IfRefused result (λ errors. fault_list errors
        ≡ faults_of (map gathered_tree all)) }
    ensures accepts { AreDeclared (map gathered_tree all) → Accepts (λ _. ⊤) result }
{
    let faults = schema_faults(alloc, &all)?;
    refuse(faults)?;
    let made = fragment_and_warnings(alloc, all, extensions)?;
    Ok(made)
}

/// The fragment that a schema declares, and the warnings of its names: by namespace in the order of their names, the
/// unnamed one first; in each of its common types, and then of its entity types, in the order of their names. Refused
/// with all that is wrong with the names that are declared, or else with all that is wrong with the declarations.
pub fn cedar_schema_to_json_schema(
    alloc: Global,
    schema: Schema,
    extensions: &Extensions,
) -> Out<(Fragment<RawName>, Vec<SchemaWarning>), ToJsonSchemaErrors>
    ensures declares { IfOk result (λ made. Declares (schema_tree schema) (fragment_seen made.0)) }
    ensures warnings { IfOk result (λ made. made.1.items
        ≡ warnings (extension_words extensions.now) (schema_tree schema)) }
    ensures refused { IfRefused result (λ errors. fault_list errors
        ≡ schema_faults (schema_tree schema)) }
    ensures accepts { (fragment : Declared) → Declares (schema_tree schema) fragment
        → Accepts (λ made. fragment_seen made.0 ≡ fragment) result }
{
    let all = gather(alloc, schema)?;
    convert_gathered(alloc, all, extensions)
}
