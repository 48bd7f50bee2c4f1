// SPDX-License-Identifier: Apache-2.0
ghost use Rattle.std.specs.Prelude.{◌≡◌, ⊤, IfOk};
ghost use Rattle.cedar_data.specs.Answers.{Accepts, IfRefused};
ghost use Rattle.cedar_tree.specs.Meanings.{node_of, type_tree};
ghost use Rattle.cedar_convert_faults.specs.of_convert_errors.Texts.{fault_list};
ghost use Rattle.cedar_convert_faults.specs.Conditions.{HasNoRepeat};
ghost use Rattle.cedar_convert_faults.specs.TypeRepeats.{leftmost_repeat, repeat_fault};
ghost use Rattle.cedar_convert_fragment.specs.Declares.{type_at};
ghost use Rattle.cedar_convert_fragment.specs.Views.{type_seen};

use crate::types::type_declared;
use cedar_convert_faults::{ToJsonSchemaErrors, type_fault};
use cedar_data::{Failure, Out};
use cedar_fragment::{RawName, SchemaType};
use cedar_text::{Node, NonEmpty};
use cedar_tree::Type;
use std::alloc::Global;

/// The type that a written type declares, at its place. Refused with its leftmost attribute that an earlier attribute of
/// the same record has as its name, if there is one.
pub fn cedar_type_to_json_type(
    alloc: Global,
    ty: Node<Type>,
) -> Out<SchemaType<RawName>, ToJsonSchemaErrors>
    ensures declared { IfOk result (λ made. type_seen made ≡ type_at (node_of type_tree ty)) }
    ensures once { IfOk result (λ _. HasNoRepeat (type_tree ty.node)) }
    ensures refused { IfRefused result (λ errors. fault_list errors
        ≡ repeat_fault (leftmost_repeat (type_tree ty.node))) }
    ensures accepts { HasNoRepeat (type_tree ty.node) → Accepts (λ _. ⊤) result }
{
    if let Some(fault) = type_fault(alloc, &ty.node)? {
        let faults = NonEmpty::singleton(alloc, fault);
        return Err(Failure::Refused(ToJsonSchemaErrors::new(faults)));
    }
    let made = type_declared(alloc, ty)?;
    Ok(made)
}
