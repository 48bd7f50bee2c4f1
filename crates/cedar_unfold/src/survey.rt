// SPDX-License-Identifier: Apache-2.0
ghost use Rattle.std.specs.Prelude.{◌≡◌, ◌+◌, ◌≤◌, ◌++◌, Some, IfOk, OnOk};
ghost use Rattle.std.specs.List.{filter_map, flat_map};
ghost use Rattle.std.specs.List.Sorted.{IsStrictlySortedBy};
ghost use Rattle.std.specs.Option.{option_or};
ghost use Rattle.cedar_names.specs.Extensions.{extension_words};
ghost use Rattle.cedar_names.specs.Names.{internal_cmp};
ghost use Rattle.cedar_names.specs.of_text.Words.{has_word};
ghost use Rattle.cedar_unfolding.specs.Faults.{faults_by, attribute_faults_by};
ghost use Rattle.cedar_unfold.specs.Following.{first_of};
ghost use Rattle.cedar_unfold.specs.Heads.{IsRecord, attributes_of};
ghost use Rattle.cedar_unfold.specs.Notes.{noted};
ghost use Rattle.cedar_unfold.specs.Rows.{row_of, attribute_row_of, written_rows};
ghost use Rattle.cedar_unfold.specs.Tables.{by_name, is_among, names_of};
ghost use Rattle.cedar_unfolding.specs.Written.{nodes, attribute_nodes, all_nodes};

use crate::faults::{Fault, note_entity, note_extension, note_no_common, note_record};
use crate::keys::place_of;
use crate::node::{Looked, TypeNode};
use crate::steps::Steps;
use cedar_data::{Items, Map, Mem, Near};
use cedar_names::{Extensions, InternalName};
use std::alloc::Global;
use std::sync::ledger::Ledger;

/// For each common type, the positions of those that its definition names; and the first fault of the first definition
/// that has one.
pub(crate) fn survey_definitions<T: TypeNode, L: Ledger>(
    alloc: Global,
    defs: &Map<InternalName, T>,
    keys: &[InternalName],
    extensions: &Extensions,
    fault: &mut Option<Fault>,
    steps: &mut Steps<L>,
) -> Mem<Vec<Items<usize>>>
    requires { IsStrictlySortedBy internal_cmp keys.now }
    ensures rows { IfOk result (λ rows. rows.items
        ≡ written_rows (names_of keys.now) (by_name T.written defs.now)) }
    ensures fault { OnOk result (noted fault.new ≡ option_or (noted fault.old)
        (first_of
        (flat_map
        (λ e. faults_by Some (is_among (names_of keys.now))
        (has_word (extension_words extensions.now)) e.1) (by_name T.written defs.now)))) }
    ensures counts { steps.new ≤ steps.old + all_nodes (by_name T.written defs.now) }
{
    let mut rows = Vec::with_capacity(alloc, defs.len())?;
    for (_, ty) in defs.iter() {
        let mut row = Items::new(alloc);
        survey(alloc, ty, keys, extensions, &mut row, fault, steps)?;
        rows.push(row)?;
    }
    Ok(rows)
}

/// Puts the positions of the common types that the type names behind the row, and keeps its first fault, unless an
/// earlier one is kept.
#[cycle(survey)]
fn survey<T: TypeNode, L: Ledger>(
    alloc: Global,
    ty: &T,
    keys: &[InternalName],
    extensions: &Extensions,
    row: &mut Items<usize>,
    fault: &mut Option<Fault>,
    steps: &mut Steps<L>,
) -> Mem<()>
    requires { IsStrictlySortedBy internal_cmp keys.now }
    ensures row { OnOk result (row.new ≡ row.old ++ row_of (names_of keys.now) (T.written ty.now)) }
    ensures fault { OnOk result (noted fault.new ≡ option_or (noted fault.old)
        (first_of
        (faults_by Some (is_among (names_of keys.now)) (has_word (extension_words extensions.now))
        (T.written ty.now)))) }
    ensures counts { steps.new ≤ steps.old + nodes (T.written ty.now) }
{
    match ty.look(steps) {
        Looked::Bool | Looked::Long | Looked::String => Ok(()),
        Looked::Set(element) => survey(alloc, element, keys, extensions, row, fault, steps),
        Looked::Record { is_open } => {
            note_record(is_open, fault);
            survey_record(alloc, ty, keys, extensions, row, fault, steps)
        }
        Looked::Entity(name) => note_entity(alloc, name, fault),
        Looked::EntityOrCommon(name) => match place_of(keys, name) {
            Some(at) => Ok(row.push(at)?),
            None => note_entity(alloc, name, fault),
        },
        Looked::Common(name) => match place_of(keys, name) {
            Some(at) => Ok(row.push(at)?),
            None => note_no_common(alloc, name, fault),
        },
        Looked::Extension(id) => note_extension(alloc, id, extensions, fault),
    }
}

/// The same of the attributes of a record that was looked at.
#[cycle(survey)]
fn survey_record<T: TypeNode, L: Ledger>(
    alloc: Global,
    record_type: &T,
    keys: &[InternalName],
    extensions: &Extensions,
    row: &mut Items<usize>,
    fault: &mut Option<Fault>,
    steps: &mut Steps<L>,
) -> Mem<()>
    requires is_record { IsRecord (T.written record_type.now) }
    requires sorted { IsStrictlySortedBy internal_cmp keys.now }
    ensures row { OnOk result (row.new
        ≡ row.old
        ++ attribute_row_of (names_of keys.now) (attributes_of (T.written record_type.now))) }
    ensures fault { OnOk result (noted fault.new ≡ option_or (noted fault.old)
        (first_of
        (attribute_faults_by Some (is_among (names_of keys.now))
        (has_word (extension_words extensions.now)) (attributes_of (T.written record_type.now))))) }
    ensures counts { steps.new ≤ steps.old + attribute_nodes
        (attributes_of (T.written record_type.now)) }
{
    let mut near = Near::first();
    let mut after = None;
    while let Some((name, part, _)) = record_type.next_attribute(&mut near, after) {
        survey(alloc, part, keys, extensions, row, fault, steps)?;
        after = Some(name);
    }
    Ok(())
}
