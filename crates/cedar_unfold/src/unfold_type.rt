// SPDX-License-Identifier: Apache-2.0
ghost use Rattle.std.specs.Prelude.{◌≡◌, ◌+◌, ◌≤◌, Some, IfOk, OnOk};
ghost use Rattle.std.specs.Option.{option_or};
ghost use Rattle.cedar_names.specs.Components.{components};
ghost use Rattle.cedar_names.specs.Extensions.{extension_words};
ghost use Rattle.cedar_names.specs.of_text.Words.{has_word};
ghost use Rattle.cedar_unfolding.specs.Faults.{attribute_faults_by, entity_fault, faults_by};
ghost use Rattle.cedar_unfold.specs.Finished.{entity_of, finished};
ghost use Rattle.cedar_unfold.specs.Following.{first_of};
ghost use Rattle.cedar_unfold.specs.Heads.{IsRecord, attributes_of};
ghost use Rattle.cedar_unfold.specs.Notes.{noted};
ghost use Rattle.cedar_unfold.specs.Tables.{is_tabled, tabled, found_type};
ghost use Rattle.cedar_unfolding.specs.Written.{nodes, attribute_nodes};

use crate::faults::{Fault, note_entity, note_extension, note_no_common, note_record};
use crate::nested::Nested;
use crate::node::{Looked, TypeNode};
use crate::steps::Steps;
use cedar_data::{Dup, Map, Mem, Near};
use cedar_names::{Extensions, InternalName};
use cedar_types::Type;
use std::alloc::Global;
use std::sync::ledger::Ledger;

/// What a type unfolds to where it has no fault, nothing where that nests too deep. The table has this of each common
/// type that the type names. Keeps the first fault of the type, unless an earlier one is kept, also where the type
/// nests too deep.
#[cycle(unfold)]
pub(crate) fn unfolded<T: TypeNode, L: Ledger>(
    alloc: Global,
    ty: &T,
    extensions: &Extensions,
    table: &Map<InternalName, Option<Nested>>,
    fault: &mut Option<Fault>,
    steps: &mut Steps<L>,
) -> Mem<Option<Nested>>
    ensures is { IfOk result (λ found. found_type found
        ≡ finished (tabled table.now) (T.written ty.now)) }
    ensures fault { OnOk result (noted fault.new ≡ option_or (noted fault.old)
        (first_of
        (faults_by Some (is_tabled (tabled table.now)) (has_word (extension_words extensions.now))
        (T.written ty.now)))) }
    ensures counts { steps.new ≤ steps.old + nodes (T.written ty.now) }
{
    match ty.look(steps) {
        Looked::Bool => Ok(Some(Nested::flat(Type::primitive_boolean()))),
        Looked::Long => Ok(Some(Nested::flat(Type::primitive_long()))),
        Looked::String => Ok(Some(Nested::flat(Type::primitive_string()))),
        Looked::Set(element) => match unfolded(alloc, element, extensions, table, fault, steps)? {
            Some(element) => Nested::set(alloc, element),
            None => Ok(None),
        },
        Looked::Record { is_open } => {
            note_record(is_open, fault);
            unfolded_record(alloc, ty, extensions, table, fault, steps)
        }
        Looked::Entity(name) => unfolded_entity(alloc, name, fault),
        Looked::EntityOrCommon(name) => match table.get(name) {
            Some(found) => found.dup(alloc),
            None => unfolded_entity(alloc, name, fault),
        },
        Looked::Common(name) => match table.get(name) {
            Some(found) => found.dup(alloc),
            None => {
                note_no_common(alloc, name, fault)?;
                Ok(None)
            }
        },
        Looked::Extension(id) => {
            note_extension(alloc, id, extensions, fault)?;
            Ok(Some(Nested::extension(alloc, id)?))
        }
    }
}

/// The same of a record that was looked at, and whose own fault is kept.
#[cycle(unfold)]
fn unfolded_record<T: TypeNode, L: Ledger>(
    alloc: Global,
    record_type: &T,
    extensions: &Extensions,
    table: &Map<InternalName, Option<Nested>>,
    fault: &mut Option<Fault>,
    steps: &mut Steps<L>,
) -> Mem<Option<Nested>>
    requires { IsRecord (T.written record_type.now) }
    ensures is { IfOk result (λ found. found_type found
        ≡ finished (tabled table.now) (T.written record_type.now)) }
    ensures fault { OnOk result (noted fault.new ≡ option_or (noted fault.old)
        (first_of
        (attribute_faults_by Some (is_tabled (tabled table.now))
        (has_word (extension_words extensions.now)) (attributes_of (T.written record_type.now))))) }
    ensures counts { steps.new ≤ steps.old + attribute_nodes
        (attributes_of (T.written record_type.now)) }
{
    let mut made = Map::with_room(alloc, record_type.room())?;
    let mut depth: usize = 0;
    let mut is_whole = true;
    let mut near = Near::first();
    let mut after = None;
    while let Some((name, part, required)) = record_type.next_attribute(&mut near, after) {
        after = Some(name);
        match unfolded(alloc, part, extensions, table, fault, steps)? {
            Some(part) => {
                depth = depth.max(part.depth);
                made.push_last(name.dup(alloc)?, part.attribute(required))?;
            }
            None => is_whole = false,
        }
    }
    if is_whole {
        Nested::record(alloc, made, depth)
    } else {
        Ok(None)
    }
}

/// The same of an entity type of this name.
fn unfolded_entity(
    alloc: Global,
    name: &InternalName,
    fault: &mut Option<Fault>,
) -> Mem<Option<Nested>>
    ensures is { IfOk result (λ found. found_type found ≡ entity_of (components name.now)) }
    ensures fault { OnOk result (noted fault.new ≡ option_or (noted fault.old)
        (first_of (entity_fault (components name.now)))) }
{
    note_entity(alloc, name, fault)?;
    Nested::entity(alloc, name)
}
