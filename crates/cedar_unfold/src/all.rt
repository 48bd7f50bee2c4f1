// SPDX-License-Identifier: Apache-2.0
ghost use Rattle.std.specs.Prelude.{◌≡◌, ◌+◌, ◌*◌, ◌≤◌, [], None, length, map, option_map, IfOk};
ghost use Rattle.std.specs.Option.{option_copied};
ghost use Rattle.std.specs.List.{AllZip};
ghost use Rattle.std.specs.List.Sorted.{IsStrictlySortedBy};
ghost use Rattle.std.specs.Map.{keys_of};
ghost use Rattle.cedar_data.specs.Answers.{IfRefused};
ghost use Rattle.cedar_data.specs.Firsts.{FirstRefused};
ghost use Rattle.cedar_names.specs.Components.{components};
ghost use Rattle.cedar_names.specs.Names.{internal_cmp};
ghost use Rattle.cedar_schema_error.specs.KeptDeclarations.{KeepsAmong, placed};
ghost use Rattle.cedar_schema_error.specs.Refusals.{CommonType, CycleInCommonTypeReferences, TooDeep};
ghost use Rattle.cedar_schema_error.specs.Told.{told};
ghost use Rattle.cedar_sorting.specs.Orders.{IsOrder};
ghost use Rattle.cedar_sorting.specs.declared.sort.Sorting.TheVariants.{Order};
ghost use Rattle.cedar_unfold.specs.Finished.{common_of};
ghost use Rattle.cedar_unfold.specs.Full.{by_place, job_of};
ghost use Rattle.cedar_unfold.specs.KeptNames.{KeepsName, KeepsNone};
ghost use Rattle.cedar_unfold.specs.Notes.{noted};
ghost use Rattle.cedar_unfold.specs.Passing.{DefinitionsPass, DefinitionsRefuse, HasSome, HasType, IsCycleWithin, LacksType, TellsSorting};
ghost use Rattle.cedar_unfold.specs.ResolvedViews.{resolved};
ghost use Rattle.cedar_unfold.specs.Rows.{definition_rows};
ghost use Rattle.cedar_unfold.specs.Tables.{by_name, names_of, tabled};
ghost use Rattle.cedar_unfolding.specs.UnfoldPhases.{Unfoldable, WhyNotUnfoldable, IsUnfolded};
ghost use Rattle.cedar_unfolding.specs.Written.{all_nodes, node_count};

use crate::copies::put_copy;
use crate::faults::Fault;
use crate::fill::fill;
use crate::keys::copied_keys;
use crate::nested::Nested;
use crate::node::TypeNode;
use crate::steps::Steps;
use crate::survey::survey_definitions;
use crate::uses::unfolded_uses;
use cedar_data::{Dup, Failure, Map, Mem, Out, dup_two};
use cedar_names::{Extensions, InternalName};
use cedar_schema_error::{
    CycleInCommonTypeReferencesError, DeepPlace, SchemaError, TooDeepError, UsePlace,
};
use cedar_sorting::{Sorting, sort_positions};
use cedar_types::Type;
use std::alloc::Global;
use std::sync::ledger::Ledger;

/// What the common types and the uses unfold to.
#[derive(Debug, Drop)]
pub struct Unfolded {
    /// By the names of the common types.
    pub common: Map<InternalName, Type>,
    /// By the places of use.
    pub uses: Map<UsePlace, Type>,
}

impl Dup for Unfolded {
    fn dup(&self, alloc: Global) -> Mem<Unfolded> {
        let (common, uses) = dup_two(alloc, &self.common, &self.uses)?;
        Ok(Unfolded { common, uses })
    }
}

/// What the common types `defs` and the uses unfold to, with `extensions` for the extension types. All names are full
/// names. It looks at each written type at most twice, and writes each common type out once. Refused with the least
/// common type that reaches itself; else with the first fault of the least common type that has one; else with the
/// least common type that nests too deep; else as the first use that is refused. A common type that reaches itself is
/// told as it is defined, with its place.
pub fn unfold_all<T: TypeNode, L: Ledger>(
    alloc: Global,
    defs: &Map<InternalName, T>,
    uses: &Map<UsePlace, T>,
    extensions: &Extensions,
    steps: &mut Steps<L>,
) -> Out<Unfolded, SchemaError>
    ensures done { IfOk result
        (λ u. Unfoldable
        (job_of (by_name T.written defs.now) (by_place T.written uses.now) extensions.now)
        × IsUnfolded
        (job_of (by_name T.written defs.now) (by_place T.written uses.now) extensions.now)
        (by_name resolved u.common) (by_place resolved u.uses)) }
    ensures refused { IfRefused result
        (λ e. WhyNotUnfoldable
        (job_of (by_name T.written defs.now) (by_place T.written uses.now) extensions.now)
        (told e)) }
    ensures kept { IfRefused result (KeepsAmong (map placed (keys_of defs.now)) []) }
    ensures counts { steps.new ≤ steps.old + 2 * node_count (by_name T.written defs.now)
        (by_place T.written uses.now) }
{
    let keys = copied_keys(alloc, defs)?;
    let order = ordered(alloc, defs, keys.as_slice(), extensions, steps)?;
    let table = fill(
        alloc,
        defs,
        keys.as_slice(),
        order.as_slice(),
        extensions,
        steps,
    )?;
    let common = common_types(alloc, defs, &table)?;
    let used = unfolded_uses(alloc, uses, extensions, &table, steps)?;
    Ok(Unfolded { common, uses: used })
}

/// An order in which each common type stands behind those that its definition names. Refused with the least common
/// type that reaches itself, else with the first fault of the first definition that has one.
fn ordered<T: TypeNode, L: Ledger>(
    alloc: Global,
    defs: &Map<InternalName, T>,
    keys: &[InternalName],
    extensions: &Extensions,
    steps: &mut Steps<L>,
) -> Out<Vec<usize>, SchemaError>
    requires keys { keys.now ≡ keys_of defs.now }
    requires sorted { IsStrictlySortedBy internal_cmp keys.now }
    ensures order { IfOk result
        (λ order. IsOrder (definition_rows (by_name T.written defs.now)) order.items) }
    ensures passes { IfOk result
        (λ _. DefinitionsPass (by_name T.written defs.now) extensions.now) }
    ensures refused { IfRefused result
        (λ e. DefinitionsRefuse (by_name T.written defs.now) extensions.now (told e)) }
    ensures kept { IfRefused result (KeepsAmong (map placed keys.now) []) }
    ensures counts { steps.new ≤ steps.old + all_nodes (by_name T.written defs.now) }
{
    let mut fault = None;
    let rows = survey_definitions(alloc, defs, keys, extensions, &mut fault, steps)?;
    let sorting = sort_positions(alloc, rows.as_slice())?;
    judged(alloc, keys, sorting, fault)
}

/// The order that was found. Refused with the name on a cycle, else with the fault.
fn judged(
    alloc: Global,
    keys: &[InternalName],
    sorting: Sorting,
    fault: Option<Fault>,
) -> Out<Vec<usize>, SchemaError>
    requires { IsCycleWithin (length keys.now) sorting }
    ensures order { IfOk result (λ order. (sorting ≡ Order order) × (noted fault ≡ None)) }
    ensures refused { IfRefused result
        (λ e. TellsSorting (names_of keys.now) sorting (noted fault) (told e)) }
    ensures kept { IfRefused result (KeepsAmong (map placed keys.now) []) }
{
    match sorting {
        Sorting::Cycle(least) => Err(Failure::Refused(cycle(alloc, &keys[least])?)),
        Sorting::Order(order) => match fault {
            Some(fault) => Err(Failure::Refused(fault.into_error(alloc))),
            None => Ok(order),
        },
    }
}

/// The error that a common type reaches itself. It keeps the name with its place.
fn cycle(alloc: Global, name: &InternalName) -> Mem<SchemaError>
    ensures tells { IfOk result (λ e. told e ≡ CycleInCommonTypeReferences (components name.now)) }
    ensures kept { IfOk result (KeepsName name.now) }
{
    let ty = name.dup(alloc)?;
    let error = CycleInCommonTypeReferencesError { ty };
    Ok(SchemaError::CycleInCommonTypeReferences(error))
}

/// The common types of a table that has each. Refused with the first that nests too deep.
fn common_types<T>(
    alloc: Global,
    defs: &Map<InternalName, T>,
    table: &Map<InternalName, Option<Nested>>,
) -> Out<Map<InternalName, Type>, SchemaError>
    ensures types { IfOk result
        (λ made. AllZip (HasType (tabled table.now)) (names_of (keys_of defs.now))
        (by_name resolved made)) }
    ensures refused { IfRefused result
        (λ e. FirstRefused (HasSome (tabled table.now)) (LacksType (tabled table.now))
        (names_of (keys_of defs.now)) (told e)) }
    ensures kept { IfRefused result KeepsNone }
{
    let mut made = Map::with_room(alloc, defs.len())?;
    for (key, _) in defs.iter() {
        match found_type(table, key) {
            Some(ty) => put_copy(alloc, &mut made, key, ty.dup(alloc)?)?,
            None => return Err(Failure::Refused(too_deep(alloc, key)?)),
        }
    }
    Ok(made)
}

/// The type that the table has of a common type.

fn found_type<'a>(
    table: &'a Map<InternalName, Option<Nested>>,
    name: &InternalName,
) -> Option<&'a Type>
    ensures { option_map resolved (option_copied result)
        ≡ common_of (tabled table.now (components name.now)) }
{
    match table.get(name) {
        Some(Some(found)) => Some(&found.ty),
        Some(None) => None,
        None => None,
    }
}

/// The error that a common type nests too deep.
fn too_deep(alloc: Global, name: &InternalName) -> Mem<SchemaError>
    ensures tells { IfOk result (λ e. told e ≡ TooDeep (CommonType (components name.now))) }
    ensures kept { IfOk result KeepsNone }
{
    let place = DeepPlace::Common(name.dup(alloc)?);
    Ok(SchemaError::TooDeep(TooDeepError { place }))
}
