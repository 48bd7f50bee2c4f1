// SPDX-License-Identifier: Apache-2.0
ghost use Rattle.std.specs.Prelude.{◌≡◌, ◌++◌, [], ◌∷◌, List, Some, IfOk, OnOk, cond, unwrap_or};
ghost use Rattle.cedar_data.specs.Answers.{IfRefused};
ghost use Rattle.cedar_data.specs.Maps.{map_values};
ghost use Rattle.cedar_merge.specs.Joining.{AddsNamespace, Holds, error_of, finished, is_in, nothing, said_of};
ghost use Rattle.cedar_merge.specs.KeptNames.{KeepsNamespace};
ghost use Rattle.cedar_merge.specs.Lookups.{Fragment as Held, Path, at, path_cmp, path_of};
ghost use Rattle.cedar_merge.specs.Merged.{Merged, NoClash, NoConflict};
ghost use Rattle.cedar_merge.specs.Texts.{TellsClash, TellsConflict};

use crate::errors::MergeError;
use crate::joined::{Found, Joined, join};
use crate::ordering::fragment_in_order;
use cedar_data::{Dup, Failure, Map, Mem, Out};
use cedar_fragment::{Fragment, NamespaceDefinition, RawName};
use cedar_names::Name;
use std::alloc::Global;

/// The fragments as one: it has the namespaces of all, and in each what any of them declares there. A namespace with a
/// name has its annotations in all of them; the unnamed one has none. Refused with the least namespace, kind and name
/// that two fragments declare; and where there is none, with the least namespace and key to which two of them give
/// different texts.
pub fn merge(alloc: Global, fragments: Vec<Fragment<RawName>>) -> Out<Fragment<RawName>, MergeError>
    ensures merged { IfOk result (λ merged. Merged fragments.items merged) }
    ensures apart { IfOk result (λ _. NoClash fragments.items × NoConflict fragments.items) }
    ensures clash { IfRefused result (TellsClash fragments.items) }
    ensures conflict { IfRefused result (TellsConflict fragments.items) }
    ensures kept { IfRefused result (KeepsNamespace fragments.items) }
{
    let mut all = Map::new(alloc);
    let before = Found::nothing();
    let found = add_fragments(alloc, &mut all, fragments, before)?;
    match told(found) {
        Some(error) => Err(Failure::Refused(error)),
        None => {
            let merged = finish(alloc, all)?;
            fragment_in_order(&merged);
            Ok(merged)
        }
    }
}

/// The error of what was found: of the clash, or else of the conflict.
fn told(found: Found) -> Option<MergeError>
    ensures { result ≡ error_of found }
{
    let Found { clash, conflict } = found;
    match clash {
        Some(place) => Some(place.into_error()),
        None => match conflict {
            Some(place) => Some(place.into_error()),
            None => None,
        },
    }
}

/// Adds what fragments say to what is said of each namespace, and answers what stands against merging so far.
#[tactic(auto, using(crate::proofs::Holding::gathers))]
fn add_fragments(
    alloc: Global,
    all: &mut Map<Option<Name>, Joined>,
    fragments: Vec<Fragment<RawName>>,
    found: Found,
) -> Mem<Found>
    ensures { IfOk result (λ now. (before : List Held) → Holds before all.old found
        → Holds (before ++ fragments.items) all.new now) }
{
    let mut now = found;
    for fragment in fragments {
        now = add_fragment(alloc, all, fragment, now)?;
    }
    Ok(now)
}

/// Adds what a fragment says to what is said of each namespace, and answers what stands against merging so far.
#[tactic(auto, using(crate::proofs::Holding::passes))]
fn add_fragment(
    alloc: Global,
    all: &mut Map<Option<Name>, Joined>,
    fragment: Fragment<RawName>,
    found: Found,
) -> Mem<Found>
    ensures { IfOk result (λ now. (before : List Held) → Holds before all.old found
        → Holds (before ++ fragment ∷ []) all.new now) }
{
    let mut now = found;
    for (path, definition) in fragment.0.into_entries() {
        now = add_namespace(alloc, all, path, definition, now)?;
    }
    Ok(now)
}

/// Adds what a definition says to what is said of its namespace, and answers what stands against merging so far.
fn add_namespace(
    alloc: Global,
    all: &mut Map<Option<Name>, Joined>,
    path: Option<Name>,
    definition: NamespaceDefinition<RawName>,
    found: Found,
) -> Mem<Found>
    ensures { IfOk result (λ now. AddsNamespace path definition all.old found all.new now) }
{
    let mut joined = take_said(alloc, all, &path)?;
    let now = join(alloc, &path, &mut joined, definition, found)?;
    all.put(path, joined)?;
    Ok(now)
}

/// Takes what is said of a namespace out of the map, where it is left with nothing.
fn take_said(alloc: Global, all: &mut Map<Option<Name>, Joined>, path: &Option<Name>) -> Mem<Joined>
    ensures taken { IfOk result (λ joined. joined ≡ said_of all.old (path_of path.now)) }
    ensures left { OnOk result ((ns : Path) → at path_cmp path_of all.new ns
        ≡ cond (is_in path.now ns) (Some nothing) (at path_cmp path_of all.old ns)) }
{
    let copy = path.dup(alloc)?;
    let before = all.insert(copy, Joined::new(alloc))?;
    Ok(said(alloc, before))
}

/// What was said of a namespace, if anything was.
fn said(alloc: Global, before: Option<Joined>) -> Joined
    ensures { result ≡ unwrap_or before nothing }
{
    match before {
        Some(joined) => joined,
        None => Joined::new(alloc),
    }
}

/// The namespaces as a fragment.
fn finish(alloc: Global, all: Map<Option<Name>, Joined>) -> Mem<Fragment<RawName>>
    ensures { IfOk result (λ fragment. fragment.0 ≡ map_values finished all) }
{
    let mut namespaces = Map::new(alloc);
    for (path, joined) in all.into_entries() {
        let definition = joined.finish(alloc)?;
        namespaces.push_last(path, definition)?;
    }
    Ok(Fragment(namespaces))
}
