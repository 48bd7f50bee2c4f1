// SPDX-License-Identifier: Apache-2.0
ghost use Rattle.std.specs.Prelude.{◌≡◌, ◌++◌, IfOk, OnOk};
ghost use Rattle.cedar_data.specs.Sets.{set_of};
ghost use Rattle.cedar_fmt.specs.Collisions.{all_shared, collisions, full_name, has_common, shared_name, shared_names, shared_under};
ghost use Rattle.cedar_names.specs.Names.{internal_cmp};

use cedar_data::{Dup, Items, Mem, Set};
use cedar_fragment::{Fragment, NamespaceDefinition};
use cedar_names::{InternalName, Name, UnreservedId};
use cedar_written::{CommonTypeId, RawName, RefName};
use std::alloc::Global;

/// All full names of named namespaces that are both an entity type and a common type, in order.
pub(crate) fn collisions<N: RefName>(
    alloc: Global,
    fragment: &Fragment<N>,
) -> Mem<Vec<InternalName>>
    ensures { IfOk result (λ names. names.items ≡ collisions fragment.now) }
{
    let names = all_shared(alloc, fragment)?;
    let names = ordered(alloc, names.into_vec())?;
    listed(alloc, &names)
}

/// The names in their order, each once.
fn ordered(alloc: Global, names: Vec<InternalName>) -> Mem<Set<InternalName>>
    ensures { IfOk result (λ set. set ≡ set_of internal_cmp names.items) }
{
    let mut set = Set::new(alloc);
    for name in names {
        set.insert(name)?;
    }
    Ok(set)
}

/// The names of a set, in order.
fn listed(alloc: Global, names: &Set<InternalName>) -> Mem<Vec<InternalName>>
    ensures { IfOk result (λ list. list.items ≡ names.now) }
{
    let mut list = Vec::with_capacity(alloc, names.len())?;
    for name in names.iter() {
        let name = name.dup(alloc)?;
        list.push(name)?;
    }
    Ok(list)
}

/// The same, namespace by namespace.
#[tactic(auto, using(crate::proofs::Gathering::gathers))]
fn all_shared<N: RefName>(alloc: Global, fragment: &Fragment<N>) -> Mem<Items<InternalName>>
    ensures { IfOk result (λ names. names ≡ all_shared fragment.now) }
{
    let mut names = Items::new(alloc);
    for (path, definition) in fragment.0.iter() {
        add_under(alloc, path, definition, &mut names)?;
    }
    Ok(names)
}

/// Adds the names of a namespace that are both, if it has a name.
fn add_under<N: RefName>(
    alloc: Global,
    path: &Option<Name>,
    definition: &NamespaceDefinition<N>,
    names: &mut Items<InternalName>,
) -> Mem<()>
    ensures { OnOk result (names.new ≡ names.old ++ shared_under path.now definition.now) }
{
    match path {
        None => Ok(()),
        Some(path) => add_shared(alloc, path, definition, names),
    }
}

/// Adds the names of a named namespace that are both.
#[tactic(auto, using(crate::proofs::Gathering::gathers))]
fn add_shared<N: RefName>(
    alloc: Global,
    path: &Name,
    definition: &NamespaceDefinition<N>,
    names: &mut Items<InternalName>,
) -> Mem<()>
    ensures { OnOk result (names.new ≡ names.old ++ shared_names path.now definition.now) }
{
    for (id, _) in definition.entity_types.iter() {
        add_if_shared(alloc, path, id, definition, names)?;
    }
    Ok(())
}

/// Adds the name of an entity type if it is a common type too.
fn add_if_shared<N: RefName>(
    alloc: Global,
    path: &Name,
    id: &UnreservedId,
    definition: &NamespaceDefinition<N>,
    names: &mut Items<InternalName>,
) -> Mem<()>
    ensures { OnOk result (names.new ≡ names.old ++ shared_name path.now definition.now id.now) }
{
    if !is_common(alloc, definition, id)? {
        return Ok(());
    }
    let name = name_in(alloc, path, id)?;
    names.push(name)
}

/// Whether a common type has the identifier.
fn is_common<N: RefName>(
    alloc: Global,
    definition: &NamespaceDefinition<N>,
    id: &UnreservedId,
) -> Mem<bool>
    ensures { IfOk result (λ is_common. is_common ≡ has_common definition.now id.now) }
{
    let id = id.dup(alloc)?;
    Ok(
        definition
            .common_types
            .contains_key(&CommonTypeId::unchecked(id)),
    )
}

/// The name of an identifier in a namespace.
fn name_in(alloc: Global, path: &Name, id: &UnreservedId) -> Mem<InternalName>
    ensures { IfOk result (λ name. name ≡ full_name path.now id.now) }
{
    let name = RawName::new_from_unreserved(alloc, id.dup(alloc)?, None);
    name.qualify_with_name(alloc, Some(path))
}
