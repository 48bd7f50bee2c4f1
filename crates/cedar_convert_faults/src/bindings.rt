// SPDX-License-Identifier: Apache-2.0
ghost use Rattle.std.specs.Prelude.{◌≡◌, [], ◌++◌, map, option_map, option_to_list, IfOk, OnOk};
ghost use Rattle.cedar_tree.specs.Meanings.{decl_tree, annotated_tree, node_of, path_tree};
ghost use Rattle.cedar_convert_faults.specs.Bindings.{names_of, names_in, repeated_name, repeated_namespace, reserved_namespace, binding_of, bindings};
ghost use Rattle.cedar_convert_faults.specs.Gathering.{gathered_tree};

use crate::gathering::Gathered;
use crate::repeats::{Repeat, first_repeat};
use cedar_convert_errors::{
    DuplicateDeclarations, DuplicateNamespace, ReservedName, ToJsonSchemaError,
};
use cedar_data::{Dup, Items, Mem, Text};
use cedar_text::{Node, is_cedar};
use cedar_tree::{Annotated, Declaration, Path};
use std::alloc::Global;

/// What a declaration declares.
#[derive(Clone, Copy, Debug, PartialEq, Eq)]
pub enum Kind {
    /// Entity types.
    EntityType,
    /// Actions.
    Action,
    /// A common type.
    CommonType,
}

impl Dup for Kind {
    fn dup(&self, _alloc: Global) -> Mem<Kind> {
        Ok(*self)
    }
}

/// Puts the names of this kind that a declaration gives behind the others.
fn add_names(
    alloc: Global,
    kind: Kind,
    decl: &Declaration,
    names: &mut Items<Node<Text>>,
) -> Mem<()>
    ensures { OnOk result (names.new ≡ names.old ++ names_of kind (decl_tree decl.now)) }
{
    match (kind, decl) {
        (Kind::EntityType, Declaration::Entity(entity)) => {
            for name in entity.names() {
                let node = name.node.as_text().dup(alloc)?;
                let loc = name.loc.dup(alloc)?;
                names.push(Node { node, loc })?;
            }
            Ok(())
        }
        (Kind::Action, Declaration::Action(action)) => {
            for name in action.names.iter() {
                let name = name.dup(alloc)?;
                names.push(name)?;
            }
            Ok(())
        }
        (Kind::CommonType, Declaration::Common(common)) => {
            let node = common.name.node.as_text().dup(alloc)?;
            let loc = common.name.loc.dup(alloc)?;
            names.push(Node { node, loc })
        }
        _ => Ok(()),
    }
}

/// The names of this kind that declarations give, each at its place, in the order of the text.
pub fn names_in(
    alloc: Global,
    kind: Kind,
    decls: &Items<Annotated<Node<Declaration>>>,
) -> Mem<Items<Node<Text>>>
    ensures { IfOk result (λ names. names
        ≡ names_in (names_of kind) (map (annotated_tree (node_of decl_tree)) decls.now)) }
{
    let mut names = Items::new(alloc);
    for decl in decls.iter() {
        add_names(alloc, kind, &decl.item.node, &mut names)?;
    }
    Ok(names)
}

/// The first name of this kind that is declared twice, if one is.
fn repeated_name(
    alloc: Global,
    kind: Kind,
    decls: &Items<Annotated<Node<Declaration>>>,
) -> Mem<Option<ToJsonSchemaError>>
    ensures { IfOk result (λ fault. option_to_list fault
        ≡ repeated_name
        (names_in (names_of kind) (map (annotated_tree (node_of decl_tree)) decls.now))) }
{
    let names = names_in(alloc, kind, decls)?;
    match first_repeat(alloc, &names)? {
        None => Ok(None),
        Some(repeat) => {
            let Repeat {
                name,
                first,
                second,
            } = repeat;
            Ok(Some(ToJsonSchemaError::DuplicateDeclarations(DuplicateDeclarations {
                decl: name,
                loc1: first,
                loc2: second,
            })))
        }
    }
}

/// The full name of a namespace, where one of its components is `__cedar`.
fn reserved_namespace(alloc: Global, name: &Option<Path>) -> Mem<Option<ToJsonSchemaError>>
    ensures { IfOk result (λ fault. option_to_list fault
        ≡ reserved_namespace (option_map path_tree name.now)) }
{
    let Some(path) = name else {
        return Ok(None);
    };
    for id in path.iter() {
        if is_cedar(id.as_ref()) {
            let text = format!(in alloc; "{path}")?;
            let name = Text::new(alloc, &text)?;
            let loc = path.loc().dup(alloc)?;
            return Ok(Some(ToJsonSchemaError::ReservedName(ReservedName { name, loc })));
        }
    }
    Ok(None)
}

/// What is wrong with the names of a namespace, if anything is.
fn binding_of(alloc: Global, gathered: &Gathered) -> Mem<Option<ToJsonSchemaError>>
    ensures { IfOk result (λ fault. option_to_list fault
        ≡ binding_of (gathered_tree gathered.now)) }
{
    if let Some(fault) = reserved_namespace(alloc, &gathered.name)? {
        return Ok(Some(fault));
    }
    if let Some(fault) = repeated_name(alloc, Kind::EntityType, &gathered.decls)? {
        return Ok(Some(fault));
    }
    if let Some(fault) = repeated_name(alloc, Kind::Action, &gathered.decls)? {
        return Ok(Some(fault));
    }
    repeated_name(alloc, Kind::CommonType, &gathered.decls)
}

/// The first named namespace that stands again, if one does.
fn repeated_namespace(alloc: Global, all: &Items<Gathered>) -> Mem<Option<ToJsonSchemaError>>
    ensures { IfOk result (λ fault. option_to_list fault
        ≡ repeated_namespace (map gathered_tree all.now)) }
{
    let mut names = Items::new(alloc);
    for gathered in all.iter() {
        if let Some(path) = &gathered.name {
            let text = format!(in alloc; "{path}")?;
            let node = Text::new(alloc, &text)?;
            let loc = path.loc().dup(alloc)?;
            names.push(Node { node, loc })?;
        }
    }
    match first_repeat(alloc, &names)? {
        None => Ok(None),
        Some(repeat) => {
            let Repeat {
                name,
                first,
                second,
            } = repeat;
            Ok(Some(ToJsonSchemaError::DuplicateNamespaces(DuplicateNamespace {
                namespace_id: name,
                loc1: first,
                loc2: second,
            })))
        }
    }
}

/// What is wrong with the names of each namespace, or else the first named one that stands again.
pub(crate) fn binding_faults(alloc: Global, all: &Items<Gathered>) -> Mem<Vec<ToJsonSchemaError>>
    ensures { IfOk result (λ faults. faults.items ≡ bindings (map gathered_tree all.now)) }
{
    let mut faults = Vec::new(alloc);
    for gathered in all.iter() {
        if let Some(fault) = binding_of(alloc, gathered)? {
            faults.push(fault)?;
        }
    }
    if !faults.is_empty() {
        return Ok(faults);
    }
    if let Some(fault) = repeated_namespace(alloc, all)? {
        faults.push(fault)?;
    }
    Ok(faults)
}
