// SPDX-License-Identifier: Apache-2.0
ghost use Rattle.std.specs.Prelude.{◌≡◌, ◌++◌, ◌∷◌, [], map, IfOk, Ok, OnOk};
ghost use Rattle.cedar_names.specs.Identifiers.{id_word, unreserved_word};
ghost use Rattle.cedar_text.specs.Lists.{elements};
ghost use Rattle.cedar_tree.specs.Meanings.{listed, node_of, path_tree};
ghost use Rattle.cedar_convert_faults.specs.Repeats.{words_of};
ghost use Rattle.cedar_convert_fragment.specs.Declares.{free_name, free_names, name_of};
ghost use Rattle.cedar_convert_fragment.specs.Views.{name_at};

use cedar_convert_fragment::raw_name_from_path;
use cedar_data::{Dup, Items, Mem, Text};
use cedar_fragment::RawName;
use cedar_names::{Id, UnreservedId};
use cedar_text::{Node, NonEmpty};
use cedar_tree::Path;
use std::alloc::Global;

/// Both of what was made, where neither failed for want of memory.
pub(crate) fn both<A: Drop, B: Drop>(one: Mem<A>, other: Mem<B>) -> Mem<(A, B)>
    ensures one { IfOk result (λ made. one ≡ Ok made.0) }
    ensures other { IfOk result (λ made. other ≡ Ok made.1) }
{
    let one = one?;
    let other = other?;
    Ok((one, other))
}

/// All three of what was made, where none failed for want of memory.
pub(crate) fn all_three<A: Drop, B: Drop, C: Drop>(
    one: Mem<A>,
    other: Mem<B>,
    third: Mem<C>,
) -> Mem<(A, B, C)>
    ensures one { IfOk result (λ made. one ≡ Ok made.0) }
    ensures other { IfOk result (λ made. other ≡ Ok made.1) }
    ensures third { IfOk result (λ made. third ≡ Ok made.2) }
{
    let one = one?;
    let other = other?;
    let third = third?;
    Ok((one, other, third))
}

/// Puts each of these keys with the value behind the others. The last key takes the value itself, each other a copy.
#[tactic(auto, using(crate::proofs::PutEach::putting))]
pub(crate) fn put_all<K: Drop, V: Dup + Drop>(
    alloc: Global,
    mut keys: Vec<K>,
    value: V,
    made: &mut Vec<(K, V)>,
) -> Mem<()>
    ensures { OnOk result (made.new.items ≡ made.old.items
        ++ map (λ key. (key, value)) keys.items) }
{
    let Some(last) = keys.pop() else {
        return Ok(());
    };
    for key in keys {
        let copy = value.dup(alloc)?;
        made.push((key, copy))?;
    }
    made.push((last, value))?;
    Ok(())
}

/// The same of keys of which there is one at least, and mostly one alone.
#[tactic(auto, using(crate::proofs::PutEach::putting))]
pub(crate) fn put_each<K: Drop, V: Dup + Drop>(
    alloc: Global,
    keys: NonEmpty<K>,
    value: V,
    made: &mut Vec<(K, V)>,
) -> Mem<()>
    ensures { OnOk result (made.new.items ≡ made.old.items
        ++ map (λ key. (key, value)) (elements keys)) }
{
    let NonEmpty { head, tail } = keys;
    if tail.is_empty() {
        made.push((head, value))?;
        return Ok(());
    }
    let mut all = tail.into_vec();
    all.insert(0, head)?;
    put_all(alloc, all, value, made)
}

/// Puts the name behind the others, unless it is `__cedar`.
#[tactic(auto, using(crate::proofs::Adding::ids))]
fn add_unreserved(alloc: Global, name: Node<Id>, ids: &mut Vec<UnreservedId>) -> Mem<()>
    ensures { OnOk result (map unreserved_word ids.new.items
        ≡ map unreserved_word ids.old.items ++ free_name (node_of id_word name)) }
{
    let Ok(id) = UnreservedId::try_from_id(alloc, name.node) else {
        return Ok(());
    };
    ids.push(id)?;
    Ok(())
}

/// The names but for those that are `__cedar`, in order.
pub(crate) fn unreserved_ids(alloc: Global, names: NonEmpty<Node<Id>>) -> Mem<Vec<UnreservedId>>
    ensures { IfOk result (λ ids. map unreserved_word ids.items
        ≡ free_names (map (node_of id_word) (elements names))) }
{
    let NonEmpty { head, tail } = names;
    let mut ids = Vec::new(alloc);
    add_unreserved(alloc, head, &mut ids)?;
    for name in tail.into_vec() {
        add_unreserved(alloc, name, &mut ids)?;
    }
    Ok(ids)
}

/// The texts without their places, in order, however many.
fn text_items(alloc: Global, nodes: Items<Node<Text>>) -> Mem<Items<Text>>
    ensures { IfOk result (λ texts. texts ≡ words_of (map (node_of (λ text. text)) nodes)) }
{
    let mut texts = Items::new(alloc);
    for text in nodes.into_vec() {
        texts.push(text.node)?;
    }
    Ok(texts)
}

/// The texts of a list that isn't empty, without their places, in order.
pub(crate) fn some_texts(alloc: Global, nodes: NonEmpty<Node<Text>>) -> Mem<NonEmpty<Text>>
    ensures { IfOk result (λ texts. elements texts
        ≡ words_of (map (node_of (λ text. text)) (elements nodes))) }
{
    let NonEmpty { head, tail } = nodes;
    let tail = text_items(alloc, tail)?;
    Ok(NonEmpty {
        head: head.node,
        tail,
    })
}

/// The names that paths are, in order.
pub(crate) fn raw_names(alloc: Global, paths: Items<Path>) -> Mem<Items<RawName>>
    ensures { IfOk result (λ names. map name_at names ≡ map name_of (map path_tree paths)) }
{
    let mut names = Items::new(alloc);
    for path in paths.into_vec() {
        names.push(raw_name_from_path(path))?;
    }
    Ok(names)
}

/// Puts the names that paths are behind the others.
pub(crate) fn add_raw_names(
    alloc: Global,
    paths: Option<NonEmpty<Path>>,
    names: &mut Items<RawName>,
) -> Mem<()>
    ensures { OnOk result (map name_at names.new
        ≡ map name_at names.old ++ map name_of (map path_tree (listed paths))) }
{
    let Some(NonEmpty { head, tail }) = paths else {
        return Ok(());
    };
    names.push(raw_name_from_path(head))?;
    for path in tail.into_vec() {
        names.push(raw_name_from_path(path))?;
    }
    Ok(())
}
