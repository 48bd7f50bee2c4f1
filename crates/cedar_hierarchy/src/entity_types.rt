// SPDX-License-Identifier: Apache-2.0
ghost use Rattle.std.specs.Prelude.{◌≡◌, [], map, IfOk};
ghost use Rattle.std.specs.List.{AllZip};
ghost use Rattle.cedar_closure.specs.Closure.{IsClosure};
ghost use Rattle.cedar_outlines.specs.of_declared.Held.{names_of};
ghost use Rattle.cedar_hierarchy.specs.Made.{MakesEntity, entity_attributes, entity_kind};
ghost use Rattle.cedar_hierarchy.specs.Nodes.{IsEntityNode};
ghost use Rattle.cedar_hierarchy.specs.Parents.{is_type_parent};
ghost use Rattle.cedar_hierarchy.specs.Uses.{record_at_use, type_at_use};
ghost use Rattle.cedar_names.specs.Names.{entity_cmp};
ghost use Rattle.cedar_resolved.specs.Kinds.{standard_kind};
ghost use Rattle.cedar_resolved.specs.Schemas.{type_attributes, type_name, type_with};
ghost use Rattle.cedar_schema_error.specs.declared.use_place.UsePlace.TheVariants.{Shape, Tags};
ghost use Rattle.cedar_outlines.specs.Outlines.{entity_outline_in};

use crate::children::{Children, children_of};
use crate::gathered::{HasParents, gather};
use crate::searches::Searches;
use crate::targets::all_meant;
use crate::uses::{Uses, copy_at, record_at};
use cedar_closure::close_map;
use cedar_data::{Dup, Failure, Map, Mem, Near, NoMemory, Set, Text};
use cedar_names::EntityType;
use cedar_outlines::{AllDefs, EntityOutline};
use cedar_resolved::ValidatorEntityType;
use cedar_schema_error::UsePlace;
use cedar_text::{Loc, NonEmpty};
use cedar_types::{Attributes, OpenTag, Type};
use std::alloc::Global;

impl HasParents<EntityType> for EntityOutline {
    ghost is_parent = { is_type_parent };

    fn parents(&self, alloc: Global, all_defs: &AllDefs) -> Mem<Set<EntityType>> {
        all_meant(alloc, all_defs, &self.parents)
    }
}

/// The attributes of the shape of an entity type, and whether it may have others.
fn shape_of(
    alloc: Global,
    name: &EntityType,
    uses: &Uses,
    near: &mut Near,
) -> Mem<(Attributes, OpenTag)>
    ensures { IfOk result (λ r. r ≡ record_at_use (type_at_use uses.now (Shape name.now))) }
{
    let place = UsePlace::Shape(name.dup(alloc)?);
    record_at(alloc, uses, near, &place)
}

/// The type of the tags of an entity type, if it has any.
fn tags_of(alloc: Global, name: &EntityType, uses: &Uses, near: &mut Near) -> Mem<Option<Type>>
    ensures { IfOk result (λ o. o ≡ type_at_use uses.now (Tags name.now)) }
{
    let place = UsePlace::Tags(name.dup(alloc)?);
    copy_at(alloc, uses, near, &place)
}

/// The entity type of this name with the attributes and tags of the uses, and with no descendants.
fn standard_type(
    alloc: Global,
    name: EntityType,
    loc: Option<Loc>,
    uses: &Uses,
    searches: &mut Searches,
) -> Mem<ValidatorEntityType>
    ensures name { IfOk result (λ ty. type_name ty ≡ name) }
    ensures attributes { IfOk result (λ ty. type_attributes ty
        ≡ (record_at_use (type_at_use uses.now (Shape name))).0) }
    ensures kind { IfOk result (λ ty. ty.kind
        ≡ standard_kind (record_at_use (type_at_use uses.now (Shape name))).1
        (type_at_use uses.now (Tags name))) }
    ensures loc { IfOk result (λ ty. ty.loc ≡ loc) }
{
    let tags = tags_of(alloc, &name, uses, &mut searches.tags)?;
    let (attributes, tag) = shape_of(alloc, &name, uses, &mut searches.shapes)?;
    ValidatorEntityType::new_standard(alloc, name, Vec::new(alloc), attributes, tag, tags, loc)
}

/// The entity type of this name that lists these entities, or has the attributes and tags of the uses; with no
/// descendants.
fn childless(
    alloc: Global,
    name: EntityType,
    choices: Option<NonEmpty<Text>>,
    loc: Option<Loc>,
    uses: &Uses,
    searches: &mut Searches,
) -> Mem<ValidatorEntityType>
    ensures name { IfOk result (λ ty. type_name ty ≡ name) }
    ensures attributes { IfOk result (λ ty. type_attributes ty
        ≡ entity_attributes uses.now name choices) }
    ensures kind { IfOk result (λ ty. ty.kind ≡ entity_kind uses.now name choices) }
    ensures loc { IfOk result (λ ty. ty.loc ≡ loc) }
{
    match choices {
        None => standard_type(alloc, name, loc, uses, searches),
        Some(ids) => ValidatorEntityType::new_enum(alloc, name, Vec::new(alloc), ids, loc),
    }
}

/// The entity type of an outline, under its name, with its children as descendants.
fn entity_node(
    alloc: Global,
    name: EntityType,
    outline: EntityOutline,
    children: &Children<EntityType>,
    uses: &Uses,
    searches: &mut Searches,
) -> Mem<(EntityType, ValidatorEntityType)>
    ensures { IfOk result (IsEntityNode children.now uses.now (name, outline)) }
{
    let EntityOutline {
        parents: _,
        choices,
        loc,
    } = outline;
    let descendants = children_of(alloc, &name, children, &mut searches.children)?;
    let key = name.dup(alloc)?;
    let mut ty = childless(alloc, name, choices, loc, uses, searches)?;
    ty.descendants = descendants;
    Ok((key, ty))
}

/// The entity types of outlines, each with its children as descendants.
fn entity_nodes(
    alloc: Global,
    outlines: Map<EntityType, EntityOutline>,
    children: &Children<EntityType>,
    uses: &Uses,
) -> Mem<Map<EntityType, ValidatorEntityType>>
    ensures { IfOk result (AllZip (IsEntityNode children.now uses.now) outlines) }
{
    let mut nodes = Map::with_room(alloc, outlines.len())?;
    let mut searches = Searches::none();
    for (name, outline) in outlines.into_entries() {
        let (key, ty) = entity_node(alloc, name, outline, children, uses, &mut searches)?;
        nodes.push_last(key, ty)?;
    }
    Ok(nodes)
}

/// The same entity types with all that descend from them.
fn close_entity_types(
    alloc: Global,
    nodes: Map<EntityType, ValidatorEntityType>,
) -> Mem<Map<EntityType, ValidatorEntityType>>
    ensures { IfOk result
        (IsClosure entity_cmp type_name (λ ty. ty.descendants) (type_with []) nodes) }
{
    match close_map(alloc, nodes, false) {
        Ok(closed) => Ok(closed),
        Err(Failure::Refused(_)) => unreachable!(),
        Err(Failure::NoMemory) => Err(NoMemory),
    }
}

/// The entity types of a resolved schema, each with all that descends from it: those of the outlines, with the types
/// that their shapes and tags unfold to. It fails only for want of memory.
pub fn resolved_entity_types(
    alloc: Global,
    all_defs: &AllDefs,
    outlines: Map<EntityType, EntityOutline>,
    uses: &Map<UsePlace, Type>,
) -> Mem<Map<EntityType, ValidatorEntityType>>
    ensures { IfOk result
        (AllZip (MakesEntity (names_of all_defs.now)
        (map entity_outline_in outlines) uses.now) outlines) }
{
    let children = gather(alloc, all_defs, &outlines)?;
    let nodes = entity_nodes(alloc, outlines, &children, uses)?;
    close_entity_types(alloc, nodes)
}
