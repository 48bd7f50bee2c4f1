// SPDX-License-Identifier: Apache-2.0
ghost use Rattle.std.specs.Prelude.{◌≡◌, ◌≢◌, ◌<◌, codes, true, Bool, Some, None, IfOk, OnOk};
ghost use Rattle.std.specs.BTreeMap.{insert_entry};
ghost use Rattle.cedar_text.specs.Failures.{IfRefused};
ghost use Rattle.serde_json.specs.View.{view, members_view};
ghost use Rattle.cedar_json_types.specs.Faults.{first, in_text, any_text, no_flag, needs, allows, excess_of, members_fault, entry_fault};
ghost use Rattle.cedar_json_types.specs.Parts as parts;
ghost use Rattle.cedar_json_types.specs.Parts.{annotations_fault, reference_fault, AreAnnotations, IsName, NoAnnotations};
ghost use Rattle.serde_json.specs.Data.{string};
ghost use Rattle.serde_json.specs.Find.{get};
ghost use Rattle.cedar_json_fault.specs.declared.json_fault.NameKind.TheVariants as what;
ghost use Rattle.cedar_json_types.specs.Shapes.{At, MayHave, MapMembers, Entry, IsFlag, Lacks};
ghost use Rattle.cedar_json_types.specs.Types as types;
ghost use Rattle.cedar_json_types.specs.Types.{AttributeShape, AttributesShape, Head, Part, TypeShape, VariantShape, attribute_fault, attributes_fault, head_fault, not_named, not_plain, not_record, not_set, part_fault, type_fault};
ghost use Rattle.cedar_json_types.specs.declared.keyed.KeySet.TheVariants as set;
ghost use Rattle.cedar_json_types.specs.declared.words.TypeWord.TheVariants as says;
ghost use Rattle.cedar_json_fault.specs.declared.json_fault.JsonShape.TheVariants as shape;
ghost use Rattle.std.specs.Cmp.Lexicographic.{slice_cmp};
ghost use Rattle.std.specs.Ordering.{nat_cmp};

use crate::fields::unless_absent;
use crate::keyed::{
    KeySet, check_keys, get_leading, get_trailing, has_only, has_type_alone, refuse_key,
};
use crate::names::{read_id, read_reference, reference_of};
use crate::reading::ReadPart;
use crate::refusing::{missing, refuse, under, wrong_type};
use crate::words::{TypeWord, word_of};
use cedar_data::{Boxed, Map, Mem, Out, Text};
use cedar_json_fault::{JsonDeserializationError, JsonFault, JsonKind, JsonShape, NameKind};
use cedar_names::{Annotations, UnreservedId};
use cedar_written::{RawName, RecordType, SchemaType, TypeOfAttribute, TypeVariant};
use serde_json::{Map as Members, Value};
use std::alloc::Global;

/// The truth value at the key of an object; an absent one stands for the one that is given.
pub fn flag_at(
    alloc: Global,
    value: &Value,
    key: &str,
    absent: bool,
) -> Out<bool, JsonDeserializationError>
    ensures shape { IfOk result (λ b. MayHave key.now (λ b. b ≡ absent) IsFlag (view value.now) b) }
    ensures clean { IfOk result (λ _. allows key.now no_flag (view value.now) ≡ None) }
    ensures refused { IfRefused result (λ e. allows key.now no_flag (view value.now) ≡ Some e) }
{
    match value.get(key) {
        None => Ok(absent),
        Some(flag) => match flag.as_bool() {
            Some(flag) => Ok(flag),
            None => under(alloc, key, wrong_type(alloc, flag, JsonKind::Boolean)),
        },
    }
}

/// Refuses the first key of a type that is there and that a word with no key of its own does not take.
fn refuse_not_plain(alloc: Global, value: &Value) -> Out<(), JsonDeserializationError>
    ensures shape { IfOk result (λ _. Lacks not_plain (view value.now)) }
    ensures clean { IfOk result (λ _. excess_of shape.NoFields not_plain (view value.now) ≡ None) }
    ensures refused { IfRefused result (λ e. excess_of shape.NoFields not_plain (view value.now)
        ≡ Some e) }
{
    refuse_key(alloc, value, "element", JsonShape::NoFields)?;
    refuse_key(alloc, value, "attributes", JsonShape::NoFields)?;
    refuse_key(alloc, value, "additionalAttributes", JsonShape::NoFields)?;
    refuse_key(alloc, value, "name", JsonShape::NoFields)?;
    Ok(())
}

/// As `refuse_not_plain`. Mostly `type` is the only key.
fn check_plain(alloc: Global, value: &Value) -> Out<(), JsonDeserializationError>
    ensures shape { IfOk result (λ _. Lacks not_plain (view value.now)) }
    ensures clean { IfOk result (λ _. excess_of shape.NoFields not_plain (view value.now) ≡ None) }
    ensures refused { IfRefused result (λ e. excess_of shape.NoFields not_plain (view value.now)
        ≡ Some e) }
{
    if has_type_alone(value) {
        return Ok(());
    }
    refuse_not_plain(alloc, value)
}

/// Refuses the first key of a type that is there and that `Set` does not take.
fn refuse_not_set(alloc: Global, value: &Value) -> Out<(), JsonDeserializationError>
    ensures shape { IfOk result (λ _. Lacks not_set (view value.now)) }
    ensures clean { IfOk result (λ _. excess_of shape.SetType not_set (view value.now) ≡ None) }
    ensures refused { IfRefused result (λ e. excess_of shape.SetType not_set (view value.now)
        ≡ Some e) }
{
    refuse_key(alloc, value, "attributes", JsonShape::SetType)?;
    refuse_key(alloc, value, "additionalAttributes", JsonShape::SetType)?;
    refuse_key(alloc, value, "name", JsonShape::SetType)?;
    Ok(())
}

/// As `refuse_not_set`. Mostly `element` is the only other key.
fn check_set(alloc: Global, value: &Value) -> Out<(), JsonDeserializationError>
    ensures shape { IfOk result (λ _. Lacks not_set (view value.now)) }
    ensures clean { IfOk result (λ _. excess_of shape.SetType not_set (view value.now) ≡ None) }
    ensures refused { IfRefused result (λ e. excess_of shape.SetType not_set (view value.now)
        ≡ Some e) }
{
    if has_only(value, "element") {
        return Ok(());
    }
    refuse_not_set(alloc, value)
}

/// Refuses the first key of a type that is there and that `Record` does not take.
fn refuse_not_record(alloc: Global, value: &Value) -> Out<(), JsonDeserializationError>
    ensures shape { IfOk result (λ _. Lacks not_record (view value.now)) }
    ensures clean { IfOk result (λ _. excess_of shape.RecordType not_record (view value.now)
        ≡ None) }
    ensures refused { IfRefused result (λ e. excess_of shape.RecordType not_record (view value.now)
        ≡ Some e) }
{
    refuse_key(alloc, value, "element", JsonShape::RecordType)?;
    refuse_key(alloc, value, "name", JsonShape::RecordType)?;
    Ok(())
}

/// As `refuse_not_record`. Mostly `attributes` is the only other key.
fn check_record(alloc: Global, value: &Value) -> Out<(), JsonDeserializationError>
    ensures shape { IfOk result (λ _. Lacks not_record (view value.now)) }
    ensures clean { IfOk result (λ _. excess_of shape.RecordType not_record (view value.now)
        ≡ None) }
    ensures refused { IfRefused result (λ e. excess_of shape.RecordType not_record (view value.now)
        ≡ Some e) }
{
    if has_only(value, "attributes") {
        return Ok(());
    }
    refuse_not_record(alloc, value)
}

/// Refuses the first key of a type that is there and that the words with a name do not take.
fn refuse_not_named(alloc: Global, value: &Value) -> Out<(), JsonDeserializationError>
    ensures shape { IfOk result (λ _. Lacks not_named (view value.now)) }
    ensures clean { IfOk result (λ _. excess_of shape.NamedType not_named (view value.now) ≡ None) }
    ensures refused { IfRefused result (λ e. excess_of shape.NamedType not_named (view value.now)
        ≡ Some e) }
{
    refuse_key(alloc, value, "element", JsonShape::NamedType)?;
    refuse_key(alloc, value, "attributes", JsonShape::NamedType)?;
    refuse_key(alloc, value, "additionalAttributes", JsonShape::NamedType)?;
    Ok(())
}

/// As `refuse_not_named`. Mostly `name` is the only other key.
fn check_named(alloc: Global, value: &Value) -> Out<(), JsonDeserializationError>
    ensures shape { IfOk result (λ _. Lacks not_named (view value.now)) }
    ensures clean { IfOk result (λ _. excess_of shape.NamedType not_named (view value.now) ≡ None) }
    ensures refused { IfRefused result (λ e. excess_of shape.NamedType not_named (view value.now)
        ≡ Some e) }
{
    if has_only(value, "name") {
        return Ok(());
    }
    refuse_not_named(alloc, value)
}

/// The reference at the key `name`, of a type with no other key of its own.
fn name_at(alloc: Global, value: &Value, what: NameKind) -> Out<RawName, JsonDeserializationError>
    ensures shape { IfOk result (λ n. At (codes "name") IsName (view value.now) n) }
    ensures clean { IfOk result
        (λ _. needs (codes "name") (in_text (reference_fault what)) (view value.now) ≡ None) }
    ensures refused { IfRefused result
        (λ e. needs (codes "name") (in_text (reference_fault what)) (view value.now) ≡ Some e) }
{
    let Some(name) = get_leading(value, "name") else {
        return missing(alloc, "name");
    };
    under(alloc, "name", read_reference(alloc, name, what))
}

/// The identifier of an extension type at the key `name`.
fn extension_at(alloc: Global, value: &Value) -> Out<UnreservedId, JsonDeserializationError>
    ensures shape { IfOk result (λ id. At (codes "name") parts.IsId (view value.now) id) }
    ensures clean { IfOk result
        (λ _. needs (codes "name") (in_text (parts.id_fault what.ExtensionType)) (view value.now)
        ≡ None) }
    ensures refused { IfRefused result
        (λ e. needs (codes "name") (in_text (parts.id_fault what.ExtensionType)) (view value.now)
        ≡ Some e) }
{
    let Some(name) = get_leading(value, "name") else {
        return missing(alloc, "name");
    };
    under(alloc, "name", read_id(alloc, name, NameKind::ExtensionType))
}

/// The word of an object that has no key that types of its place don't have.
#[tactic(auto, using(crate::proofs::TypeLemmas::head_made))]
fn read_word<'a>(
    alloc: Global,
    value: &'a Value,
    set: KeySet,
) -> Out<&'a str, JsonDeserializationError>
    ensures shape { IfOk result (λ w. Head set (view value.now) w.now) }
    ensures clean { IfOk result (λ _. head_fault set (view value.now) ≡ None) }
    ensures refused { IfRefused result (λ e. head_fault set (view value.now) ≡ Some e) }
{
    check_keys(alloc, value, set)?;
    text_at(alloc, value)
}

/// The text at the key `type`.
fn text_at<'a>(alloc: Global, value: &'a Value) -> Out<&'a str, JsonDeserializationError>
    ensures shape { IfOk result (λ t. get (codes "type") (view value.now) ≡ Some (string t.now)) }
    ensures clean { IfOk result (λ _. needs (codes "type") (in_text any_text) (view value.now)
        ≡ None) }
    ensures refused { IfRefused result
        (λ e. needs (codes "type") (in_text any_text) (view value.now) ≡ Some e) }
{
    let Some(member) = get_trailing(value, "type") else {
        return missing(alloc, "type");
    };
    match member.as_str() {
        Some(text) => Ok(text),
        None => under(alloc, "type", wrong_type(alloc, member, JsonKind::String)),
    }
}

/// The type that the value has the shape of, where `left` sets and records may nest.
#[cycle(read)]
#[tactic(auto, using(crate::proofs::TypeLemmas::type_shapes))]
fn read_type(
    alloc: Global,
    value: &Value,
    set: KeySet,
    left: usize,
) -> Out<SchemaType<RawName>, JsonDeserializationError>
    ensures shape { IfOk result (λ t. TypeShape left set (view value.now) t) }
    ensures clean { IfOk result (λ _. type_fault left set (view value.now) ≡ None) }
    ensures refused { IfRefused result (λ e. type_fault left set (view value.now) ≡ Some e) }
{
    let text = read_word(alloc, value, set)?;
    let word = word_of(text);
    match word {
        TypeWord::Other => {
            check_plain(alloc, value)?;
            let type_name = under(
                alloc,
                "type",
                reference_of(alloc, text, NameKind::CommonType),
            )?;
            Ok(SchemaType::CommonTypeRef {
                type_name,
                loc: None,
            })
        }
        _ => {
            let ty = read_variant(alloc, value, word, left)?;
            Ok(SchemaType::Variant { ty, loc: None })
        }
    }
}

/// What kind of type the value has the shape of, whose word names no common type.
#[cycle(read)]
#[tactic(auto, using(crate::proofs::TypeLemmas::variant_shapes))]
fn read_variant(
    alloc: Global,
    value: &Value,
    word: TypeWord,
    left: usize,
) -> Out<TypeVariant<RawName>, JsonDeserializationError>
    requires { word ≢ says.Other }
    ensures shape { IfOk result (λ v. VariantShape left word (view value.now) v) }
    ensures clean { IfOk result (λ _. types.word_fault left (part_fault left) word (view value.now)
        ≡ None) }
    ensures refused { IfRefused result
        (λ e. types.word_fault left (part_fault left) word (view value.now) ≡ Some e) }
{
    match word {
        TypeWord::Set => read_set(alloc, value, left),
        TypeWord::Record => read_record(alloc, value, left),
        TypeWord::Entity => {
            check_named(alloc, value)?;
            let name = name_at(alloc, value, NameKind::EntityType)?;
            Ok(TypeVariant::Entity { name })
        }
        TypeWord::EntityOrCommon => {
            check_named(alloc, value)?;
            let type_name = name_at(alloc, value, NameKind::EntityOrCommonType)?;
            Ok(TypeVariant::EntityOrCommon { type_name })
        }
        TypeWord::Extension => {
            check_named(alloc, value)?;
            let name = extension_at(alloc, value)?;
            Ok(TypeVariant::Extension { name })
        }
        TypeWord::Long => {
            check_plain(alloc, value)?;
            Ok(TypeVariant::Long)
        }
        TypeWord::Boolean => {
            check_plain(alloc, value)?;
            Ok(TypeVariant::Boolean)
        }
        TypeWord::String => {
            check_plain(alloc, value)?;
            Ok(TypeVariant::String)
        }
        TypeWord::Other => unreachable!(),
    }
}

/// The type of sets that the value has the shape of.
#[cycle(read)]
#[tactic(auto, using(crate::proofs::TypeLemmas::variant_shapes))]
fn read_set(
    alloc: Global,
    value: &Value,
    left: usize,
) -> Out<TypeVariant<RawName>, JsonDeserializationError>
    ensures shape { IfOk result (λ v. VariantShape left says.Set (view value.now) v) }
    ensures clean { IfOk result
        (λ _. types.word_fault left (part_fault left) says.Set (view value.now) ≡ None) }
    ensures refused { IfRefused result
        (λ e. types.word_fault left (part_fault left) says.Set (view value.now) ≡ Some e) }
{
    if left == 0 {
        return refuse(alloc, JsonFault::TooDeep);
    }
    check_set(alloc, value)?;
    let element = read_element(alloc, value, left)?;
    let element = Boxed::new(alloc, element)?;
    Ok(TypeVariant::Set { element })
}

/// The type of records that the value has the shape of.
#[cycle(read)]
#[tactic(auto, using(crate::proofs::TypeLemmas::variant_shapes))]
fn read_record(
    alloc: Global,
    value: &Value,
    left: usize,
) -> Out<TypeVariant<RawName>, JsonDeserializationError>
    ensures shape { IfOk result (λ v. VariantShape left says.Record (view value.now) v) }
    ensures clean { IfOk result
        (λ _. types.word_fault left (part_fault left) says.Record (view value.now) ≡ None) }
    ensures refused { IfRefused result
        (λ e. types.word_fault left (part_fault left) says.Record (view value.now) ≡ Some e) }
{
    if left == 0 {
        return refuse(alloc, JsonFault::TooDeep);
    }
    check_record(alloc, value)?;
    let attributes = attributes_at(alloc, value, left)?;
    let additional_attributes = flag_at(alloc, value, "additionalAttributes", false)?;
    Ok(TypeVariant::Record(RecordType {
        attributes,
        additional_attributes,
    }))
}

/// A type within a set or record, where `left` may nest from that one on.
#[cycle(read)]
#[tactic(auto, using(crate::proofs::TypeLemmas::less))]
fn read_part(
    alloc: Global,
    value: &Value,
    set: KeySet,
    left: usize,
) -> Out<SchemaType<RawName>, JsonDeserializationError>
    requires { 0 < left }
    ensures shape { IfOk result (λ t. Part left set (view value.now) t) }
    ensures clean { IfOk result (λ _. part_fault left set (view value.now) ≡ None) }
    ensures refused { IfRefused result (λ e. part_fault left set (view value.now) ≡ Some e) }
{
    read_type(alloc, value, set, left - 1)
}

/// The element of a set, where `left` sets and records may nest, this one included.
#[cycle(read)]
fn read_element(
    alloc: Global,
    value: &Value,
    left: usize,
) -> Out<SchemaType<RawName>, JsonDeserializationError>
    requires { 0 < left }
    ensures shape { IfOk result
        (λ t. At (codes "element") (Part left set.Type) (view value.now) t) }
    ensures clean { IfOk result
        (λ _. needs (codes "element") (part_fault left set.Type) (view value.now) ≡ None) }
    ensures refused { IfRefused result
        (λ e. needs (codes "element") (part_fault left set.Type) (view value.now) ≡ Some e) }
{
    let Some(element) = get_leading(value, "element") else {
        return missing(alloc, "element");
    };
    under(
        alloc,
        "element",
        read_part(alloc, element, KeySet::Type, left),
    )
}

/// The attributes of a record, where `left` sets and records may nest, this one included.
#[cycle(read)]
fn attributes_at(
    alloc: Global,
    value: &Value,
    left: usize,
) -> Out<Map<Text, TypeOfAttribute<RawName>>, JsonDeserializationError>
    requires { 0 < left }
    ensures shape { IfOk result
        (λ es. At (codes "attributes") (AttributesShape (Part left set.Attribute))
        (view value.now) es) }
    ensures clean { IfOk result
        (λ _. needs (codes "attributes") (attributes_fault (part_fault left set.Attribute))
        (view value.now) ≡ None) }
    ensures refused { IfRefused result
        (λ e. needs (codes "attributes") (attributes_fault (part_fault left set.Attribute))
        (view value.now) ≡ Some e) }
{
    let Some(attributes) = get_leading(value, "attributes") else {
        return missing(alloc, "attributes");
    };
    under(
        alloc,
        "attributes",
        read_attributes(alloc, attributes, left),
    )
}

/// The attributes that the value has the shape of, where `left` sets and records may nest, the record included.
#[cycle(read)]
fn read_attributes(
    alloc: Global,
    value: &Value,
    left: usize,
) -> Out<Map<Text, TypeOfAttribute<RawName>>, JsonDeserializationError>
    requires { 0 < left }
    ensures shape { IfOk result
        (λ es. AttributesShape (Part left set.Attribute) (view value.now) es) }
    ensures clean { IfOk result
        (λ _. attributes_fault (part_fault left set.Attribute) (view value.now) ≡ None) }
    ensures refused { IfRefused result
        (λ e. attributes_fault (part_fault left set.Attribute) (view value.now) ≡ Some e) }
{
    let Some(members) = value.as_object() else {
        return wrong_type(alloc, value, JsonKind::Object);
    };
    read_members(alloc, members, left)
}

/// The attributes that the members are.
#[cycle(read)]
#[tactic(auto, using(crate::proofs::MemberLoops::reads_members))]
fn read_members(
    alloc: Global,
    members: &Members<String, Value>,
    left: usize,
) -> Out<Map<Text, TypeOfAttribute<RawName>>, JsonDeserializationError>
    requires { 0 < left }
    ensures shape { IfOk result
        (λ es. MapMembers (slice_cmp nat_cmp) (Entry (λ k t. t
        ≡ k) (AttributeShape (Part left set.Attribute))) (members_view members.now.entries) es) }
    ensures clean { IfOk result
        (λ _. members_fault (entry_fault any_text (attribute_fault (part_fault left set.Attribute)))
        (members_view members.now.entries) ≡ None) }
    ensures refused { IfRefused result
        (λ e. members_fault (entry_fault any_text (attribute_fault (part_fault left set.Attribute)))
        (members_view members.now.entries) ≡ Some e) }
{
    let mut attributes = Map::new(alloc);
    for (key, member) in members.iter() {
        let attribute = under(alloc, key.as_str(), read_attribute(alloc, member, left))?;
        put_at(alloc, key.as_str(), attribute, &mut attributes)?;
    }
    Ok(attributes)
}

/// Puts the value at the key.
fn put_at<V: Drop>(alloc: Global, key: &str, value: V, map: &mut Map<Text, V>) -> Mem<()>
    ensures { OnOk result (map.new ≡ insert_entry (slice_cmp nat_cmp) map.old key.now value) }
{
    let name = Text::new(alloc, key)?;
    map.put(name, value)
}

/// The type of an attribute, where `left` sets and records may nest from the type's own on.
#[cycle(read)]
#[tactic(auto, using(crate::proofs::TypeLemmas::attribute_put))]
fn read_attribute(
    alloc: Global,
    value: &Value,
    left: usize,
) -> Out<TypeOfAttribute<RawName>, JsonDeserializationError>
    requires { 0 < left }
    ensures shape { IfOk result (λ a. AttributeShape (Part left set.Attribute) (view value.now) a) }
    ensures clean { IfOk result
        (λ _. attribute_fault (part_fault left set.Attribute) (view value.now) ≡ None) }
    ensures refused { IfRefused result
        (λ e. attribute_fault (part_fault left set.Attribute) (view value.now) ≡ Some e) }
{
    let ty = read_part(alloc, value, KeySet::Attribute, left)?;
    let (ty, required, annotations) = noted(alloc, value, ty)?;
    Ok(TypeOfAttribute {
        ty,
        annotations,
        required,
    })
}

/// With what the members of an attribute beside its type say of it.
fn noted<T: Drop>(
    alloc: Global,
    value: &Value,
    ty: T,
) -> Out<(T, bool, Annotations), JsonDeserializationError>
    ensures ty { IfOk result (λ made. made.0 ≡ ty) }
    ensures required { IfOk result (λ made. MayHave (codes "required") (λ b. b
        ≡ true) IsFlag (view value.now) made.1) }
    ensures annotations { IfOk result
        (λ made. MayHave (codes "annotations") NoAnnotations AreAnnotations
        (view value.now) made.2) }
    ensures clean { IfOk result (λ _. first (allows (codes "required") no_flag (view value.now))
        (allows (codes "annotations") annotations_fault (view value.now)) ≡ None) }
    ensures refused { IfRefused result
        (λ e. first (allows (codes "required") no_flag (view value.now))
        (allows (codes "annotations") annotations_fault (view value.now)) ≡ Some e) }
{
    let required = flag_at(alloc, value, "required", true)?;
    let annotations: Annotations = unless_absent(alloc, value, "annotations")?;
    Ok((ty, required, annotations))
}

/// The type that the value has the shape of, at such a place.
pub fn read_outer_type(
    alloc: Global,
    value: &Value,
    set: KeySet,
) -> Out<SchemaType<RawName>, JsonDeserializationError>
    ensures shape { IfOk result (λ t. Part 129 set (view value.now) t) }
    ensures clean { IfOk result (λ _. part_fault 129 set (view value.now) ≡ None) }
    ensures refused { IfRefused result (λ e. part_fault 129 set (view value.now) ≡ Some e) }
{
    read_part(alloc, value, set, 129)
}

impl ReadPart for SchemaType<RawName> {
    ghost shapes = { Part 129 set.Type };

    ghost fault = { part_fault 129 set.Type };

    fn from_json_value(
        alloc: Global,
        json: &Value,
    ) -> Out<SchemaType<RawName>, JsonDeserializationError> {
        read_part(alloc, json, KeySet::Type, 129)
    }
}

impl ReadPart for TypeOfAttribute<RawName> {
    ghost shapes = { AttributeShape (Part 129 set.Attribute) };

    ghost fault = { attribute_fault (part_fault 129 set.Attribute) };

    fn from_json_value(
        alloc: Global,
        json: &Value,
    ) -> Out<TypeOfAttribute<RawName>, JsonDeserializationError> {
        read_attribute(alloc, json, 129)
    }
}
