// SPDX-License-Identifier: Apache-2.0
ghost use Rattle.std.specs.Fmt.{DisplaysOnOk};
ghost use Rattle.cedar_print.specs.of_data.Maps.{map_values};
ghost use Rattle.cedar_print.specs.Annotations.{nameless};
ghost use Rattle.cedar_print.specs.Pieces.{separated, text_of, unless_first};
ghost use Rattle.cedar_written.specs.Printed.{name_printed, next_line, print_attribute, print_record, print_type, print_variant, set_end, set_head, set_printed, with_name};

use crate::ty::{RecordType, SchemaType, TypeOfAttribute, TypeVariant};
use cedar_print::{Map, Quoted, Text, write_annotations, write_item};
use std::fmt::{self, Display};

/// As the human syntax writes it, with each name as it is displayed.
impl<N: fmt::Display> fmt::Display for SchemaType<N> {
    ghost output = { λ ty. text_of N.output (print_type ty) };

    #[cycle(show)]
    fn fmt<W: fmt::Write>(&self, f: &mut fmt::Formatter<W>) -> fmt::Result {
        match self {
            SchemaType::Variant { ty, loc: _ } => ty.fmt(f),
            SchemaType::CommonTypeRef { type_name, loc: _ } => write_item(type_name, f),
        }
    }
}

impl<N: fmt::Display> fmt::Display for TypeVariant<N> {
    ghost output = { λ ty. text_of N.output (print_variant ty) };

    #[cycle(show)]
    fn fmt<W: fmt::Write>(&self, f: &mut fmt::Formatter<W>) -> fmt::Result {
        match self {
            TypeVariant::String => f.write_str("__cedar::String"),
            TypeVariant::Long => f.write_str("__cedar::Long"),
            TypeVariant::Boolean => f.write_str("__cedar::Bool"),
            TypeVariant::Set { element } => write_set(element.get(), f),
            TypeVariant::Record(fields) => fields.fmt(f),
            TypeVariant::Entity { name } => write_item(name, f),
            TypeVariant::EntityOrCommon { type_name } => write_item(type_name, f),
            TypeVariant::Extension { name } => write!(f, "__cedar::{name}"),
        }
    }
}

impl<N: fmt::Display> fmt::Display for RecordType<N> {
    ghost output = { λ fields. text_of N.output (print_record fields) };

    #[cycle(show)]
    fn fmt<W: fmt::Write>(&self, f: &mut fmt::Formatter<W>) -> fmt::Result {
        write_record(self, f)
    }
}

/// Writes the type of sets of these elements.
#[cycle(show)]
fn write_set<N: fmt::Display, W: fmt::Write>(
    element: &SchemaType<N>,
    f: &mut fmt::Formatter<W>,
) -> fmt::Result
    ensures { DisplaysOnOk W.write_str_gives f.old result
        (text_of N.output (set_printed (print_type element.now))) f.new }
{
    write_set_head(f)?;
    element.fmt(f)?;
    write_set_end(f)
}

/// Writes what stands before the type of the elements of a set.
fn write_set_head<W: fmt::Write>(f: &mut fmt::Formatter<W>) -> fmt::Result
    ensures { DisplaysOnOk W.write_str_gives f.old result (text_of nameless set_head) f.new }
{
    f.write_str("Set < ")
}

/// Writes what stands behind it.
fn write_set_end<W: fmt::Write>(f: &mut fmt::Formatter<W>) -> fmt::Result
    ensures { DisplaysOnOk W.write_str_gives f.old result (text_of nameless set_end) f.new }
{
    f.write_str(" >")
}

/// Writes the record type: its attributes in braces.
#[cycle(show)]
fn write_record<N: fmt::Display, W: fmt::Write>(
    fields: &RecordType<N>,
    f: &mut fmt::Formatter<W>,
) -> fmt::Result
    ensures { DisplaysOnOk W.write_str_gives f.old result
        (text_of N.output (print_record fields.now)) f.new }
{
    f.write_str("{")?;
    write_attributes(&fields.attributes, f)?;
    f.write_str("}")
}

/// Writes the attributes, with a comma and the end of a line between them.
#[cycle(show)]
#[tactic(auto, using(cedar_print::proofs::Prints::prints))]
fn write_attributes<N: fmt::Display, W: fmt::Write>(
    attributes: &Map<Text, TypeOfAttribute<N>>,
    f: &mut fmt::Formatter<W>,
) -> fmt::Result
    ensures { DisplaysOnOk W.write_str_gives f.old result
        (text_of N.output
        (separated next_line with_name (map_values print_attribute attributes.now))) f.new }
{
    let mut is_first = true;
    for (name, attribute) in attributes.iter() {
        write_separator(is_first, f)?;
        write_attribute(name, attribute, f)?;
        is_first = false;
    }
    Ok(())
}

/// Writes what stands between attributes, unless none is written yet.
fn write_separator<W: fmt::Write>(is_first: bool, f: &mut fmt::Formatter<W>) -> fmt::Result
    ensures { DisplaysOnOk W.write_str_gives f.old result
        (text_of nameless (unless_first is_first next_line)) f.new }
{
    if is_first {
        return Ok(());
    }
    f.write_str(", \n")
}

/// Writes an attribute with its name: its annotations, its name, whether it is optional, its type.
#[cycle(show)]
fn write_attribute<N: fmt::Display, W: fmt::Write>(
    name: &Text,
    attribute: &TypeOfAttribute<N>,
    f: &mut fmt::Formatter<W>,
) -> fmt::Result
    ensures { DisplaysOnOk W.write_str_gives f.old result
        (text_of N.output (print_attribute attribute.now name.now)) f.new }
{
    write_annotations(&attribute.annotations, f)?;
    write_attribute_name(name, attribute.required, f)?;
    attribute.ty.fmt(f)
}

/// Writes the quoted name of an attribute, `?` where it is optional, and a colon.
fn write_attribute_name<W: fmt::Write>(
    name: &Text,
    required: bool,
    f: &mut fmt::Formatter<W>,
) -> fmt::Result
    ensures { DisplaysOnOk W.write_str_gives f.old result
        (text_of nameless (name_printed name.now required)) f.new }
{
    let name = Quoted(name);
    if required {
        write!(f, "{name}: ")
    } else {
        write!(f, "{name}?: ")
    }
}
