// SPDX-License-Identifier: Apache-2.0
ghost use Rattle.std.specs.Fmt.{DisplaysOnOk};
ghost use Rattle.cedar_print.specs.Annotations.{nameless};
ghost use Rattle.cedar_print.specs.Pieces.{named, text_of};
ghost use Rattle.cedar_fragment.specs.Printed.{parents_printed, print_applies, print_apply_clause, print_choices, print_context, print_entity, print_filled, print_kind, print_parents, print_shape, print_shape_clause, print_standard, print_tags, shape_printed, tags_printed};

use crate::attributes_or_context::AttributesOrContext;
use crate::definitions::{ApplySpec, EntityType, EntityTypeKind, StandardEntityType};
use cedar_json_fault::{SchemaType, write_list, write_quoted_list};
use cedar_types::{Items, NonEmpty, Text};
use std::fmt::{self, Display};

/// As its type.
impl<N: fmt::Display> fmt::Display for AttributesOrContext<N> {
    ghost output = { λ shape. text_of N.output (print_shape shape) };

    fn fmt<W: fmt::Write>(&self, f: &mut fmt::Formatter<W>) -> fmt::Result {
        self.0.fmt(f)
    }
}

/// What stands behind its name, before the semicolon.
impl<N: fmt::Display> fmt::Display for EntityType<N> {
    ghost output = { λ entity. text_of N.output (print_entity entity) };

    fn fmt<W: fmt::Write>(&self, f: &mut fmt::Formatter<W>) -> fmt::Result {
        self.kind.fmt(f)
    }
}

impl<N: fmt::Display> fmt::Display for EntityTypeKind<N> {
    ghost output = { λ kind. text_of N.output (print_kind kind) };

    fn fmt<W: fmt::Write>(&self, f: &mut fmt::Formatter<W>) -> fmt::Result {
        match self {
            EntityTypeKind::Standard(entity) => entity.fmt(f),
            EntityTypeKind::Enum { choices } => write_choices(choices, f),
        }
    }
}

impl<N: fmt::Display> fmt::Display for StandardEntityType<N> {
    ghost output = { λ entity. text_of N.output (print_standard entity) };

    fn fmt<W: fmt::Write>(&self, f: &mut fmt::Formatter<W>) -> fmt::Result {
        write_parents(&self.member_of_types, f)?;
        write_shape_clause(&self.shape, f)?;
        write_tags(&self.tags, f)
    }
}

/// Writes the ids of the entities of an enumerated type.
fn write_choices<W: fmt::Write>(choices: &NonEmpty<Text>, f: &mut fmt::Formatter<W>) -> fmt::Result
    ensures { DisplaysOnOk W.write_str_gives f.old result
        (text_of nameless (print_choices choices.now)) f.new }
{
    f.write_str(" enum ")?;
    write_quoted_list(choices, f)
}

/// Writes of what it is a member, where it is of something.
pub(crate) fn write_parents<T: fmt::Display, W: fmt::Write>(
    parents: &Items<T>,
    f: &mut fmt::Formatter<W>,
) -> fmt::Result
    ensures { DisplaysOnOk W.write_str_gives f.old result
        (text_of T.output (print_parents named parents.now)) f.new }
{
    if parents.is_empty() {
        return Ok(());
    }
    write_given_parents(parents, f)
}

/// Writes these parents.
fn write_given_parents<T: fmt::Display, W: fmt::Write>(
    parents: &Items<T>,
    f: &mut fmt::Formatter<W>,
) -> fmt::Result
    ensures { DisplaysOnOk W.write_str_gives f.old result
        (text_of T.output (parents_printed named parents.now)) f.new }
{
    f.write_str(" in ")?;
    write_list(parents, f)
}

/// Writes the shape, unless it is the empty record.
fn write_shape_clause<N: fmt::Display, W: fmt::Write>(
    shape: &AttributesOrContext<N>,
    f: &mut fmt::Formatter<W>,
) -> fmt::Result
    ensures { DisplaysOnOk W.write_str_gives f.old result
        (text_of N.output (print_shape_clause shape.now)) f.new }
{
    if shape.is_empty_record() {
        return Ok(());
    }
    write_shape(shape, f)
}

/// Writes this shape.
fn write_shape<N: fmt::Display, W: fmt::Write>(
    shape: &AttributesOrContext<N>,
    f: &mut fmt::Formatter<W>,
) -> fmt::Result
    ensures { DisplaysOnOk W.write_str_gives f.old result
        (text_of N.output (shape_printed shape.now)) f.new }
{
    f.write_str(" = ")?;
    shape.fmt(f)
}

/// Writes the type of the tags, where there are tags.
fn write_tags<N: fmt::Display, W: fmt::Write>(
    tags: &Option<SchemaType<N>>,
    f: &mut fmt::Formatter<W>,
) -> fmt::Result
    ensures { DisplaysOnOk W.write_str_gives f.old result
        (text_of N.output (print_tags tags.now)) f.new }
{
    match tags {
        None => Ok(()),
        Some(ty) => write_tag_type(ty, f),
    }
}

/// Writes the type of the tags.
fn write_tag_type<N: fmt::Display, W: fmt::Write>(
    ty: &SchemaType<N>,
    f: &mut fmt::Formatter<W>,
) -> fmt::Result
    ensures { DisplaysOnOk W.write_str_gives f.old result
        (text_of N.output (tags_printed ty.now)) f.new }
{
    f.write_str(" tags ")?;
    ty.fmt(f)
}

/// Writes what an action applies to, where it says so and neither list is empty.
pub(crate) fn write_apply_clause<N: fmt::Display, W: fmt::Write>(
    applies_to: &Option<ApplySpec<N>>,
    f: &mut fmt::Formatter<W>,
) -> fmt::Result
    ensures { DisplaysOnOk W.write_str_gives f.old result
        (text_of N.output (print_apply_clause applies_to.now)) f.new }
{
    match applies_to {
        None => Ok(()),
        Some(spec) => write_filled(spec, f),
    }
}

/// Writes what an action applies to, where neither list is empty.
fn write_filled<N: fmt::Display, W: fmt::Write>(
    spec: &ApplySpec<N>,
    f: &mut fmt::Formatter<W>,
) -> fmt::Result
    ensures { DisplaysOnOk W.write_str_gives f.old result
        (text_of N.output (print_filled spec.now)) f.new }
{
    if spec.principal_types.is_empty() || spec.resource_types.is_empty() {
        return Ok(());
    }
    write_applies(spec, f)
}

/// Writes what an action applies to.
fn write_applies<N: fmt::Display, W: fmt::Write>(
    spec: &ApplySpec<N>,
    f: &mut fmt::Formatter<W>,
) -> fmt::Result
    ensures { DisplaysOnOk W.write_str_gives f.old result
        (text_of N.output (print_applies spec.now)) f.new }
{
    f.write_str(" appliesTo {\n  principal: ")?;
    write_list(&spec.principal_types, f)?;
    f.write_str(",\n  resource: ")?;
    write_list(&spec.resource_types, f)?;
    write_context(&spec.context, f)
}

/// Writes the last line of what an action applies to.
fn write_context<N: fmt::Display, W: fmt::Write>(
    context: &AttributesOrContext<N>,
    f: &mut fmt::Formatter<W>,
) -> fmt::Result
    ensures { DisplaysOnOk W.write_str_gives f.old result
        (text_of N.output (print_context context.now)) f.new }
{
    f.write_str(",\n  context: ")?;
    context.fmt(f)?;
    f.write_str("\n}")
}
