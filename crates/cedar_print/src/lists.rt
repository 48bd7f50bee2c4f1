// SPDX-License-Identifier: Apache-2.0
ghost use Rattle.std.specs.Prelude.{◌++◌};
ghost use Rattle.std.specs.Fmt.{DisplaysOnOk};
ghost use Rattle.cedar_names.specs.Lists.{elements};
ghost use Rattle.cedar_print.specs.Annotations.{nameless};
ghost use Rattle.cedar_print.specs.Pieces.{bracketed, comma, following, named, quoted_alone, separated, text_of};

use crate::quoted::Quoted;
use cedar_names::{Items, NonEmpty, Text};
use std::fmt::{self, Display};

/// Writes the items in brackets, with `, ` between them.
pub fn write_list<T: fmt::Display, W: fmt::Write>(
    items: &Items<T>,
    f: &mut fmt::Formatter<W>,
) -> fmt::Result
    ensures { DisplaysOnOk W.write_str_gives f.old result
        (text_of T.output (bracketed named items.now)) f.new }
{
    f.write_str("[")?;
    write_separated(items.as_slice(), f)?;
    f.write_str("]")
}

/// Writes the items with `, ` between them.
fn write_separated<T: fmt::Display, W: fmt::Write>(
    items: &[T],
    f: &mut fmt::Formatter<W>,
) -> fmt::Result
    ensures { DisplaysOnOk W.write_str_gives f.old result
        (text_of T.output (separated comma named items.now)) f.new }
{
    let Some((first, others)) = items.split_first() else {
        return Ok(());
    };
    write_item(first, f)?;
    write_others(others, f)
}

/// Writes an item.
pub fn write_item<T: fmt::Display, W: fmt::Write>(
    first: &T,
    f: &mut fmt::Formatter<W>,
) -> fmt::Result
    ensures { DisplaysOnOk W.write_str_gives f.old result
        (text_of T.output (named first.now)) f.new }
{
    first.fmt(f)
}

/// Writes each item behind `, `.
#[tactic(auto, using(crate::proofs::Prints::prints))]
fn write_others<T: fmt::Display, W: fmt::Write>(
    others: &[T],
    f: &mut fmt::Formatter<W>,
) -> fmt::Result
    ensures { DisplaysOnOk W.write_str_gives f.old result
        (text_of T.output (following comma named others.now)) f.new }
{
    for other in others {
        write_other(other, f)?;
    }
    Ok(())
}

/// Writes an item behind `, `.
fn write_other<T: fmt::Display, W: fmt::Write>(other: &T, f: &mut fmt::Formatter<W>) -> fmt::Result
    ensures { DisplaysOnOk W.write_str_gives f.old result
        (text_of T.output (comma ++ named other.now)) f.new }
{
    write!(f, ", {other}")
}

/// Writes the texts, each quoted, in brackets, with `, ` between them.
pub fn write_quoted_list<W: fmt::Write>(
    texts: &NonEmpty<Text>,
    f: &mut fmt::Formatter<W>,
) -> fmt::Result
    ensures { DisplaysOnOk W.write_str_gives f.old result
        (text_of nameless (bracketed quoted_alone (elements texts.now))) f.new }
{
    f.write_str("[")?;
    write_quoted_texts(texts, f)?;
    f.write_str("]")
}

/// Writes the texts, each quoted, with `, ` between them.
fn write_quoted_texts<W: fmt::Write>(
    texts: &NonEmpty<Text>,
    f: &mut fmt::Formatter<W>,
) -> fmt::Result
    ensures { DisplaysOnOk W.write_str_gives f.old result
        (text_of nameless (separated comma quoted_alone (elements texts.now))) f.new }
{
    write_quoted(&texts.head, f)?;
    write_other_texts(texts.tail.as_slice(), f)
}

/// Writes each text, quoted, behind `, `.
#[tactic(auto, using(crate::proofs::Prints::prints))]
fn write_other_texts<W: fmt::Write>(texts: &[Text], f: &mut fmt::Formatter<W>) -> fmt::Result
    ensures { DisplaysOnOk W.write_str_gives f.old result
        (text_of nameless (following comma quoted_alone texts.now)) f.new }
{
    for text in texts {
        write_other_text(text, f)?;
    }
    Ok(())
}

/// Writes a text, quoted, behind `, `.
fn write_other_text<W: fmt::Write>(text: &Text, f: &mut fmt::Formatter<W>) -> fmt::Result
    ensures { DisplaysOnOk W.write_str_gives f.old result
        (text_of nameless (comma ++ quoted_alone text.now)) f.new }
{
    let text = Quoted(text);
    write!(f, ", {text}")
}

/// Writes a text, quoted.
fn write_quoted<W: fmt::Write>(text: &Text, f: &mut fmt::Formatter<W>) -> fmt::Result
    ensures { DisplaysOnOk W.write_str_gives f.old result
        (text_of nameless (quoted_alone text.now)) f.new }
{
    let text = Quoted(text);
    write!(f, "{text}")
}
