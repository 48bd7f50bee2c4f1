// SPDX-License-Identifier: Apache-2.0
ghost use Rattle.std.specs.Prelude.{flat_map};
ghost use Rattle.cedar_convert_warnings.specs.Texts.{shadows_builtin_text, shadows_entity_text, warning_text};
ghost use Rattle.cedar_listing.specs.Listing.{warning_line};
ghost use Rattle.cedar_streams.specs.Writes.{Writes};

use cedar_convert_warnings::SchemaWarning;
use cedar_streams::{Sink, SinkFailed, write_str};

/// Writes the lines of warnings.
pub(crate) fn write_warnings<K: Sink>(
    warnings: &[SchemaWarning],
    out: &mut K,
) -> Result<(), SinkFailed>
    ensures { Writes K.written K.faults out.old out.new
        (flat_map warning_line warnings.now) result }
{
    for warning in warnings {
        write_warning(warning, out)?;
    }
    Ok(())
}

/// Writes the line of a warning.
#[tactic(auto, using(cedar_streams::proofs::InOrder::in_order))]
fn write_warning<K: Sink>(warning: &SchemaWarning, out: &mut K) -> Result<(), SinkFailed>
    ensures { Writes K.written K.faults out.old out.new (warning_line warning.now) result }
{
    write_str(out, "warning ")?;
    write_warning_text(warning, out)?;
    write_str(out, "\n")
}

/// Writes what a warning prints, piece by piece: what its `Display` has written where a sink fails isn't told.
fn write_warning_text<K: Sink>(warning: &SchemaWarning, out: &mut K) -> Result<(), SinkFailed>
    ensures { Writes K.written K.faults out.old out.new (warning_text warning.now) result }
{
    match warning {
        SchemaWarning::ShadowsBuiltin(warning) => write_shadows_builtin(warning.name.as_str(), out),
        SchemaWarning::ShadowsEntity(warning) => write_shadows_entity(warning.name.as_str(), out),
    }
}

/// Writes that a builtin type has this name.
fn write_shadows_builtin<K: Sink>(name: &str, out: &mut K) -> Result<(), SinkFailed>
    ensures { Writes K.written K.faults out.old out.new (shadows_builtin_text name.now) result }
{
    write_str(out, "The name `")?;
    write_str(out, name)?;
    write_str(
        out,
        "` shadows a builtin Cedar name. You'll have to refer to the builtin as `__cedar::",
    )?;
    write_str(out, name)?;
    write_str(out, "`.")
}

/// Writes that an entity type has this name.
fn write_shadows_entity<K: Sink>(name: &str, out: &mut K) -> Result<(), SinkFailed>
    ensures { Writes K.written K.faults out.old out.new (shadows_entity_text name.now) result }
{
    write_str(out, "The common type name ")?;
    write_str(out, name)?;
    write_str(out, " shadows an entity name")
}
