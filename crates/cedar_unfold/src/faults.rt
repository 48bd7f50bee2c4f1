// SPDX-License-Identifier: Apache-2.0
ghost use Rattle.std.specs.Prelude.{◌≡◌, OnOk, Some};
ghost use Rattle.std.specs.Option.{option_or};
ghost use Rattle.cedar_names.specs.Components.{components};
ghost use Rattle.cedar_names.specs.Extensions.{extension_words};
ghost use Rattle.cedar_names.specs.Identifiers.{unreserved_word};
ghost use Rattle.cedar_schema_error.specs.Refusals.{OpenRecord, CommonTypeInvariantViolation};
ghost use Rattle.cedar_schema_error.specs.Told.{told};
ghost use Rattle.cedar_names.specs.of_text.Words.{has_word};
ghost use Rattle.cedar_unfolding.specs.Faults.{entity_fault, extension_fault, open_fault};
ghost use Rattle.cedar_unfold.specs.Following.{first_of};
ghost use Rattle.cedar_unfold.specs.KeptNames.{KeepsNone};
ghost use Rattle.cedar_unfold.specs.Notes.{told_fault, noted};

use cedar_data::{Dup, Mem};
use cedar_names::{Extensions, InternalName, Name, ReservedNameError, UnreservedId};
use cedar_schema_error::{
    CommonTypeInvariantViolationError, SchemaError, UnknownExtensionTypeError, UnsupportedFeature,
    UnsupportedFeatureError,
};
use std::alloc::Global;

/// A fault that stands in a written type itself.
#[derive(Drop)]
pub(crate) enum Fault {
    /// A record is open.
    OpenRecord,
    /// The name is that of no extension type.
    UnknownExtension(UnreservedId),
    /// The name stands for a common type that has no definition.
    NoCommonType(InternalName),
    /// The name means an entity type, and has the component `__cedar`.
    Reserved(InternalName),
}

impl Fault {
    /// The error that tells of it.
    pub(crate) fn into_error(self, alloc: Global) -> SchemaError
        ensures tells { told result ≡ told_fault self }
        ensures kept { KeepsNone result }
    {
        match self {
            Fault::OpenRecord => SchemaError::UnsupportedFeature(UnsupportedFeatureError {
                feature: UnsupportedFeature::OpenRecordsAndEntities,
            }),
            Fault::UnknownExtension(id) => {
                SchemaError::UnknownExtensionType(UnknownExtensionTypeError {
                    actual: Name::unqualified_name(alloc, id),
                })
            }
            Fault::NoCommonType(name) => {
                SchemaError::CommonTypeInvariantViolation(CommonTypeInvariantViolationError {
                    name,
                })
            }
            Fault::Reserved(name) => SchemaError::ReservedName(ReservedNameError { name }),
        }
    }
}

/// Keeps that a record is open, unless an earlier fault is kept.
pub(crate) fn note_record(is_open: bool, fault: &mut Option<Fault>)
    ensures { noted fault.new ≡ option_or (noted fault.old) (first_of (open_fault is_open)) }
{
    if is_open && fault.is_none() {
        *fault = Some(Fault::OpenRecord);
    }
}

/// Keeps that the extension type is unknown, if it is, unless an earlier fault is kept.
pub(crate) fn note_extension(
    alloc: Global,
    id: &UnreservedId,
    extensions: &Extensions,
    fault: &mut Option<Fault>,
) -> Mem<()>
    ensures { OnOk result (noted fault.new ≡ option_or (noted fault.old)
        (first_of
        (extension_fault (has_word (extension_words extensions.now) (unreserved_word id.now))
        (unreserved_word id.now)))) }
{
    if fault.is_none() && !extensions.contains(id.as_ref()) {
        *fault = Some(Fault::UnknownExtension(id.dup(alloc)?));
    }
    Ok(())
}

/// Keeps that the name of an entity type is reserved, if it is, unless an earlier fault is kept.
pub(crate) fn note_entity(alloc: Global, name: &InternalName, fault: &mut Option<Fault>) -> Mem<()>
    ensures { OnOk result (noted fault.new ≡ option_or (noted fault.old)
        (first_of (entity_fault (components name.now)))) }
{
    if fault.is_none() && name.is_reserved() {
        *fault = Some(Fault::Reserved(name.dup(alloc)?));
    }
    Ok(())
}

/// Keeps that the name is that of no common type, unless an earlier fault is kept.
pub(crate) fn note_no_common(
    alloc: Global,
    name: &InternalName,
    fault: &mut Option<Fault>,
) -> Mem<()>
    ensures { OnOk result (noted fault.new ≡ option_or (noted fault.old)
        (Some (CommonTypeInvariantViolation (components name.now)))) }
{
    if fault.is_none() {
        *fault = Some(Fault::NoCommonType(name.dup(alloc)?));
    }
    Ok(())
}
