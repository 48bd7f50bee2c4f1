// SPDX-License-Identifier: Apache-2.0
ghost use Rattle.std.specs.Prelude.{◌≡◌, ◌++◌, Some, codes};
ghost use Rattle.cedar_names.specs.Components.{components};
ghost use Rattle.cedar_names.specs.EntityUids.{uid_text};
ghost use Rattle.cedar_names.specs.Names.{name_words};
ghost use Rattle.cedar_names.specs.of_text.Joining.{joined};
ghost use Rattle.cedar_schema_error.specs.ErrorTexts.{error_text, no_record_text, quoting};
ghost use Rattle.std.specs.Fmt.{WritesOnOk};
ghost use Rattle.cedar_schema_error.specs.NameTexts.{deep_text, use_text};
ghost use Rattle.cedar_schema_error.specs.declared.type_errors.ContextOrShape.TheVariants.{ActionContext, EntityTypeShape};

use crate::kept_errors::{
    ActionAttrEvalError, ActionTransitiveClosureError, EntityTypeTransitiveClosureError,
    ExprEscapeUsedError, JsonSerializationError,
};
use crate::schema_error::SchemaError;
use crate::type_errors::{
    ActionAttributesContainEmptySetError, ActionEntityTypeDeclaredError,
    CommonTypeInvariantViolationError, ContextOrShape, ContextOrShapeNotRecordError, TooDeepError,
    UnknownExtensionTypeError, UnsupportedActionAttributeError, UnsupportedFeatureError,
};
use crate::use_place::{DeepPlace, UsePlace};
use cedar_names::{EntityType, EntityUID};
use std::error::Error;
use std::fmt;

impl fmt::Display for UsePlace {
    ghost output = { λ place. Some (use_text place) };

    fn fmt<W: fmt::Write>(&self, f: &mut fmt::Formatter<W>) -> fmt::Result {
        match self {
            UsePlace::Shape(ty) => ty.fmt(f),
            UsePlace::Tags(ty) => ty.fmt(f),
            UsePlace::Context(uid) => uid.fmt(f),
        }
    }
}

impl fmt::Display for DeepPlace {
    ghost output = { λ place. Some (deep_text place) };

    fn fmt<W: fmt::Write>(&self, f: &mut fmt::Formatter<W>) -> fmt::Result {
        match self {
            DeepPlace::Common(name) => name.fmt(f),
            DeepPlace::Place(place) => place.fmt(f),
        }
    }
}

impl fmt::Display for ContextOrShape {
    ghost output = { λ part. Some (no_record_text part) };

    fn fmt<W: fmt::Write>(&self, f: &mut fmt::Formatter<W>) -> fmt::Result {
        match self {
            ContextOrShape::ActionContext(uid) => write_no_record_context(uid, f),
            ContextOrShape::EntityTypeShape(ty) => write_no_record_shape(ty, f),
        }
    }
}

/// Writes that the context of an action is no record.
fn write_no_record_context<W: fmt::Write>(uid: &EntityUID, f: &mut fmt::Formatter<W>) -> fmt::Result
    ensures { WritesOnOk W.write_str_gives f.old result
        (no_record_text (ActionContext uid.now)) f.new }
{
    write!(
        f,
        "Context for action {uid} is declared with a type other than `Record`"
    )
}

/// Writes that the shape of an entity type is no record.
fn write_no_record_shape<W: fmt::Write>(ty: &EntityType, f: &mut fmt::Formatter<W>) -> fmt::Result
    ensures { WritesOnOk W.write_str_gives f.old result
        (no_record_text (EntityTypeShape ty.now)) f.new }
{
    write!(
        f,
        "Shape for entity type {ty} is declared with a type other than `Record`"
    )
}

impl fmt::Display for UnsupportedFeatureError {
    ghost output = { λ _. Some (codes "unsupported feature used in schema") };

    fn fmt<W: fmt::Write>(&self, f: &mut fmt::Formatter<W>) -> fmt::Result {
        write!(f, "unsupported feature used in schema")
    }
}

impl fmt::Display for ContextOrShapeNotRecordError {
    ghost output = { λ e. Some (no_record_text e.ctx_or_shape) };

    fn fmt<W: fmt::Write>(&self, f: &mut fmt::Formatter<W>) -> fmt::Result {
        self.ctx_or_shape.fmt(f)
    }
}

impl fmt::Display for ActionAttributesContainEmptySetError {
    ghost output = { λ e. Some (codes "action `" ++ uid_text e.uid
        ++ codes "` has an attribute that is an empty set") };

    fn fmt<W: fmt::Write>(&self, f: &mut fmt::Formatter<W>) -> fmt::Result {
        let uid = &self.uid;
        write!(f, "action `{uid}` has an attribute that is an empty set")
    }
}

impl fmt::Display for UnsupportedActionAttributeError {
    ghost output = { λ e. Some (codes "action `" ++ uid_text e.uid
        ++ codes "` has an attribute with unsupported JSON representation: " ++ e.attr) };

    fn fmt<W: fmt::Write>(&self, f: &mut fmt::Formatter<W>) -> fmt::Result {
        let uid = &self.uid;
        let attr = &self.attr;
        write!(
            f,
            "action `{uid}` has an attribute with unsupported JSON representation: {attr}"
        )
    }
}

impl fmt::Display for ActionEntityTypeDeclaredError {
    ghost output = { λ _. Some (codes "entity type `Action` declared in `entityTypes` list") };

    fn fmt<W: fmt::Write>(&self, f: &mut fmt::Formatter<W>) -> fmt::Result {
        write!(f, "entity type `Action` declared in `entityTypes` list")
    }
}

impl fmt::Display for UnknownExtensionTypeError {
    ghost output = { λ e. Some (quoting (codes "unknown extension type ")
        (joined (name_words e.actual))) };

    fn fmt<W: fmt::Write>(&self, f: &mut fmt::Formatter<W>) -> fmt::Result {
        let actual = &self.actual;
        write!(f, "unknown extension type `{actual}`")
    }
}

impl fmt::Display for CommonTypeInvariantViolationError {
    ghost output = { λ e. Some (
        codes "internal invariant violated: failed to find a common-type definition for "
        ++ joined (components e.name)) };

    fn fmt<W: fmt::Write>(&self, f: &mut fmt::Formatter<W>) -> fmt::Result {
        let name = &self.name;
        write!(
            f,
            "internal invariant violated: failed to find a common-type definition for {name}"
        )
    }
}

impl fmt::Display for TooDeepError {
    ghost output = { λ e. Some (codes "the type of `" ++ deep_text e.place
        ++ codes "` nests more than 128 sets and records") };

    fn fmt<W: fmt::Write>(&self, f: &mut fmt::Formatter<W>) -> fmt::Result {
        let place = &self.place;
        write!(
            f,
            "the type of `{place}` nests more than 128 sets and records"
        )
    }
}

impl fmt::Display for JsonSerializationError {
    ghost output = { λ e. Some (codes "JSON serialization error") };

    fn fmt<W: fmt::Write>(&self, f: &mut fmt::Formatter<W>) -> fmt::Result {
        write!(f, "JSON serialization error")
    }
}

impl fmt::Display for ExprEscapeUsedError {
    ghost output = { λ e. Some (codes "the `__expr` escape is no longer supported") };

    fn fmt<W: fmt::Write>(&self, f: &mut fmt::Formatter<W>) -> fmt::Result {
        write!(f, "the `__expr` escape is no longer supported")
    }
}

impl fmt::Display for ActionAttrEvalError {
    ghost output = { λ e. Some (codes "action attribute evaluation error") };

    fn fmt<W: fmt::Write>(&self, f: &mut fmt::Formatter<W>) -> fmt::Result {
        write!(f, "action attribute evaluation error")
    }
}

impl fmt::Display for ActionTransitiveClosureError {
    ghost output = { λ e. Some (
        codes "transitive closure computation/enforcement error on action hierarchy") };

    fn fmt<W: fmt::Write>(&self, f: &mut fmt::Formatter<W>) -> fmt::Result {
        write!(
            f,
            "transitive closure computation/enforcement error on action hierarchy"
        )
    }
}

impl fmt::Display for EntityTypeTransitiveClosureError {
    ghost output = { λ e. Some (
        codes "transitive closure computation/enforcement error on entity type hierarchy") };

    fn fmt<W: fmt::Write>(&self, f: &mut fmt::Formatter<W>) -> fmt::Result {
        write!(
            f,
            "transitive closure computation/enforcement error on entity type hierarchy"
        )
    }
}

impl fmt::Display for SchemaError {
    ghost output = { λ e. Some (error_text e) };

    fn fmt<W: fmt::Write>(&self, f: &mut fmt::Formatter<W>) -> fmt::Result {
        match self {
            SchemaError::JsonDeserialization(e) => e.fmt(f),
            SchemaError::JsonSerialization(e) => e.fmt(f),
            SchemaError::UnsupportedFeature(e) => e.fmt(f),
            SchemaError::UndeclaredEntityTypes(e) => e.fmt(f),
            SchemaError::TypeNotDefined(e) => e.fmt(f),
            SchemaError::ActionNotDefined(e) => e.fmt(f),
            SchemaError::TypeShadowing(e) => e.fmt(f),
            SchemaError::ActionShadowing(e) => e.fmt(f),
            SchemaError::DuplicateEntityType(e) => e.fmt(f),
            SchemaError::DuplicateCommonType(e) => e.fmt(f),
            SchemaError::DuplicateAction(e) => e.fmt(f),
            SchemaError::CycleInCommonTypeReferences(e) => e.fmt(f),
            SchemaError::CycleInActionHierarchy(e) => e.fmt(f),
            SchemaError::ActionEntityTypeDeclared(e) => e.fmt(f),
            SchemaError::ContextOrShapeNotRecord(e) => e.fmt(f),
            SchemaError::ActionAttributesContainEmptySet(e) => e.fmt(f),
            SchemaError::UnsupportedActionAttribute(e) => e.fmt(f),
            SchemaError::ActionAttrEval(e) => e.fmt(f),
            SchemaError::ExprEscapeUsed(e) => e.fmt(f),
            SchemaError::UnknownExtensionType(e) => e.fmt(f),
            SchemaError::CommonTypeInvariantViolation(e) => e.fmt(f),
            SchemaError::ActionInvariantViolation(e) => e.fmt(f),
            SchemaError::ActionTransitiveClosure(e) => e.fmt(f),
            SchemaError::EntityTypeTransitiveClosure(e) => e.fmt(f),
            SchemaError::ReservedName(e) => e.fmt(f),
            SchemaError::TooDeep(e) => e.fmt(f),
        }
    }
}

impl Error for SchemaError {}
