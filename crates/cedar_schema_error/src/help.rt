// SPDX-License-Identifier: Apache-2.0
ghost use Rattle.std.specs.Prelude.{◌≡◌, Some, IfOk};
ghost use Rattle.std.specs.Option.{option_copied, option_map};
ghost use Rattle.std.specs.String.{string_bytes};
ghost use Rattle.cedar_names.specs.Components.{components};
ghost use Rattle.cedar_names.specs.of_text.Joining.{joined};
ghost use Rattle.cedar_schema_error.specs.ErrorTexts.{alone_help, fixed_help, help_text, neither_help, no_record_help, undefined_help};
ghost use Rattle.cedar_schema_error.specs.NameTexts.{kind_text};

use crate::name_errors::TypeNotDefinedError;
use crate::schema_error::SchemaError;
use crate::shown::last_possibility;
use crate::type_errors::ContextOrShape;
use cedar_fragment::{ConditionalName, ReferenceType};
use cedar_names::{InternalName, Mem};
use std::alloc::Global;

impl SchemaError {
    /// What to do about the error, where there is something to say.
    pub fn help(&self, alloc: Global) -> Mem<Option<String>>
        ensures { IfOk result (λ help. option_map string_bytes help ≡ help_text self.now) }
    {
        match self {
            SchemaError::JsonDeserialization(e) => e.help(alloc),
            SchemaError::TypeNotDefined(e) => e.help(alloc),
            SchemaError::TypeShadowing(e) => {
                let name = &e.shadowed_def;
                Ok(Some(format!(in alloc;
                    "try renaming one of the definitions, or moving `{name}` to a different namespace"
                )?))
            }
            SchemaError::ActionShadowing(e) => {
                let uid = &e.shadowed_def;
                Ok(Some(format!(in alloc;
                    "try renaming one of the actions, or moving `{uid}` to a different namespace"
                )?))
            }
            _ => self.said_help(alloc),
        }
    }

    /// The help that does not depend on what the error keeps.
    fn said_help(&self, alloc: Global) -> Mem<Option<String>>
        ensures { IfOk result (λ help. option_map string_bytes help ≡ fixed_help self.now) }
    {
        match self.fixed_help() {
            Some(words) => Ok(Some(format!(in alloc; "{words}")?)),
            None => Ok(None),
        }
    }

    /// The words of the help that does not depend on what the error keeps.
    fn fixed_help(&self) -> Option<&'static str>
        ensures { option_copied result ≡ fixed_help self.now }
    {
        match self {
            SchemaError::ActionNotDefined(_) => {
                Some("any actions appearing as parents need to be declared as actions")
            }
            SchemaError::UndeclaredEntityTypes(_) => Some(
                "any entity types appearing anywhere in a schema need to be declared in `entityTypes`",
            ),
            SchemaError::ContextOrShapeNotRecord(e) => Some(e.ctx_or_shape.help()),
            SchemaError::ActionAttributesContainEmptySet(_) => Some(
                "actions are not currently allowed to have attributes whose value is an empty set",
            ),
            SchemaError::CommonTypeInvariantViolation(_) => Some(REPORT),
            SchemaError::ActionInvariantViolation(_) => Some(REPORT),
            SchemaError::ExprEscapeUsed(_) => Some(
                "to create an entity reference, use `__entity`; to create an extension value, use `__extn`; and for all other values, use JSON directly",
            ),
            _ => None,
        }
    }
}

/// What to do about an error that should never come.
const REPORT: &str =
    "please file an issue at <https://github.com/cedar-policy/cedar/issues> including the schema that caused this error";

impl ContextOrShape {
    /// What it has to be.
    fn help(&self) -> &'static str
        ensures { result.now ≡ no_record_help self.now }
    {
        match self {
            ContextOrShape::ActionContext(_) => "action contexts must have type `Record`",
            ContextOrShape::EntityTypeShape(_) => "entity type shapes must have type `Record`",
        }
    }
}

impl TypeNotDefinedError {
    /// What to do about the first of the references.
    pub fn help(&self, alloc: Global) -> Mem<Option<String>>
        ensures { IfOk result (λ help. option_map string_bytes help
            ≡ Some (undefined_help self.now.undefined_types.head)) }
    {
        let help = undefined_help(alloc, &self.undefined_types.head)?;
        Ok(Some(help))
    }
}

/// The help on a reference that means nothing.
fn undefined_help(alloc: Global, name: &ConditionalName) -> Mem<String>
    ensures { IfOk result (λ help. string_bytes help ≡ undefined_help name.now) }
{
    let kind = kind_words(name.reference_type());
    let mut names = name.possibilities();
    let Some(first) = names.next() else {
        unreachable!()
    };
    match names.next() {
        None => alone_help(alloc, first, kind),
        Some(_) => neither_help(alloc, first, last_possibility(name), kind),
    }
}

/// The help on a reference that may stand for one name alone.
fn alone_help(alloc: Global, name: &InternalName, kind: &str) -> Mem<String>
    ensures { IfOk result (λ help. string_bytes help
        ≡ alone_help (joined (components name.now)) kind.now) }
{
    Ok(format!(in alloc; "`{name}` has not been declared {kind}")?)
}

/// The help on a reference that may stand for several names.
fn neither_help(alloc: Global, first: &InternalName, last: &InternalName, kind: &str) -> Mem<String>
    ensures { IfOk result (λ help. string_bytes help
        ≡ neither_help (joined (components first.now)) (joined (components last.now)) kind.now) }
{
    Ok(format!(in alloc;
        "neither `{first}` nor `{last}` refers to anything that has been declared {kind}"
    )?)
}

/// As which kinds of types a reference could have been declared.
fn kind_words(kind: ReferenceType) -> &'static str
    ensures { result.now ≡ kind_text kind }
{
    match kind {
        ReferenceType::Common => "as a common type",
        ReferenceType::Entity => "as an entity type",
        ReferenceType::CommonOrEntity => "as a common or entity type",
    }
}
