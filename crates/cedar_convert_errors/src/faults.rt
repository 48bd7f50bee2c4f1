// SPDX-License-Identifier: Apache-2.0
ghost use Rattle.std.specs.Prelude.{◌≡◌, ◌++◌, IfOk, OnOk};
ghost use Rattle.std.specs.Option.{option_map};
ghost use Rattle.std.specs.String.{string_bytes};
ghost use Rattle.cedar_convert_errors.specs.Texts.{fault_help, fault_spans};

use crate::texts::{NO_PR_HELP_MSG, list_help};
use cedar_data::{Mem, Text};
use cedar_tree::{Loc, PR, Span};
use std::alloc::Global;

/// A name that two declarations of one kind have, in one namespace.
#[derive(Debug, Drop, PartialEq, Eq)]
pub struct DuplicateDeclarations {
    /// The name.
    pub decl: Text,
    /// Where it is first declared.
    pub loc1: Loc,
    /// Where it is declared again.
    pub loc2: Loc,
}

/// An action with two contexts.
#[derive(Debug, Drop, PartialEq, Eq)]
pub struct DuplicateContext {
    /// The first action of the declaration.
    pub name: Text,
    /// The first context.
    pub loc1: Loc,
    /// The second context.
    pub loc2: Loc,
}

/// An action with two lists of principals, or of resources.
#[derive(Debug, Drop, PartialEq, Eq)]
pub struct DuplicatePrincipalOrResource {
    /// The first action of the declaration.
    pub name: Text,
    /// Of which of the two the lists are.
    pub kind: PR,
    /// The first list.
    pub loc1: Loc,
    /// The second list.
    pub loc2: Loc,
}

/// An action that applies to something, without principals or without resources.
#[derive(Debug, Drop, PartialEq, Eq)]
pub struct NoPrincipalOrResource {
    /// The first action of the declaration.
    pub name: Text,
    /// Which of the two is missing.
    pub kind: PR,
    /// The place of the name.
    pub name_loc: Loc,
    /// The place of the empty list; none where there is no list.
    pub empty_loc: Option<Loc>,
}

/// A namespace that stands twice.
#[derive(Debug, Drop, PartialEq, Eq)]
pub struct DuplicateNamespace {
    /// The full name.
    pub namespace_id: Text,
    /// Where it first stands.
    pub loc1: Loc,
    /// Where it stands again.
    pub loc2: Loc,
}

/// A name of a type that is not known. No call answers it; it is kept for those who match on it.
#[derive(Debug, Drop, PartialEq, Eq)]
pub struct UnknownTypeName {
    /// The name.
    pub name: Text,
    /// Its place.
    pub loc: Loc,
}

/// A name that is kept for the language, since it is `__cedar` or has it as a component.
#[derive(Debug, Drop, PartialEq, Eq)]
pub struct ReservedName {
    /// The name; of a namespace the full one.
    pub name: Text,
    /// Its place.
    pub loc: Loc,
}

/// A common type whose name is a word of the JSON format.
#[derive(Debug, Drop, PartialEq, Eq)]
pub struct ReservedSchemaKeyword {
    /// The word.
    pub keyword: Text,
    /// Its place.
    pub loc: Loc,
}

/// An attribute that stands twice in one record.
#[derive(Debug, Drop, PartialEq, Eq)]
pub struct DuplicateAttribute {
    /// The name.
    pub name: Text,
    /// Where it first stands in its record.
    pub loc1: Loc,
    /// Where it stands again.
    pub loc2: Loc,
}

/// What is wrong with the tree of a schema.
#[derive(Debug, Drop, PartialEq, Eq)]
pub enum ToJsonSchemaError {
    /// Two entity types, two actions or two common types of one namespace have the same name.
    DuplicateDeclarations(DuplicateDeclarations),
    /// An action has two contexts.
    DuplicateContext(DuplicateContext),
    /// An action has two lists of principals, or of resources.
    DuplicatePrincipalOrResource(DuplicatePrincipalOrResource),
    /// An action applies to something, and has no principals or no resources.
    NoPrincipalOrResource(NoPrincipalOrResource),
    /// A namespace stands twice.
    DuplicateNamespaces(DuplicateNamespace),
    /// The name of a type is not known. It never comes.
    UnknownTypeName(UnknownTypeName),
    /// A name is kept for the language.
    ReservedName(ReservedName),
    /// The name of a common type is a word of the JSON format.
    ReservedSchemaKeyword(ReservedSchemaKeyword),
    /// An attribute stands twice in one record.
    DuplicateAttribute(DuplicateAttribute),
}

impl ToJsonSchemaError {
    /// What to do about it, if there is something to say. It fails only for want of memory.
    pub fn help(&self, alloc: Global) -> Mem<Option<String>>
        ensures { IfOk result (λ help. option_map string_bytes help ≡ fault_help self.now) }
    {
        match self {
            ToJsonSchemaError::DuplicateDeclarations(_) => Ok(None),
            ToJsonSchemaError::DuplicateContext(_) => {
                let help = format!(in alloc;
                    "Try either deleting one of the declarations, or merging into a single declaration"
                )?;
                Ok(Some(help))
            }
            ToJsonSchemaError::DuplicatePrincipalOrResource(fault) => {
                let help = list_help(alloc, fault.kind)?;
                Ok(Some(help))
            }
            ToJsonSchemaError::NoPrincipalOrResource(_) => {
                let help = format!(in alloc; "{NO_PR_HELP_MSG}")?;
                Ok(Some(help))
            }
            ToJsonSchemaError::DuplicateNamespaces(_) => Ok(None),
            ToJsonSchemaError::UnknownTypeName(fault) => {
                let name = &fault.name;
                let help = format!(in alloc;
                    "Did you mean to define `{name}` as an entity type or common type?"
                )?;
                Ok(Some(help))
            }
            ToJsonSchemaError::ReservedName(_) => {
                let help = format!(in alloc;
                    "Names containing `__cedar` (for example: `__cedar::A`, `A::__cedar`, or `A::__cedar::B`) are reserved"
                )?;
                Ok(Some(help))
            }
            ToJsonSchemaError::ReservedSchemaKeyword(_) => {
                let help = format!(in alloc;
                    "Keywords such as `entity`, `extension`, `set` and `record` cannot be used as common type names"
                )?;
                Ok(Some(help))
            }
            ToJsonSchemaError::DuplicateAttribute(_) => Ok(None),
        }
    }

    /// The places of the kept pieces, in the order kept. It fails only for want of memory.
    pub fn spans(&self, alloc: Global) -> Mem<Vec<Span>>
        ensures { IfOk result (λ spans. spans.items ≡ fault_spans self.now) }
    {
        let mut spans = Vec::new(alloc);
        self.add_spans(&mut spans)?;
        Ok(spans)
    }

    /// Puts the places of the kept pieces behind the others.
    pub(crate) fn add_spans(&self, spans: &mut Vec<Span>) -> Mem<()>
        ensures { OnOk result (spans.new.items ≡ spans.old.items ++ fault_spans self.now) }
    {
        let (first, second) = self.two_places();
        spans.push(first.span())?;
        if let Some(second) = second {
            spans.push(second.span())?;
        }
        Ok(())
    }
}
