// SPDX-License-Identifier: Apache-2.0
ghost use Rattle.std.specs.Prelude.{◌≡◌, None, Some, map, IfOk};
ghost use Rattle.cedar_text.specs.Places.{span_of};
ghost use Rattle.cedar_convert_warnings.specs.Texts.{shadows_builtin_text, shadows_entity_text, warning_places, warning_text};
ghost use Rattle.cedar_convert_warnings.specs.declared.warnings.SchemaWarning.TheVariants as warning_of;

use cedar_data::{Dup, Mem, Text};
use cedar_text::{Loc, Span};
use std::alloc::Global;
use std::fmt;

/// A type has the name of a builtin one, which then can be named by its full name alone.
#[derive(Debug, Drop, PartialEq, Eq)]
pub struct ShadowsBuiltinWarning {
    /// The name.
    pub name: Text,
    /// Where it is declared.
    pub loc: Loc,
}

/// A common type has the name of an entity type of its namespace.
#[derive(Debug, Drop, PartialEq, Eq)]
pub struct ShadowsEntityWarning {
    /// The name.
    pub name: Text,
    /// Where the entity type is declared.
    pub entity_loc: Loc,
    /// Where the common type is declared.
    pub common_loc: Loc,
}

/// A declared name that hides another one.
#[derive(Debug, Drop, PartialEq, Eq)]
pub enum SchemaWarning {
    /// An entity type or a common type has the name of a builtin type.
    ShadowsBuiltin(ShadowsBuiltinWarning),
    /// A common type has the name of an entity type of its namespace.
    ShadowsEntity(ShadowsEntityWarning),
}

impl SchemaWarning {
    /// What to do about it: there is nothing to say.
    pub fn help(&self, _alloc: Global) -> Mem<Option<String>>
        ensures { IfOk result (λ help. help ≡ None) }
    {
        Ok(None)
    }

    /// The places of the kept pieces, in the order kept. It fails only for want of memory.
    pub fn spans(&self, alloc: Global) -> Mem<Vec<Span>>
        ensures { IfOk result (λ spans. spans.items ≡ map span_of (warning_places self.now)) }
    {
        let mut spans = Vec::new(alloc);
        match self {
            SchemaWarning::ShadowsBuiltin(warning) => spans.push(warning.loc.span())?,
            SchemaWarning::ShadowsEntity(warning) => {
                spans.push(warning.entity_loc.span())?;
                spans.push(warning.common_loc.span())?;
            }
        }
        Ok(spans)
    }
}

impl fmt::Display for ShadowsBuiltinWarning {
    ghost output = { λ warning. Some (shadows_builtin_text warning.name) };

    fn fmt<W: fmt::Write>(&self, f: &mut fmt::Formatter<W>) -> fmt::Result {
        let name = &self.name;
        write!(
            f,
            "The name `{name}` shadows a builtin Cedar name. You'll have to refer to the builtin as `__cedar::{name}`."
        )
    }
}

impl fmt::Display for ShadowsEntityWarning {
    ghost output = { λ warning. Some (shadows_entity_text warning.name) };

    fn fmt<W: fmt::Write>(&self, f: &mut fmt::Formatter<W>) -> fmt::Result {
        let name = &self.name;
        write!(f, "The common type name {name} shadows an entity name")
    }
}

impl fmt::Display for SchemaWarning {
    ghost output = { λ warning. Some (warning_text warning) };

    fn fmt<W: fmt::Write>(&self, f: &mut fmt::Formatter<W>) -> fmt::Result {
        match self {
            SchemaWarning::ShadowsBuiltin(warning) => warning.fmt(f),
            SchemaWarning::ShadowsEntity(warning) => warning.fmt(f),
        }
    }
}

impl From<ShadowsBuiltinWarning> for SchemaWarning {
    ghost from_gives = { λ warning w. w ≡ warning_of.ShadowsBuiltin warning };

    fn from(warning: ShadowsBuiltinWarning) -> SchemaWarning {
        SchemaWarning::ShadowsBuiltin(warning)
    }
}

impl From<ShadowsEntityWarning> for SchemaWarning {
    ghost from_gives = { λ warning w. w ≡ warning_of.ShadowsEntity warning };

    fn from(warning: ShadowsEntityWarning) -> SchemaWarning {
        SchemaWarning::ShadowsEntity(warning)
    }
}

impl Dup for ShadowsBuiltinWarning {
    fn dup(&self, alloc: Global) -> Mem<ShadowsBuiltinWarning> {
        let name = self.name.dup(alloc)?;
        let loc = self.loc.dup(alloc)?;
        Ok(ShadowsBuiltinWarning { name, loc })
    }
}

impl Dup for ShadowsEntityWarning {
    fn dup(&self, alloc: Global) -> Mem<ShadowsEntityWarning> {
        let name = self.name.dup(alloc)?;
        let entity_loc = self.entity_loc.dup(alloc)?;
        let common_loc = self.common_loc.dup(alloc)?;
        Ok(ShadowsEntityWarning {
            name,
            entity_loc,
            common_loc,
        })
    }
}

impl Dup for SchemaWarning {
    fn dup(&self, alloc: Global) -> Mem<SchemaWarning> {
        match self {
            SchemaWarning::ShadowsBuiltin(warning) => {
                let warning = warning.dup(alloc)?;
                Ok(SchemaWarning::ShadowsBuiltin(warning))
            }
            SchemaWarning::ShadowsEntity(warning) => {
                let warning = warning.dup(alloc)?;
                Ok(SchemaWarning::ShadowsEntity(warning))
            }
        }
    }
}
