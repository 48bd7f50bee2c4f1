// SPDX-License-Identifier: Apache-2.0
ghost use Rattle.std.specs.Prelude.{Some};
ghost use Rattle.std.specs.Fmt.{WritesOnOk};
ghost use Rattle.cedar_compat.specs.FaultTexts.{fault_text, place_text};

use crate::kind::CompatKind;
use cedar_conform_fault::write_path;
use cedar_data::{Dup, Items, Mem, Text, dup_three};
use cedar_names::EntityType;
use std::alloc::Global;
use std::error::Error;
use std::fmt;

/// Where and why data of an old schema may not be valid under a new one.
#[derive(Debug, Drop, PartialEq, Eq)]
pub struct CompatFault {
    /// The entity type of the old schema.
    pub ty: EntityType,
    /// What leads to the fault, from the outermost in: `tags` for the type of the tags, the names of attributes, and `[]`
    /// for the elements of a set.
    pub path: Items<Text>,
    /// What is taken away there.
    pub kind: CompatKind,
}

/// Writes the keys behind ` at `, with `/` between them; nothing where there are none.
fn write_place<W: fmt::Write>(path: &[Text], f: &mut fmt::Formatter<W>) -> fmt::Result
    ensures { WritesOnOk W.write_str_gives f.old result (place_text path.now) f.new }
{
    match path.split_first() {
        None => Ok(()),
        Some(_) => {
            write!(f, " at ")?;
            write_path(path, f)
        }
    }
}

impl fmt::Display for CompatFault {
    ghost output = { λ fault. Some (fault_text fault) };

    fn fmt<W: fmt::Write>(&self, f: &mut fmt::Formatter<W>) -> fmt::Result {
        let ty = &self.ty;
        write!(f, "{ty}")?;
        write_place(self.path.as_slice(), f)?;
        let kind = &self.kind;
        write!(f, ": {kind}")
    }
}

impl Error for CompatFault {}

impl Dup for CompatFault {
    fn dup(&self, alloc: Global) -> Mem<CompatFault> {
        let (ty, path, kind) = dup_three(alloc, &self.ty, &self.path, &self.kind)?;
        Ok(CompatFault { ty, path, kind })
    }
}
