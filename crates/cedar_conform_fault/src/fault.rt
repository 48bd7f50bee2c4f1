// SPDX-License-Identifier: Apache-2.0
ghost use Rattle.std.specs.Prelude.{◌≡◌, ◌∷◌, Some, IfOk};
ghost use Rattle.std.specs.Fmt.{WritesOnOk};
ghost use Rattle.cedar_conform_fault.specs.FaultTexts.{fault_text, further_keys, path_text};

use crate::kind::FaultKind;
use cedar_data::{Dup, Items, Mem, Text, dup_two};
use std::alloc::Global;
use std::error::Error;
use std::fmt;

/// Where and why a value doesn't fit.
#[derive(Debug, Drop, PartialEq, Eq)]
pub struct Fault {
    /// The keys and the decimal places that lead to the value at fault, from the outermost in.
    pub path: Items<Text>,
    /// What is wrong there.
    pub kind: FaultKind,
}

/// The keys behind one more, which comes first, with what they lead to. It fails only for want of memory.
pub fn behind_key<K: Drop>(
    alloc: Global,
    key: &str,
    path: Items<Text>,
    kind: K,
) -> Mem<(Items<Text>, K)>
    ensures { IfOk result (λ placed. (placed.0 ≡ key.now ∷ path) × (placed.1 ≡ kind)) }
{
    let key = Text::new(alloc, key)?;
    let mut keys = path.into_vec();
    keys.insert(0, key)?;
    Ok((Items::from_vec(keys), kind))
}

impl Fault {
    /// The same fault, behind this key or place of the value in which it was found.
    pub fn behind(self, alloc: Global, key: &str) -> Mem<Fault>
        ensures { IfOk result (λ fault. (fault.path ≡ key.now ∷ self.path)
            × (fault.kind ≡ self.kind)) }
    {
        let Fault { path, kind } = self;
        let (path, kind) = behind_key(alloc, key, path, kind)?;
        Ok(Fault { path, kind })
    }
}

/// Writes the keys with `/` between them.
pub fn write_path<W: fmt::Write>(path: &[Text], f: &mut fmt::Formatter<W>) -> fmt::Result
    ensures { WritesOnOk W.write_str_gives f.old result (path_text path.now) f.new }
{
    match path.split_first() {
        None => Ok(()),
        Some((first, others)) => {
            write!(f, "{first}")?;
            write_further_keys(others, f)
        }
    }
}

/// Writes each key behind `/`.
fn write_further_keys<W: fmt::Write>(keys: &[Text], f: &mut fmt::Formatter<W>) -> fmt::Result
    ensures { WritesOnOk W.write_str_gives f.old result (further_keys keys.now) f.new }
{
    for key in keys {
        write!(f, "/{key}")?;
    }
    Ok(())
}

impl fmt::Display for Fault {
    ghost output = { λ fault. Some (fault_text fault) };

    fn fmt<W: fmt::Write>(&self, f: &mut fmt::Formatter<W>) -> fmt::Result {
        write!(f, "at ")?;
        write_path(self.path.as_slice(), f)?;
        let kind = &self.kind;
        write!(f, ": {kind}")
    }
}

impl Error for Fault {}

impl Dup for Fault {
    fn dup(&self, alloc: Global) -> Mem<Fault> {
        let (path, kind) = dup_two(alloc, &self.path, &self.kind)?;
        Ok(Fault { path, kind })
    }
}
