// SPDX-License-Identifier: Apache-2.0
ghost use Rattle.std.specs.Prelude.{◌≡◌, [], ◌↔◌, ℕ, List, cond, Some, IsTrue, OnOk, OnErr};
ghost use Rattle.std.specs.BTreeMap.{insert_entry};
ghost use Rattle.std.specs.Option.{option_copied};
ghost use Rattle.std.specs.Fmt.{WritesOnOk};
ghost use Rattle.std.specs.Str.{bytes_eq};
ghost use Rattle.cedar_text.specs.of_data.Maps.{IsSortedMap};
ghost use Rattle.cedar_names.specs.Annotating.{annotation_entries, annotation_at, annotation_line, annotation_lines, any_cmp};
ghost use Rattle.cedar_names.specs.Identifiers.{any_word};

use crate::any_id::AnyId;
use cedar_text::{Dup, Escaped, Loc, Map, MapIter, Mem, Text};
use std::alloc::Global;
use std::fmt;

/// The value of an annotation. Comparisons leave the place out.
#[derive(Debug, Drop)]
#[derive_where(PartialEq, Eq, PartialOrd, Ord)]
pub struct Annotation {
    pub val: Text,
    #[derive_where(skip(EqHashOrd))]
    pub loc: Option<Loc>,
}

impl Dup for Annotation {
    fn dup(&self, alloc: Global) -> Mem<Annotation> {
        let val = self.val.dup(alloc)?;
        let loc = self.loc.dup(alloc)?;
        Ok(Annotation { val, loc })
    }
}

/// Annotations with their keys, in key order.
pub type AnnotationIter<'a> = MapIter<'a, AnyId, Annotation>;

/// Annotations by their keys, in key order.
#[derive(Debug, Drop, PartialEq, Eq, PartialOrd, Ord)]
pub struct Annotations {
    map: Map<AnyId, Annotation>,
}

impl Annotations {
    /// No annotations.
    pub fn new(alloc: Global) -> Annotations
        ensures { annotation_entries result ≡ [] }
    {
        Annotations {
            map: Map::new(alloc),
        }
    }

    /// Puts the annotation at the key, in place of one that was there. It fails only for want of memory, and then
    /// changes nothing.
    pub fn insert(&mut self, key: AnyId, a: Annotation) -> Mem<()>
        ensures ok { OnOk result (annotation_entries self.new
            ≡ insert_entry any_cmp (annotation_entries self.old) key a) }
        ensures puts { OnOk result ((name : List ℕ)
            → annotation_at (annotation_entries self.new) name
            ≡ cond (bytes_eq name (any_word key)) (Some a)
            (annotation_at (annotation_entries self.old) name)) }
        ensures err { OnErr result (self.new ≡ self.old) }
    {
        self.map.put(key, a)
    }

    /// The annotation at the key of this word.
    pub fn get(&self, key: &str) -> Option<&Annotation>
        ensures { option_copied result ≡ annotation_at (annotation_entries self.now) key.now }
    {
        for (id, annotation) in self.map.iter() {
            if key == id.as_ref() {
                return Some(annotation);
            }
        }
        None
    }

    /// Whether there are none.
    pub fn is_empty(&self) -> bool
        ensures { IsTrue result ↔ (annotation_entries self.now ≡ []) }
    {
        self.map.is_empty()
    }

    /// The annotations with their keys, in key order.
    pub fn iter(&self) -> AnnotationIter<'_>
        ensures rest { result ≡ annotation_entries self.now }
        ensures ascending { IsSortedMap any_cmp (annotation_entries self.now) }
    {
        self.map.iter()
    }
}

/// Writes `@key("value")` and the end of a line.
fn write_annotation<W: fmt::Write>(
    key: &AnyId,
    annotation: &Annotation,
    f: &mut fmt::Formatter<W>,
) -> fmt::Result
    ensures { WritesOnOk W.write_str_gives f.old result (annotation_line (key.now, annotation.now))
        f.new }
{
    let value = Escaped(annotation.val.as_str());
    write!(f, "@{key}(\"{value}\")\n")
}

/// Each on a line of its own, in the order of their keys.
impl fmt::Display for Annotations {
    ghost output = { λ annotations. Some (annotation_lines annotations) };

    fn fmt<W: fmt::Write>(&self, f: &mut fmt::Formatter<W>) -> fmt::Result {
        for (key, annotation) in self.iter() {
            write_annotation(key, annotation, f)?;
        }
        Ok(())
    }
}

impl Dup for Annotations {
    fn dup(&self, alloc: Global) -> Mem<Annotations> {
        let map = self.map.dup(alloc)?;
        Ok(Annotations { map })
    }
}
