// SPDX-License-Identifier: Apache-2.0
ghost use Rattle.std.specs.Prelude.{◌≡◌, [], None, Some, IfOk};
ghost use Rattle.std.specs.Vec.Iter.{into_iter_items};
ghost use Rattle.cedar_names.specs.Identifiers.{id_words, ids_left};
ghost use Rattle.cedar_names.specs.Order.{words_eq};
ghost use Rattle.cedar_names.specs.OrderLaws.{words-per, words-equiv};
ghost use Rattle.cedar_names.specs.of_text.Joining.{joined};
ghost use Rattle.cedar_tree.specs.Comparing.{path_words, path_fed, path_fed-alike};
ghost use Rattle.cedar_tree.specs.Paths.{path_at, path_ids, path_basename, path_namespace, path_loc, ids_at, in_cedar, name_of_path};

use cedar_names::{Components, Dup, Id, InternalName, Items, Loc, Mem, Node, Text, is_cedar};
use std::alloc::Global;
use std::fmt;
use std::hash::{Hash, Hasher};
use std::vec::IntoIter;

/// A name as it stands in the text: a basename in a namespace of identifiers, which may be empty. Comparisons leave the
/// place out.
#[derive(Debug, Drop)]
pub struct Path {
    basename: Id,
    namespace: Items<Id>,
    loc: Loc,
}

/// The identifiers of a path, outermost first.
pub type PathIter<'a> = Components<'a>;

/// The identifiers of a path, outermost first, each at the place of the path.
pub type PathIntoIter = IntoIter<Node<Id>>;

/// The id of an entity, behind the path of its type where one is given.
#[derive(Debug, Drop, PartialEq, Eq)]
pub struct QualName {
    /// The path of the type; none where the id stands alone.
    pub path: Option<Path>,
    /// The id: what a string literal stands for, or a word that stands alone. It may be empty.
    pub eid: Text,
}

impl Path {
    /// The path of one identifier.
    pub fn single(alloc: Global, basename: Id, loc: Loc) -> Path
        ensures { result ≡ path_at basename [] loc }
    {
        Path {
            basename,
            namespace: Items::new(alloc),
            loc,
        }
    }

    /// The path of `basename` in the namespace whose identifiers are given outermost first.
    pub fn new(basename: Id, namespace: Vec<Id>, loc: Loc) -> Path
        ensures { result ≡ path_at basename namespace.items loc }
    {
        Path {
            basename,
            namespace: Items::from_vec(namespace),
            loc,
        }
    }

    /// The identifiers, outermost first, the basename last.
    pub fn iter(&self) -> PathIter<'_>
        ensures { ids_left result ≡ path_ids self.now }
    {
        Components::new(self.namespace.as_slice(), &self.basename)
    }

    /// The identifiers, outermost first, the basename last, each at the place of the path. It fails only for want of
    /// memory.
    pub fn into_iter(self, alloc: Global) -> Mem<PathIntoIter>
        ensures { IfOk result (λ ids. into_iter_items ids
            ≡ ids_at (path_loc self) (path_ids self)) }
    {
        let Path {
            basename,
            namespace,
            loc,
        } = self;
        let mut nodes = Vec::new(alloc);
        for id in namespace.into_vec() {
            let place = loc.dup(alloc)?;
            nodes.push(Node {
                node: id,
                loc: place,
            })?;
        }
        nodes.push(Node {
            node: basename,
            loc,
        })?;
        Ok(nodes.into_iter())
    }

    /// The identifiers before the last, outermost first, and the last.
    pub fn split_last(self) -> (Vec<Id>, Id)
        ensures namespace { result.0.items ≡ path_namespace self }
        ensures basename { result.1 ≡ path_basename self }
    {
        let Path {
            basename,
            namespace,
            loc: _,
        } = self;
        (namespace.into_vec(), basename)
    }

    /// The place.
    pub fn loc(&self) -> &Loc
        ensures { result.now ≡ path_loc self.now }
    {
        &self.loc
    }

    /// Whether the namespace is `__cedar`, as in `__cedar::X`.
    pub fn is_in_cedar(&self) -> bool
        ensures { result ≡ in_cedar (path_namespace self.now) }
    {
        let Some((first, rest)) = self.namespace.as_slice().split_first() else {
            return false;
        };
        match rest.split_first() {
            None => is_cedar(first.as_ref()),
            Some(_) => false,
        }
    }
}

/// Whether the identifiers of two paths are the same.
fn have_same_ids(left: &Path, right: &Path) -> bool
    ensures { result ≡ words_eq (path_words left.now) (path_words right.now) }
{
    left.basename == right.basename && left.namespace == right.namespace
}

impl PartialEq for Path {
    ghost eq = { λ a b. words_eq (path_words a) (path_words b) };

    ghost laws = { words-per path_words };

    fn eq(&self, other: &Self) -> bool {
        have_same_ids(self, other)
    }
}

impl Eq for Path {
    ghost laws = { words-equiv path_words };
}

/// A path is hashed as the name that it is.
impl Hash for Path {
    ghost hash_input = { path_fed };

    ghost respects_eq = { path_fed-alike };

    fn hash<H: Hasher>(&self, state: &mut H) {
        self.basename.hash(state);
        self.namespace.hash(state);
    }
}

/// Identifiers joined by `::`.
impl fmt::Display for Path {
    ghost output = { λ path. Some (joined (id_words (path_ids path))) };

    fn fmt<W: fmt::Write>(&self, f: &mut fmt::Formatter<W>) -> fmt::Result {
        for id in self.namespace.as_slice() {
            write!(f, "{id}::")?;
        }
        let basename = &self.basename;
        write!(f, "{basename}")
    }
}

impl From<Path> for InternalName {
    ghost from_gives = { λ path name. name ≡ name_of_path path };

    fn from(path: Path) -> InternalName {
        let Path {
            basename,
            namespace,
            loc,
        } = path;
        InternalName::new(basename, namespace.into_vec(), Some(loc))
    }
}

impl Dup for Path {
    fn dup(&self, alloc: Global) -> Mem<Path> {
        let basename = self.basename.dup(alloc)?;
        let namespace = self.namespace.dup(alloc)?;
        let loc = self.loc.dup(alloc)?;
        Ok(Path {
            basename,
            namespace,
            loc,
        })
    }
}

impl QualName {
    /// The id with no type.
    pub fn unqualified(eid: Text) -> QualName
        ensures path { result.path ≡ None }
        ensures eid { result.eid ≡ eid }
    {
        QualName { path: None, eid }
    }

    /// The id behind the path of a type.
    pub fn qualified(path: Path, eid: Text) -> QualName
        ensures path { result.path ≡ Some path }
        ensures eid { result.eid ≡ eid }
    {
        QualName {
            path: Some(path),
            eid,
        }
    }
}

impl Dup for QualName {
    fn dup(&self, alloc: Global) -> Mem<QualName> {
        let path = self.path.dup(alloc)?;
        let eid = self.eid.dup(alloc)?;
        Ok(QualName { path, eid })
    }
}
