// SPDX-License-Identifier: Apache-2.0
ghost use Rattle.std.specs.Prelude.{◌≡◌, ◌<◌, ◌≤◌, [], length, Some, IfOk, OnOk};
ghost use Rattle.cedar_names.specs.Identifiers.{id_word};
ghost use Rattle.cedar_tree.specs.Meanings.{node_of, path_tree, qual_tree};
ghost use Rattle.cedar_grammar.specs.Reading.{path_behind, path_at, ref_behind, ref_at};
ghost use Rattle.cedar_grammar.specs.Grammar.{path_of, qualified};
ghost use Rattle.cedar_parser.specs.Giving.{Gives, tokens_of};
ghost use Rattle.cedar_parser.specs.Ids.{ids_path};
ghost use Rattle.cedar_parser.specs.Longer.{longer, qualified_at};

use crate::fault::Fault;
use crate::tokens::{Parser, Tokens};
use cedar_data::{Mem, Out, Text};
use cedar_names::{Id, Loc, Node};
use cedar_tree::{Path, QualName};
use std::alloc::Global;
use std::mem;

/// The identifiers of a path that may go on: the last, those before it, and the place of all.
#[derive(Drop)]
struct Ids {
    basename: Id,
    namespace: Vec<Id>,
    loc: Loc,
}

impl Ids {
    /// A path of one identifier.
    fn of(alloc: Global, id: Node<Id>) -> Ids
        ensures { ids_path result ≡ path_of (node_of id_word id) [] }
    {
        Ids {
            basename: id.node,
            namespace: Vec::new(alloc),
            loc: id.loc,
        }
    }

    /// Puts another identifier behind.
    fn extend(&mut self, id: Node<Id>) -> Mem<()>
        ensures { OnOk result (ids_path self.new
            ≡ longer (ids_path self.old) (node_of id_word id)) }
    {
        let Node { node, loc } = id;
        let before = mem::replace(&mut self.basename, node);
        self.namespace.push(before)?;
        self.loc.end = loc.end;
        Ok(())
    }

    /// The path.
    fn into_path(self) -> Path
        ensures { path_tree result ≡ ids_path self }
    {
        let Ids {
            basename,
            namespace,
            loc,
        } = self;
        Path::new(basename, namespace, loc)
    }
}

impl<'s> Parser<'s> {
    /// Takes the rest of a path that begins with this identifier.
    pub fn path_behind(&self, tokens: &mut Tokens<'_, '_>, first: Node<Id>) -> Out<Path, Fault>
        ensures read { Gives path_tree (tokens_of self.now.source.now tokens.new.rest.now) result
            (path_behind (node_of id_word first)
            (tokens_of self.now.source.now tokens.old.rest.now)) }
        ensures shorter { OnOk result (length tokens.new.rest.now ≤ length tokens.old.rest.now) }
    {
        let mut ids = Ids::of(self.alloc, first);
        'ids: while let Some(_) = self.accept_mark(tokens, "::") {
            let id = self.ident(tokens)?;
            ids.extend(id)?;
        }
        Ok(ids.into_path())
    }

    /// Takes a path.
    #[tactic(auto, unfolding(cedar_grammar::specs::Reading::path_at))]
    pub fn path(&self, tokens: &mut Tokens<'_, '_>) -> Out<Path, Fault>
        ensures read { Gives path_tree (tokens_of self.now.source.now tokens.new.rest.now) result
            (path_at (tokens_of self.now.source.now tokens.old.rest.now)) }
        ensures shorter { OnOk result (length tokens.new.rest.now < length tokens.old.rest.now) }
    {
        let first = self.ident(tokens)?;
        self.path_behind(tokens, first)
    }

    /// Takes the rest of a reference that begins with this identifier.
    #[tactic(auto, unfolding(cedar_grammar::specs::Reading::ref_behind))]
    fn reference_behind(
        &self,
        tokens: &mut Tokens<'_, '_>,
        first: Node<Id>,
    ) -> Out<Node<QualName>, Fault>
        ensures read { Gives (node_of qual_tree)
            (tokens_of self.now.source.now tokens.new.rest.now) result
            (ref_behind (node_of id_word first)
            (tokens_of self.now.source.now tokens.old.rest.now)) }
        ensures shorter { OnOk result (length tokens.new.rest.now ≤ length tokens.old.rest.now) }
    {
        if let None = self.accept_mark(tokens, "::") {
            let Node { node, loc } = first;
            return Ok(Node {
                node: QualName::unqualified(node.into_text()),
                loc,
            });
        }
        self.qualified(tokens, first)
    }

    /// The reference to this id under the path of these identifiers.
    fn reference_of(&self, ids: Ids, eid: Node<Text>) -> Mem<Node<QualName>>
        ensures { IfOk result (λ reference. node_of qual_tree reference
            ≡ qualified (Some (ids_path ids)) eid ids.loc) }
    {
        let loc = self.between(&ids.loc, &eid.loc)?;
        let path = ids.into_path();
        Ok(Node {
            node: QualName::qualified(path, eid.node),
            loc,
        })
    }

    /// Takes the rest of a reference that begins with this identifier and a `::`.
    fn qualified(&self, tokens: &mut Tokens<'_, '_>, first: Node<Id>) -> Out<Node<QualName>, Fault>
        ensures read { Gives (node_of qual_tree)
            (tokens_of self.now.source.now tokens.new.rest.now) result
            (qualified_at (node_of id_word first)
            (tokens_of self.now.source.now tokens.old.rest.now)) }
        ensures shorter { OnOk result (length tokens.new.rest.now < length tokens.old.rest.now) }
    {
        let mut ids = Ids::of(self.alloc, first);
        'ids: loop {
            if let Some(eid) = self.accept_literal(tokens)? {
                return Ok(self.reference_of(ids, eid)?);
            }
            let id = self.ident(tokens)?;
            self.expect_mark(tokens, "::")?;
            ids.extend(id)?;
        }
    }

    /// Takes a reference to an action.
    #[tactic(auto, unfolding(cedar_grammar::specs::Reading::ref_at))]
    pub fn reference(&self, tokens: &mut Tokens<'_, '_>) -> Out<Node<QualName>, Fault>
        ensures read { Gives (node_of qual_tree)
            (tokens_of self.now.source.now tokens.new.rest.now) result
            (ref_at (tokens_of self.now.source.now tokens.old.rest.now)) }
        ensures shorter { OnOk result (length tokens.new.rest.now < length tokens.old.rest.now) }
    {
        if let Some(first) = self.accept_ident(tokens)? {
            return self.reference_behind(tokens, first);
        }
        let Node { node: eid, loc } = self.name(tokens)?;
        Ok(Node {
            node: QualName::unqualified(eid),
            loc,
        })
    }
}
