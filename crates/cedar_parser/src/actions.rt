// SPDX-License-Identifier: Apache-2.0
ghost use Rattle.std.specs.Prelude.{◌≡◌, ℕ, ◌<◌, ◌≤◌, length, map, IfOk, OnOk, option_map};
ghost use Rattle.cedar_text.specs.Lists.{elements};
ghost use Rattle.cedar_tree.specs.Meanings.{node_of, listed, path_tree, qual_tree, scope_tree, app_tree, decl_tree};
ghost use Rattle.cedar_grammar.specs.Reading.{above_at, braced_at, one_or_list_at, ref_at, scope_behind, context_behind, app_at, applies_at, tail_at, action_behind, type_at};
ghost use Rattle.cedar_tree.specs.Trees.{Types, placed, stands};
ghost use Rattle.cedar_parser.specs.Behind.{action_parts, action_rest, action_end, apps_behind, braces_behind};
ghost use Rattle.cedar_parser.specs.Giving.{Gives, tokens_of, lexeme_node};

use crate::fault::Fault;
use crate::lists::{Names, Paths, References};
use crate::tokens::{Parser, Tokens};
use cedar_data::{Boxed, Items, Mem, Out, Text};
use cedar_names::{Loc, Node, NonEmpty};
use cedar_tokens::Lexeme;
use cedar_tree::{ActionDecl, AppDecl, ContextDecl, Declaration, PR, PRAppDecl, Path, QualName};

/// These items, of which there is one at least.
fn non_empty<T: Drop>(items: Items<T>) -> NonEmpty<T>
    requires { 0 < length items }
    ensures { elements result ≡ items }
{
    let mut items = items.into_vec();
    let head = items.remove(0);
    let tail = Items::from_vec(items);
    NonEmpty { head, tail }
}

impl<'s> Parser<'s> {
    /// The value on the heap, if there is one.
    fn boxed<T: Drop>(&self, value: Option<T>) -> Mem<Option<Boxed<T>>>
        ensures { IfOk result (λ boxed. boxed ≡ value) }
    {
        match value {
            None => Ok(None),
            Some(value) => {
                let boxed = Boxed::new(self.alloc, value)?;
                Ok(Some(boxed))
            }
        }
    }

    /// Takes the actions after `in`, if it stands next.
    #[tactic(auto, unfolding(cedar_grammar::specs::Reading::above_at))]
    fn actions_above(
        &self,
        tokens: &mut Tokens<'_, '_>,
    ) -> Out<Option<Boxed<NonEmpty<Node<QualName>>>>, Fault>
        ensures read { Gives (λ refs. map (node_of qual_tree) (listed refs))
            (tokens_of self.now.source.now tokens.new.rest.now) result
            (above_at (one_or_list_at ref_at) (tokens_of self.now.source.now tokens.old.rest.now)) }
        ensures shorter { OnOk result (length tokens.new.rest.now ≤ length tokens.old.rest.now) }
    {
        if let Some(_) = self.accept_keyword(tokens, "in") {
            let refs = self.one_or_list::<References>(tokens)?;
            return Ok(self.boxed(refs.node)?);
        }
        Ok(None)
    }

    /// The types of this scope, from its word to their end.
    fn scope_of(
        &self,
        keyword: Lexeme<'_>,
        kind: PR,
        types: Node<Option<NonEmpty<Path>>>,
    ) -> Mem<Node<AppDecl>>
        ensures { IfOk result (λ app. node_of app_tree app
            ≡ placed (Types
            (stands (scope_tree kind) (lexeme_node self.now.source.now keyword.entry).loc)
            (map path_tree (listed types.node)))
            (lexeme_node self.now.source.now keyword.entry).loc types.loc) }
    {
        let which = self.place(keyword.start, keyword.end)?;
        let loc = self.place(keyword.start, types.loc.end)?;
        let decl = PRAppDecl {
            kind: Node {
                node: kind,
                loc: which,
            },
            entity_tys: types.node,
        };
        Ok(Node {
            node: AppDecl::PR(decl),
            loc,
        })
    }

    /// Takes what follows `principal` or `resource`.
    #[tactic(auto, unfolding(cedar_grammar::specs::Reading::scope_behind, cedar_grammar::specs::Reading::types_at))]
    fn scope<'a>(
        &self,
        tokens: &mut Tokens<'_, 'a>,
        keyword: Lexeme<'a>,
        kind: PR,
    ) -> Out<Node<AppDecl>, Fault>
        ensures read { Gives (node_of app_tree)
            (tokens_of self.now.source.now tokens.new.rest.now) result
            (scope_behind
            (stands (scope_tree kind) (lexeme_node self.now.source.now keyword.entry).loc)
            (tokens_of self.now.source.now tokens.old.rest.now)) }
        ensures shorter { OnOk result (length tokens.new.rest.now < length tokens.old.rest.now) }
    {
        self.expect_mark(tokens, ":")?;
        let types = self.one_or_list::<Paths>(tokens)?;
        Ok(self.scope_of(keyword, kind, types)?)
    }

    /// Takes what follows `context`.
    #[tactic(auto, unfolding(cedar_grammar::specs::Reading::context_behind))]
    fn context<'a>(
        &self,
        tokens: &mut Tokens<'_, 'a>,
        keyword: Lexeme<'a>,
    ) -> Out<Node<AppDecl>, Fault>
        ensures read { (n : ℕ) → length tokens.old.rest.now < n
            → Gives (node_of app_tree) (tokens_of self.now.source.now tokens.new.rest.now) result
            (context_behind (type_at n) (lexeme_node self.now.source.now keyword.entry)
            (tokens_of self.now.source.now tokens.old.rest.now)) }
        ensures shorter { OnOk result (length tokens.new.rest.now < length tokens.old.rest.now) }
    {
        self.expect_mark(tokens, ":")?;
        if let Some(opening) = self.accept_mark(tokens, "{") {
            let record = self.record_behind(tokens, opening)?;
            let loc = self.place(keyword.start, record.loc.end)?;
            return Ok(Node {
                node: AppDecl::Context(ContextDecl::Record(record)),
                loc,
            });
        }
        let path = self.path(tokens)?;
        let loc = self.place(keyword.start, path.loc().end)?;
        Ok(Node {
            node: AppDecl::Context(ContextDecl::Path(path)),
            loc,
        })
    }

    /// Takes one part of what an action applies to.
    #[tactic(auto, unfolding(cedar_grammar::specs::Reading::app_at))]
    fn app(&self, tokens: &mut Tokens<'_, '_>) -> Out<Node<AppDecl>, Fault>
        ensures read { (n : ℕ) → length tokens.old.rest.now < n
            → Gives (node_of app_tree) (tokens_of self.now.source.now tokens.new.rest.now) result
            (app_at (type_at n) (tokens_of self.now.source.now tokens.old.rest.now)) }
        ensures shorter { OnOk result (length tokens.new.rest.now < length tokens.old.rest.now) }
    {
        if let Some(keyword) = self.accept_keyword(tokens, "principal") {
            return self.scope(tokens, keyword, PR::Principal);
        }
        if let Some(keyword) = self.accept_keyword(tokens, "resource") {
            return self.scope(tokens, keyword, PR::Resource);
        }
        let keyword = self.expect_keyword(tokens, "context")?;
        self.context(tokens, keyword)
    }

    /// Takes parts of what an action applies to, with commas between, and the `}` behind them.
    fn app_list<'a>(
        &self,
        tokens: &mut Tokens<'_, 'a>,
    ) -> Out<(Items<Node<AppDecl>>, Lexeme<'a>), Fault>
        ensures read { (n : ℕ) → length tokens.old.rest.now < n
            → Gives (λ r. (map (node_of app_tree) r.0, lexeme_node self.now.source.now r.1))
            (tokens_of self.now.source.now tokens.new.rest.now) result
            (braced_at (app_at (type_at n)) (tokens_of self.now.source.now tokens.old.rest.now)) }
        ensures some { IfOk result (λ r. 0 < length r.0) }
        ensures shorter { OnOk result (length tokens.new.rest.now < length tokens.old.rest.now) }
    {
        // Room for three: an action mostly has principals and resources, and at most a context besides.
        let mut apps = Items::from_vec(Vec::with_capacity(self.alloc, 3)?);
        'apps: loop {
            let app = self.app(tokens)?;
            apps.push(app)?;
            if let None = self.accept_mark(tokens, ",") {
                let closing = self.expect_mark(tokens, "}")?;
                return Ok((apps, closing));
            }
            if let Some(closing) = self.accept_mark(tokens, "}") {
                return Ok((apps, closing));
            }
        }
    }

    /// Takes the parts of what an action applies to, behind `{`, and `}`.
    #[tactic(auto, unfolding(crate::specs::Behind::apps_behind))]
    fn apps<'a>(
        &self,
        tokens: &mut Tokens<'_, 'a>,
        opening: Lexeme<'a>,
    ) -> Out<Node<NonEmpty<Node<AppDecl>>>, Fault>
        ensures read { (n : ℕ) → length tokens.old.rest.now < n
            → Gives (node_of (λ apps. map (node_of app_tree) (elements apps)))
            (tokens_of self.now.source.now tokens.new.rest.now) result
            (apps_behind (type_at n) (lexeme_node self.now.source.now opening.entry)
            (tokens_of self.now.source.now tokens.old.rest.now)) }
        ensures shorter { OnOk result (length tokens.new.rest.now < length tokens.old.rest.now) }
    {
        let (apps, closing) = self.app_list(tokens)?;
        let loc = self.place(opening.start, closing.end)?;
        let node = non_empty(apps);
        Ok(Node { node, loc })
    }

    /// Takes what follows `appliesTo`, if it stands next.
    #[tactic(auto, unfolding(cedar_grammar::specs::Reading::applies_at, crate::specs::Behind::apps_behind))]
    fn applies(
        &self,
        tokens: &mut Tokens<'_, '_>,
    ) -> Out<Option<Boxed<Node<NonEmpty<Node<AppDecl>>>>>, Fault>
        ensures read { (n : ℕ) → length tokens.old.rest.now < n
            → Gives (option_map (node_of (λ apps. map (node_of app_tree) (elements apps))))
            (tokens_of self.now.source.now tokens.new.rest.now) result
            (applies_at (type_at n) (tokens_of self.now.source.now tokens.old.rest.now)) }
        ensures shorter { OnOk result (length tokens.new.rest.now ≤ length tokens.old.rest.now) }
    {
        if let Some(_) = self.accept_keyword(tokens, "appliesTo") {
            let opening = self.expect_mark(tokens, "{")?;
            let apps = self.apps(tokens, opening)?;
            let apps = Boxed::new(self.alloc, apps)?;
            return Ok(Some(apps));
        }
        Ok(None)
    }

    /// Takes the `{}` that follows `attributes`.
    #[tactic(auto, unfolding(crate::specs::Behind::braces_behind))]
    fn no_attributes<'a>(&self, tokens: &mut Tokens<'_, 'a>) -> Out<Lexeme<'a>, Fault>
        ensures read { Gives (lexeme_node self.now.source.now)
            (tokens_of self.now.source.now tokens.new.rest.now) result
            (braces_behind (tokens_of self.now.source.now tokens.old.rest.now)) }
        ensures shorter { OnOk result (length tokens.new.rest.now < length tokens.old.rest.now) }
    {
        self.expect_mark(tokens, "{")?;
        self.expect_mark(tokens, "}")
    }

    /// Takes `attributes {}` if it stands next, and says whether it did.
    #[tactic(auto, unfolding(cedar_grammar::specs::Reading::tail_at, crate::specs::Behind::braces_behind))]
    fn tail(&self, tokens: &mut Tokens<'_, '_>) -> Out<bool, Fault>
        ensures read { Gives (λ b. b) (tokens_of self.now.source.now tokens.new.rest.now) result
            (tail_at (tokens_of self.now.source.now tokens.old.rest.now)) }
        ensures shorter { OnOk result (length tokens.new.rest.now ≤ length tokens.old.rest.now) }
    {
        if let Some(_) = self.accept_keyword(tokens, "attributes") {
            self.no_attributes(tokens)?;
            return Ok(true);
        }
        Ok(false)
    }

    /// Takes what follows what actions apply to, maybe `attributes {}`, and `;`: the place from their word to there.
    #[tactic(auto, unfolding(crate::specs::Behind::action_end))]
    fn action_end<'a>(&self, tokens: &mut Tokens<'_, 'a>, action: Lexeme<'a>) -> Out<Loc, Fault>
        ensures read { Gives (λ loc. loc) (tokens_of self.now.source.now tokens.new.rest.now) result
            (action_end (lexeme_node self.now.source.now action.entry)
            (tokens_of self.now.source.now tokens.old.rest.now)) }
        ensures shorter { OnOk result (length tokens.new.rest.now < length tokens.old.rest.now) }
    {
        self.tail(tokens)?;
        let semicolon = self.expect_mark(tokens, ";")?;
        Ok(self.place(action.start, semicolon.end)?)
    }

    /// Takes what follows the names of actions: their parents, what they apply to, and the place of the whole, which
    /// begins at this word.
    #[tactic(auto, unfolding(crate::specs::Behind::action_parts))]
    fn action_parts<'a>(
        &self,
        tokens: &mut Tokens<'_, 'a>,
        action: Lexeme<'a>,
    ) -> Out<
        (
            (
                Option<Boxed<NonEmpty<Node<QualName>>>>,
                Option<Boxed<Node<NonEmpty<Node<AppDecl>>>>>,
            ),
            Loc,
        ),
        Fault,
    >
        ensures read { (n : ℕ) → length tokens.old.rest.now < n
            → Gives (λ p. (
              (
                map (node_of qual_tree) (listed p.0.0),
                option_map
                    (node_of (λ apps. map (node_of app_tree) (elements apps))) p.0.1,
              ),
              p.1,
            ))
            (tokens_of self.now.source.now tokens.new.rest.now) result
            (action_parts (type_at n) (lexeme_node self.now.source.now action.entry)
            (tokens_of self.now.source.now tokens.old.rest.now)) }
        ensures shorter { OnOk result (length tokens.new.rest.now < length tokens.old.rest.now) }
    {
        let parents = self.actions_above(tokens)?;
        let app_decls = self.applies(tokens)?;
        let loc = self.action_end(tokens, action)?;
        Ok(((parents, app_decls), loc))
    }

    /// Takes what follows the names of actions, as a declaration of these.
    #[tactic(auto, unfolding(crate::specs::Behind::action_rest))]
    fn action_rest<'a>(
        &self,
        tokens: &mut Tokens<'_, 'a>,
        action: Lexeme<'a>,
        names: NonEmpty<Node<Text>>,
    ) -> Out<Node<Declaration>, Fault>
        ensures read { (n : ℕ) → length tokens.old.rest.now < n
            → Gives (node_of decl_tree) (tokens_of self.now.source.now tokens.new.rest.now) result
            (action_rest (type_at n) (lexeme_node self.now.source.now action.entry)
            (map (node_of (λ text. text)) (elements names))
            (tokens_of self.now.source.now tokens.old.rest.now)) }
        ensures shorter { OnOk result (length tokens.new.rest.now < length tokens.old.rest.now) }
    {
        let (parts, loc) = self.action_parts(tokens, action)?;
        let (parents, app_decls) = parts;
        let decl = ActionDecl {
            names,
            parents,
            app_decls,
        };
        Ok(Node {
            node: Declaration::Action(decl),
            loc,
        })
    }

    /// Takes what follows `action`.
    #[tactic(auto, unfolding(cedar_grammar::specs::Reading::action_behind))]
    pub fn action<'a>(
        &self,
        tokens: &mut Tokens<'_, 'a>,
        action: Lexeme<'a>,
    ) -> Out<Node<Declaration>, Fault>
        ensures read { (n : ℕ) → length tokens.old.rest.now < n
            → Gives (node_of decl_tree) (tokens_of self.now.source.now tokens.new.rest.now) result
            (action_behind (type_at n) (lexeme_node self.now.source.now action.entry)
            (tokens_of self.now.source.now tokens.old.rest.now)) }
        ensures shorter { OnOk result (length tokens.new.rest.now < length tokens.old.rest.now) }
    {
        let names = self.commas::<Names>(tokens)?;
        self.action_rest(tokens, action, names)
    }
}
