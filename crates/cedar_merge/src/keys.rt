// SPDX-License-Identifier: Apache-2.0
ghost use Rattle.std.specs.Prelude.{◌≡◌, ℕ, Bool, false, List, refl};
ghost use Rattle.cedar_merge.specs.Joining.{always, texts_differ};
ghost use Rattle.cedar_merge.specs.TextLaws.{unlike_joins};
ghost use Rattle.cedar_merge.specs.Lookups.{common_word};
ghost use Rattle.cedar_names.specs.Identifiers.{any_word, unreserved_word};
ghost use Rattle.cedar_names.specs.Order.{word_cmp};

use cedar_data::Text;
use cedar_fragment::{ActionType, CommonType, EntityType, RawName};
use cedar_names::{Annotation, AnyId, UnreservedId};
use cedar_written::CommonTypeId;
use std::cmp::Ord;

/// A key that is a word, by which it is ordered.
pub(crate) trait Word: Ord {
    /// The word.
    ghost word: { Self → List ℕ };

    /// The word.
    fn word(&self) -> &Text
        ensures { result.now ≡ word self.now };

    ghost by_word: { (a b : Self) → Self.cmp a b ≡ word_cmp (word a) (word b) };
}

impl Word for CommonTypeId {
    ghost word = { common_word };

    fn word(&self) -> &Text {
        self.as_ref().as_text()
    }

    ghost by_word = { λ a b. refl };
}

impl Word for UnreservedId {
    ghost word = { unreserved_word };

    fn word(&self) -> &Text {
        self.as_text()
    }

    ghost by_word = { λ a b. refl };
}

impl Word for Text {
    ghost word = { λ text. text };

    fn word(&self) -> &Text {
        self
    }

    ghost by_word = { λ a b. refl };
}

impl Word for AnyId {
    ghost word = { any_word };

    fn word(&self) -> &Text {
        self.as_text()
    }

    ghost by_word = { λ a b. refl };
}

/// What fragments say under one name, and whether two of them may.
pub(crate) trait Stands {
    /// Whether both can't be said.
    ghost against: { Self → Self → Bool };

    /// Whether both can't be said.
    fn is_against(&self, other: &Self) -> bool
        ensures { result ≡ against self.now other.now };

    ghost laws: { (a b c : Self) → against a b ≡ false → against b c ≡ false → against a c ≡ false };
}

/// No two declarations of one name.
impl Stands for CommonType<RawName> {
    ghost against = { always };

    fn is_against(&self, _other: &CommonType<RawName>) -> bool {
        true
    }

    ghost laws = { λ a b c p q. p };
}

/// No two declarations of one name.
impl Stands for EntityType<RawName> {
    ghost against = { always };

    fn is_against(&self, _other: &EntityType<RawName>) -> bool {
        true
    }

    ghost laws = { λ a b c p q. p };
}

/// No two declarations of one name.
impl Stands for ActionType<RawName> {
    ghost against = { always };

    fn is_against(&self, _other: &ActionType<RawName>) -> bool {
        true
    }

    ghost laws = { λ a b c p q. p };
}

/// Two annotations of one key where they have the same text.
impl Stands for Annotation {
    ghost against = { texts_differ };

    fn is_against(&self, other: &Annotation) -> bool {
        self.val != other.val
    }

    ghost laws = { λ a b c p q. unlike_joins a.val b.val c.val p q };
}
