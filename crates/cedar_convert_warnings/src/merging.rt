// SPDX-License-Identifier: Apache-2.0
ghost use Rattle.std.specs.Prelude.{◌≡◌, ◌⊎◌, ◌∷◌, ◌||◌, ◌&&◌, ◌+◌, ◌<◌, [], false, length, nat_eq, nat_lt, IsTrue, IfNone, IfSome};
ghost use Rattle.std.specs.List.{list_any};
ghost use Rattle.std.specs.Ordering.{is_lt};
ghost use Rattle.cedar_names.specs.Order.{word_cmp};
ghost use Rattle.cedar_text.specs.Words.{has_word};
ghost use Rattle.cedar_convert_faults.specs.Repeats.{words_of};

use cedar_data::Text;
use cedar_text::Node;

/// Among so many names one is found by a look at each.
const FEW: usize = 16;

/// Whether one of the names is the word.
fn has_name(names: &[Node<Text>], word: &Text) -> bool
    ensures { result ≡ has_word (words_of names.now) word.now }
{
    for name in names {
        if *word == name.node {
            return true;
        }
    }
    false
}

/// Whether a name stands in both lists, where each of one is looked for in the other.
fn share_a_name(ones: &[Node<Text>], others: &[Node<Text>]) -> bool
    ensures { result ≡ list_any (has_word (words_of ones.now)) (words_of others.now) }
{
    for other in others {
        if has_name(ones, &other.node) {
            return true;
        }
    }
    false
}

/// What is left of two lists of names that are gone through as one.
#[derive(Drop)]
struct Merge<'n> {
    ones: &'n [Node<Text>],
    others: &'n [Node<Text>],
}

/// Whether a name is longer than another, or as long and behind it in the order of bytes.
fn is_behind(name: &Text, other: &Text) -> bool
    ensures { result ≡ (nat_lt (length other.now) (length name.now)
        || (nat_eq (length other.now) (length name.now) && is_lt (word_cmp other.now name.now))) }
{
    let (len, other_len) = (name.as_str().len(), other.as_str().len());
    other_len < len || (other_len == len && other < name)
}

impl<'n> Merge<'n> {
    /// Takes the first name of one of the lists: of two that which isn't behind the other.
    fn take(&mut self) -> Option<&'n Text>
        ensures none { IfNone result ((self.old.ones.now ≡ []) × (self.old.others.now ≡ [])) }
        ensures taken { IfSome result (λ name.
            ((words_of self.old.ones.now ≡ name.now ∷ words_of self.new.ones.now)
            × (self.new.others.now ≡ self.old.others.now))
            ⊎ ((self.new.ones.now ≡ self.old.ones.now)
            × (words_of self.old.others.now ≡ name.now ∷ words_of self.new.others.now))) }
        ensures shorter { IfSome result (λ _. length self.new.ones.now + length self.new.others.now
            < length self.old.ones.now + length self.old.others.now) }
    {
        let (ones, others) = (self.ones, self.others);
        if ones.is_empty() {
            if others.is_empty() {
                return None;
            }
            self.others = &others[1..];
            return Some(&others[0].node);
        }
        if !others.is_empty() && is_behind(&ones[0].node, &others[0].node) {
            self.others = &others[1..];
            return Some(&others[0].node);
        }
        self.ones = &ones[1..];
        Some(&ones[0].node)
    }
}

/// Whether no name stands in both lists, as far as it is told without an order of them: of few names, or by going
/// through both as one list. If each name is longer there than the one before it, or as long and behind that in the
/// order of bytes, all are distinct.
#[tactic(auto, using(crate::proofs::Apart::going))]
pub(crate) fn are_apart(ones: &[Node<Text>], others: &[Node<Text>]) -> bool
    ensures { IsTrue result → list_any (has_word (words_of ones.now)) (words_of others.now)
        ≡ false }
{
    if others.is_empty() {
        return true;
    }
    if ones.len() <= FEW && others.len() <= FEW {
        return !share_a_name(ones, others);
    }
    let mut left = Merge { ones, others };
    let Some(mut last) = left.take() else {
        return true;
    };
    while let Some(name) = left.take() {
        if !is_behind(name, last) {
            return false;
        }
        last = name;
    }
    true
}
