// SPDX-License-Identifier: Apache-2.0
ghost use Rattle.std.specs.Prelude.{◌≡◌, ◌≤◌, List, ℕ, IfOk, Some, refl, length, nat_eq, nat_lt};
ghost use Rattle.std.specs.Rc.{rc_str_bytes};
ghost use Rattle.std.specs.Cmp;
ghost use Rattle.std.specs.Cmp.Lexicographic.{pointwise, slice_cmp, nat_list_eq_equiv, nat_list_cmp_total, bytes_decides, texts_ties, texts_po};
ghost use Rattle.std.specs.Hash as fed;
ghost use Rattle.std.specs.Hash.{same_Alike};
ghost use Rattle.std.specs.Ordering.{nat_cmp};
ghost use Rattle.cedar_data.specs.Fronts.{IsFront, IsFrontNumber, held_text};

use crate::dup::Dup;
use crate::memory::Mem;
use std::alloc::Global;
use std::cmp::Ordering;
use std::hash::{Hash, Hasher};
use std::marker::Model;
use std::rc::RcStr;
use std::{fmt, str};

/// Shared text. A copy shares the memory of its source.
#[derive(Debug, Drop)]
pub struct Text {
    /// The first seven bytes, zeros behind fewer, and then the length, or 8 where it is longer.
    front: [u8; 8],
    /// The bytes of a text that its front doesn't hold. A shorter one needs none, and keeps any.
    shared: RcStr,
}

impl Model for Text {
    ghost Value = { List ℕ };

    ghost view = { λ t. held_text t.front (rc_str_bytes t.shared) };

    ghost invariant = { λ t. IsFront t.front (held_text t.front (rc_str_bytes t.shared)) };
}

/// The front of `text`: its first seven bytes, and then its length, or 8 where it is longer.
fn front_of(text: &str) -> [u8; 8]
    ensures { IsFront result text.now }
{
    let bytes = text.as_bytes();
    let mut digits: u64 = 0;
    for at in 0..7 {
        let digit = bytes.get(at).copied().unwrap_or(0);
        digits = digits * 256 + digit as u64;
    }
    let front = digits * 256 + bytes.len().min(8) as u64;
    front.to_be_bytes()
}

impl Text {
    /// The text with the bytes of `s`. It fails only for want of memory.
    pub fn new(alloc: Global, s: &str) -> Mem<Text>
        ensures { IfOk result (λ t. t ≡ s.now) }
    {
        if s.len() < 8 {
            let shared = RcStr::from_str(alloc, "")?;
            return Ok(Text::held(s, shared));
        }
        let shared = RcStr::from_str(alloc, s)?;
        Ok(Text::held(s, shared))
    }

    /// The text with the bytes of `s`. Where they are fewer than eight it takes no memory, and shares that of
    /// this text. It fails only for want of memory.
    pub fn beside(&self, alloc: Global, s: &str) -> Mem<Text>
        ensures { IfOk result (λ t. t ≡ s.now) }
    {
        if s.len() < 8 {
            let shared = self.shared.clone()?;
            return Ok(Text::held(s, shared));
        }
        Text::new(alloc, s)
    }

    /// The text with the bytes of `s`, which are shared where the front doesn't hold them.
    fn held(s: &str, shared: RcStr) -> Text
        requires { 8 ≤ length s.now → rc_str_bytes shared ≡ s.now }
        ensures { result ≡ s.now }
    {
        Text {
            front: front_of(s),
            shared,
        }
    }

    /// The text as a `str`.
    pub fn as_str(&self) -> &str
        ensures { result.now ≡ self.now }
    {
        if !self.is_short() {
            return self.shared.as_str();
        }
        let length = self.front[7] as usize;
        unsafe { str::from_utf8_unchecked(&self.front[..length]) }
    }

    /// Whether the front holds the whole text.
    fn is_short(&self) -> bool
        ensures { result ≡ nat_lt (length self.now) 8 }
    {
        self.front[7] < 8
    }

    /// The front as a number, which mostly decides a comparison alone.
    fn number(&self) -> u64
        ensures { IsFrontNumber result self.now }
    {
        u64::from_be_bytes(self.front)
    }
}

impl Dup for Text {
    fn dup(&self, _alloc: Global) -> Mem<Text> {
        let shared = self.shared.clone()?;
        Ok(Text {
            front: self.front,
            shared,
        })
    }
}

impl PartialEq for Text {
    ghost eq = { pointwise nat_eq };

    ghost laws = { Cmp.partial_equiv_from_equiv nat_list_eq_equiv };

    fn eq(&self, other: &Self) -> bool {
        self.number() == other.number() && (self.is_short() || self.as_str() == other.as_str())
    }
}

impl Eq for Text {
    ghost laws = { nat_list_eq_equiv };
}

impl PartialOrd for Text {
    ghost partial_cmp = { λ x y. Some (slice_cmp nat_cmp x y) };

    ghost laws = { texts_po };

    fn partial_cmp(&self, other: &Self) -> Option<Ordering> {
        Some(self.cmp(other))
    }
}

impl Ord for Text {
    ghost cmp = { slice_cmp nat_cmp };

    ghost total = { nat_list_cmp_total };

    ghost matches_partial_cmp = { λ x y. refl };

    ghost matches_eq = { texts_ties };

    fn cmp(&self, other: &Self) -> Ordering {
        let (one, another) = (self.number(), other.number());
        if one < another {
            return Ordering::Less;
        }
        if another < one {
            return Ordering::Greater;
        }
        if self.is_short() {
            return Ordering::Equal;
        }
        self.as_str().cmp(other.as_str())
    }
}

impl Hash for Text {
    ghost hash_input = { fed.str };

    ghost respects_eq = { (same_Alike fed.str bytes_decides).fed };

    fn hash<H: Hasher>(&self, state: &mut H) {
        self.as_str().hash(state);
    }
}

impl fmt::Display for Text {
    ghost output = { λ t. Some t };

    fn fmt<W: fmt::Write>(&self, f: &mut fmt::Formatter<W>) -> fmt::Result {
        fmt::Display::fmt(self.as_str(), f)
    }
}
