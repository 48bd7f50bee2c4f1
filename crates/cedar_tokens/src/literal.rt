// SPDX-License-Identifier: Apache-2.0
ghost use Rattle.std.specs.Prelude.{◌≡◌, ◌≤◌, ◌↔◌, ℕ, false, List, length, chars, Some, IfSome};
ghost use Rattle.cedar_tokens.specs.Literals.{closed_len, Closes};

/// How many bytes the items of a literal take together with the quote that closes it, behind the
/// quote that opens it; none where it isn't closed.
pub fn closed_len(behind: &str) -> Option<usize>
    ensures len { result ≡ closed_len 0 false (chars behind.now) }
    ensures within { IfSome result (λ n. n ≤ length behind.now) }
{
    let mut len = 0;
    let mut escaped = false;
    for c in behind.chars() {
        if escaped {
            if c == '\n' {
                return None;
            }
            escaped = false;
        } else {
            if c == '"' {
                return Some(len + 1);
            }
            escaped = c == '\\';
        }
        len += c.len_utf8();
    }
    None
}

/// A law with no work to do: what is found from the left is the length of items and a quote.
pub fn literal_closes()
    ensures { (cs : List ℕ) (n : ℕ) → (closed_len 0 false cs ≡ Some n) ↔ Closes cs n }
{}
