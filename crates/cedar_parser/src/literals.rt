// SPDX-License-Identifier: Apache-2.0
ghost use Rattle.std.specs.Prelude.{◌≡◌, option_map};
ghost use Rattle.cedar_grammar.specs.Grammar.{literal_body};

/// What stands between the quotes of a literal.
pub fn literal_body(text: &str) -> Option<&str>
    ensures { option_map (λ body. body.now) result ≡ literal_body text.now }
{
    text.strip_prefix('"')?.strip_suffix('"')
}
