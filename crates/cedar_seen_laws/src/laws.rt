// SPDX-License-Identifier: Apache-2.0
ghost use Rattle.std.specs.Prelude.{◌≡◌, ℕ, List, Option};
ghost use Rattle.cedar_convert_fragment.specs.Views.{fragment_seen};
ghost use Rattle.cedar_fragment.specs.ActionUids.{over_raw};
ghost use Rattle.cedar_fragment.specs.Printed.{print};
ghost use Rattle.cedar_fragment.specs.declared.definitions.Fragment.{Fragment};
ghost use Rattle.cedar_json_write.specs.Written.{fragment_json};
ghost use Rattle.cedar_names.specs.Components.{components};
ghost use Rattle.cedar_print.specs.Pieces.{text_of};
ghost use Rattle.cedar_written.specs.Possibilities.{written};
ghost use Rattle.cedar_written.specs.declared.raw_name.RawName.{RawName};

/// A law: of fragments that are seen alike the same is written in JSON. It does nothing when it runs.
#[tactic(auto, using(crate::proofs::JsonDeclarations::json_alike))]
pub fn json_of_seen()
    ensures { (F G : Fragment RawName over_raw) → fragment_seen F ≡ fragment_seen G
        → fragment_json F ≡ fragment_json G }
{}

/// A law: of fragments that are seen alike the same is printed in the human syntax, where names show themselves by their
/// words. It does nothing when it runs.
#[tactic(auto, using(crate::proofs::PrintedDeclarations::printed_alike))]
pub fn text_of_seen()
    ensures { (shown : List (List ℕ) → Option (List ℕ)) (F G : Fragment RawName over_raw)
        → fragment_seen F ≡ fragment_seen G
        → text_of (λ n. shown (components (written n))) (print F)
        ≡ text_of (λ n. shown (components (written n))) (print G) }
{}
