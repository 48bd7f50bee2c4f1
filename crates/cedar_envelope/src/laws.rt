// SPDX-License-Identifier: Apache-2.0
ghost use Rattle.std.specs.Prelude.{◌≡◌, ◌↔◌, ℕ, List, None};
ghost use Rattle.cedar_envelope.specs.Envelopes.{Contents, HasEnvelope, IsEnvelope};
ghost use Rattle.cedar_envelope.specs.Faults.{envelope_fault};

/// A law: a text has an envelope exactly where it has no fault. It does nothing when it runs.
pub fn what_has_an_envelope_has_no_fault()
    ensures { (s : List ℕ) (texts values : List (List ℕ)) → HasEnvelope s texts values
        ↔ (envelope_fault s texts values ≡ None) }
{}

/// A law: a text has at most one envelope. It does nothing when it runs.
pub fn what_has_an_envelope_has_one()
    ensures { (s : List ℕ) (texts values : List (List ℕ)) (c d : Contents)
        → IsEnvelope s texts values c → IsEnvelope s texts values d → c ≡ d }
{}
