// SPDX-License-Identifier: Apache-2.0
ghost use Rattle.std.specs.Prelude.{List};
ghost use Rattle.std.specs.List.Sorted.{IsPermutation};
ghost use Rattle.cedar_merge.specs.Lookups.{Fragment, Place};
ghost use Rattle.cedar_merge.specs.Merged.{IsClash, IsConflict, Merged, NotePlace, SayTheSame};

/// A law: it doesn't matter in which order fragments stand. The same clash and the same conflict are told of them, and
/// what they are merged into says the same. It does nothing when it runs.
pub fn orders_of_lists()
    ensures clash { (L M : List Fragment) → IsPermutation L M → (p : Place) → IsClash L p
        → IsClash M p }
    ensures conflict { (L M : List Fragment) → IsPermutation L M → (p : NotePlace) → IsConflict L p
        → IsConflict M p }
    ensures merged { (L M : List Fragment) → IsPermutation L M → (F G : Fragment) → Merged L F
        → Merged M G → SayTheSame F G }
{}
