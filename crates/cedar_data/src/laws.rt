// SPDX-License-Identifier: Apache-2.0
ghost use Rattle.std.specs.Prelude.{◌≡◌, List};
ghost use Rattle.std.specs.declared.cmp.Ordering.TheVariants.{Equal};
ghost use Rattle.std.specs.List.Sorted.{IsStrictlySortedBy};
ghost use Rattle.cedar_data.specs.Sets.{contains};

/// A law with no work to do: where the order ties what is equal alone, a set has one list at most. So a clause that
/// says which keys a set has says which set it is.
pub fn one_list<K: Ord>()
    ensures { ((a b : K) → K.cmp a b ≡ Equal → a ≡ b) → (xs ys : List K)
        → IsStrictlySortedBy K.cmp xs → IsStrictlySortedBy K.cmp ys
        → ((key : K) → contains K.cmp xs key ≡ contains K.cmp ys key) → xs ≡ ys }
{}
