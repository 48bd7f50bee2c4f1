// SPDX-License-Identifier: Apache-2.0
ghost use Rattle.std.specs.Prelude.{◌≡◌, ◌↔◌, ℕ, List, None};
ghost use Rattle.cedar_text.specs.Literals.{uid_fault, WritesEntity};
ghost use Rattle.cedar_names.specs.Identifiers.{id_word, unreserved_word, any_word};
ghost use Rattle.cedar_names.specs.declared.any_id.AnyId.{AnyId};
ghost use Rattle.cedar_names.specs.declared.id.Id.{Id};
ghost use Rattle.cedar_names.specs.declared.id.UnreservedId.{UnreservedId};

/// A law with no work to do: the texts without fault are just those that write an entity.
pub fn faultless_writes_an_entity()
    ensures { (s : List ℕ) → (uid_fault s ≡ None) ↔ WritesEntity s }
{}

/// A law with no work to do: identifiers of the same word are the same.
pub fn one_id_of_a_word()
    ensures id { (a b : Id) → id_word a ≡ id_word b → a ≡ b }
    ensures unreserved { (a b : UnreservedId) → unreserved_word a ≡ unreserved_word b → a ≡ b }
    ensures any { (a b : AnyId) → any_word a ≡ any_word b → a ≡ b }
{}
