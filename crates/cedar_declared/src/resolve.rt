// SPDX-License-Identifier: Apache-2.0
ghost use Rattle.std.specs.Prelude.{◌≡◌, Some, true};
ghost use Rattle.std.specs.List.{find};
ghost use Rattle.std.specs.Option.{is_some, option_copied};
ghost use Rattle.cedar_names.specs.Components.{components};
ghost use Rattle.cedar_names.specs.of_text.Lists.{elements_left};
ghost use Rattle.cedar_written.specs.Possibilities.{kind_of, possibilities_of};
ghost use Rattle.cedar_declared.specs.Held.{names_of};
ghost use Rattle.cedar_declared.specs.Names.{is_declared};
ghost use Rattle.cedar_declared.specs.Targets.{found, resolved};

use crate::all_defs::AllDefs;
use cedar_data::Items;
use cedar_definitions::{ConditionalName, ReferenceType};
use cedar_names::{InternalName, NonEmpty, NonEmptyIter};
use cedar_schema_error::TypeNotDefinedError;

/// Names that are references.
pub trait ResolveName: Sized {
    ghost use Rattle.std.specs.declared.result.Result.{Result};
    ghost use Rattle.cedar_names.specs.declared.internal_name.InternalName.{InternalName};
    ghost use Rattle.cedar_schema_error.specs.declared.name_errors.TypeNotDefinedError.{TypeNotDefinedError};
    ghost use Rattle.cedar_declared.specs.declared.all_defs.AllDefs.{AllDefs};

    /// What a reference becomes.
    ghost resolved_name: { AllDefs → Self → Result InternalName TypeNotDefinedError };

    /// The full name that is meant, among these declared names; refused with the reference. It takes no memory.
    fn resolve(self, all_defs: &AllDefs) -> Result<InternalName, TypeNotDefinedError>
        ensures { result ≡ resolved_name all_defs.now self };
}

impl ResolveName for ConditionalName {
    ghost resolved_name = { λ d n. resolved (names_of d) n };

    #[tactic(auto, using(crate::proofs::Targeted::targeted))]
    fn resolve(self, all_defs: &AllDefs) -> Result<InternalName, TypeNotDefinedError> {
        let kind = self.reference_type();
        if all_defs.is_first_declared(&self) {
            let NonEmpty { head, tail: _ } = self.into_possibilities();
            return Ok(head);
        }
        if all_defs.is_other_declared(&self) {
            let NonEmpty { head: _, tail } = self.into_possibilities();
            return Ok(first_declared(all_defs, kind, tail));
        }
        let undefined_types = NonEmpty::singleton(all_defs.alloc, self);
        Err(TypeNotDefinedError { undefined_types })
    }
}

/// The first of the names that is declared as what the kind allows, which one is. So the last isn't looked up.
fn first_declared(
    all_defs: &AllDefs,
    kind: ReferenceType,
    names: Items<InternalName>,
) -> InternalName
    requires { is_some (find (λ p. is_declared (names_of all_defs.now) kind (components p)) names)
        ≡ true }
    ensures { find (λ p. is_declared (names_of all_defs.now) kind (components p)) names
        ≡ Some result }
{
    let mut names = names.into_vec();
    let Some(last) = names.pop() else {
        unreachable!()
    };
    for name in names {
        if all_defs.is_declared(kind, &name) {
            return name;
        }
    }
    // one of them is declared, and no other is
    last
}

impl AllDefs {
    /// Whether the name is declared as what the kind allows.
    fn is_declared(&self, kind: ReferenceType, name: &InternalName) -> bool
        ensures { result ≡ is_declared (names_of self.now) kind (components name.now) }
    {
        match kind {
            ReferenceType::Common => self.is_defined_as_common(name),
            ReferenceType::Entity => self.is_defined_as_entity(name),
            ReferenceType::CommonOrEntity => {
                self.is_defined_as_common(name) || self.is_defined_as_entity(name)
            }
        }
    }

    /// Whether the first name that a reference may stand for is declared as what it may be.
    fn is_first_declared(&self, name: &ConditionalName) -> bool
        ensures { result ≡ is_declared (names_of self.now) (kind_of name.now)
            (components (possibilities_of name.now).head) }
    {
        match name.possibilities().next() {
            Some(first) => self.is_declared(name.reference_type(), first),
            None => unreachable!(),
        }
    }

    /// The first of the names that is declared as what the kind allows.
    fn find_declared<'a>(
        &self,
        kind: ReferenceType,
        names: NonEmptyIter<'a, InternalName>,
    ) -> Option<&'a InternalName>
        ensures { option_copied result ≡ find
            (λ p. is_declared (names_of self.now) kind (components p))
            (elements_left names.entry) }
    {
        for name in names {
            if self.is_declared(kind, name) {
                return Some(name);
            }
        }
        None
    }

    /// The full name that a reference means, if it means one. It takes no memory.
    pub fn find_target<'a>(&self, name: &'a ConditionalName) -> Option<&'a InternalName>
        ensures { option_copied result ≡ found (names_of self.now) name.now }
    {
        self.find_declared(name.reference_type(), name.possibilities())
    }

    /// Whether another name that a reference may stand for is declared as what it may be.
    fn is_other_declared(&self, name: &ConditionalName) -> bool
        ensures { result ≡ is_some (find
            (λ p. is_declared (names_of self.now) (kind_of name.now) (components p))
            (possibilities_of name.now).tail) }
    {
        let mut others = name.possibilities();
        others.next();
        self.find_declared(name.reference_type(), others).is_some()
    }
}
