// SPDX-License-Identifier: Apache-2.0
use crate::steps::Steps;
use cedar_data::{Near, Text};
use cedar_names::{InternalName, UnreservedId};
use std::sync::ledger::Ledger;

/// The head of a written type, with what stands in it lent. All names are full names.
#[derive(Debug, Drop)]
pub enum Looked<'a, T> {
    /// True or false.
    Bool,
    /// Whole numbers.
    Long,
    /// Texts.
    String,
    /// Sets of elements of this type.
    Set(&'a T),
    /// A record, whose attributes `next_attribute` gives.
    Record {
        /// Whether it may have other attributes.
        is_open: bool,
    },
    /// Entities of this entity type.
    Entity(&'a InternalName),
    /// A common type of this name where there is one, else an entity type.
    EntityOrCommon(&'a InternalName),
    /// The common type of this name.
    Common(&'a InternalName),
    /// The extension type of this name.
    Extension(&'a UnreservedId),
}

/// A written type over full names, which is known by looking at it.
pub trait TypeNode: Sized {
    ghost use Rattle.std.specs.Prelude.{◌≡◌, ◌+◌, option_map};
    ghost use Rattle.std.specs.Option.{option_copied};
    ghost use Rattle.std.specs.List.Sorted.{IsStrictlySortedBy};
    ghost use Rattle.std.specs.Cmp.Lexicographic.{slice_cmp};
    ghost use Rattle.std.specs.Ordering.{nat_cmp};
    ghost use Rattle.cedar_schema_error.specs.FullNames.{FullName};
    ghost use Rattle.cedar_unfold.specs.Following.{labels, next_attribute};
    ghost use Rattle.cedar_unfold.specs.Heads.{Tells, IsRecord, attributes_of};
    ghost use Rattle.cedar_unfolding.specs.Written.{Written};

    /// The written type that it is.
    ghost written: { Self → Written FullName };

    /// The head. It is one step.
    fn look<L: Ledger>(&self, steps: &mut Steps<L>) -> Looked<'_, Self>
        ensures tells { Tells written result (written self.now) }
        ensures counts { steps.new ≡ steps.old + 1 };

    /// The attribute that follows the name in the order of names, or the first one: its name, its type, and whether it
    /// is required. Only of a record. The search begins where the last one ended, which `near` tells.
    fn next_attribute(&self, near: &mut Near, after: Option<&Text>) -> Option<(&Text, &Self, bool)>
        requires { IsRecord (written self.now) }
        ensures next { option_map (λ a. (a.0.now, written a.1.now, a.2)) result
            ≡ next_attribute (option_copied after.entry) (attributes_of (written self.now)) }
        ensures ordered { IsStrictlySortedBy (slice_cmp nat_cmp)
            (labels (attributes_of (written self.now))) };

    /// For how many attributes room is made where it is a record. It makes no difference to what is made.
    fn room(&self) -> usize {
        0
    }
}
