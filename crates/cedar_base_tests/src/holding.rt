// SPDX-License-Identifier: Apache-2.0
use cedar_data::{Dup, Mem};
use cedar_names::{EntityType, EntityUID, InternalName, Name, ReservedNameError};
use cedar_text::Loc;
use std::alloc::Global;
use std::fmt::{Debug, Display};
use std::test::Fail;

/// Ends a test with the first words of which what they say is wrong.
pub fn all_hold(answers: &[(&'static str, bool)]) -> Result<(), Fail> {
    for (words, is_right) in answers {
        if !*is_right {
            return Err(Fail::new(*words));
        }
    }
    Ok(())
}

/// Whether both values were made and are equal; none where one wasn't made.
pub fn are_equal<T: PartialEq + Drop>(left: Option<T>, right: Option<T>) -> Option<bool> {
    match (left, right) {
        (Some(left), Some(right)) => Some(left == right),
        _ => None,
    }
}

/// Whether a value was made, and a copy of it equals it and is printed alike, places included.
pub fn is_copied<T: Dup + Debug + PartialEq + Drop>(alloc: Global, made: Option<T>) -> bool {
    match made {
        Some(value) => match value.dup(alloc) {
            Ok(copy) => copy == value && is_printed_alike(alloc, &copy, &value),
            Err(_) => false,
        },
        None => false,
    }
}

/// Whether both values are printed alike, places included.
fn is_printed_alike<T: Debug>(alloc: Global, left: &T, right: &T) -> bool {
    match (printed(alloc, left), printed(alloc, right)) {
        (Ok(left), Ok(right)) => left.as_str() == right.as_str(),
        _ => false,
    }
}

fn printed<T: Debug>(alloc: Global, value: &T) -> Mem<String> {
    Ok(format!(in alloc; "{value:?}")?)
}

/// Whether a value was made, and is written as this text.
pub fn is_written<T: Display + Drop>(alloc: Global, made: Option<T>, text: &str) -> bool {
    match made {
        Some(value) => match written(alloc, &value) {
            Ok(written) => written.as_str() == text,
            Err(_) => false,
        },
        None => false,
    }
}

fn written<T: Display>(alloc: Global, value: &T) -> Mem<String> {
    Ok(format!(in alloc; "{value}")?)
}

/// Whether there is no help, and memory for it didn't lack.
pub fn has_no_help(help: Mem<Option<String>>) -> bool {
    matches!(&help, Ok(None))
}

/// A value that may have a place.
pub trait Placed {
    fn place(&self) -> Option<&Loc>;
}

impl Placed for InternalName {
    fn place(&self) -> Option<&Loc> {
        self.loc()
    }
}

impl Placed for ReservedNameError {
    fn place(&self) -> Option<&Loc> {
        self.name.loc()
    }
}

impl Placed for Name {
    fn place(&self) -> Option<&Loc> {
        self.as_internal().loc()
    }
}

impl Placed for EntityType {
    fn place(&self) -> Option<&Loc> {
        self.loc()
    }
}

impl Placed for EntityUID {
    fn place(&self) -> Option<&Loc> {
        self.loc()
    }
}

/// Whether a value with a place was made, and a copy of it equals it and has its place.
pub fn is_copied_in_place<T: Dup + PartialEq + Placed + Drop>(
    alloc: Global,
    made: Option<T>,
) -> bool {
    match made {
        Some(value) => match value.dup(alloc) {
            Ok(copy) => { copy == value && copy.place().is_some() && copy.place() == value.place() }
            Err(_) => false,
        },
        None => false,
    }
}
