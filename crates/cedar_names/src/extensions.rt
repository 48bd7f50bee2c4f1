// SPDX-License-Identifier: Apache-2.0
ghost use Rattle.std.specs.Prelude.{◌≡◌, [], ◌∷◌, ◌++◌, ℕ, List, Some, None, false, not, IsTrue, IfOk, length, codes};
ghost use Rattle.std.specs.List.{list_any};
ghost use Rattle.std.specs.List.Sorted.{IsStrictlySortedBy};
ghost use Rattle.cedar_names.specs.ExtensionFaults.{naming_fault, extensions_fault};
ghost use Rattle.cedar_text.specs.Failures.{IfRefused};
ghost use Rattle.cedar_names.specs.Identifiers.{unreserved_word, unreserved_words};
ghost use Rattle.cedar_names.specs.Order.{word_cmp};
ghost use Rattle.cedar_text.specs.Words.{has_word, is_primitive_word, is_unreserved_id};

use crate::id::UnreservedId;
use cedar_text::{Dup, Failure, Mem, NameFault, Out, Set, SetIter, Span, Text, is_primitive_word};
use std::alloc::Global;
use std::error::Error;
use std::fmt;

/// Names of extension types, in their order.
pub type ExtIter<'a> = SetIter<'a, UnreservedId>;

/// The names of the extension types that a schema may use: distinct, and none that of a primitive type.
#[derive(Debug, Drop, PartialEq, Eq)]
pub struct Extensions {
    types: Set<UnreservedId>,
    pub ghost no_primitive: { IsTrue (not (list_any is_primitive_word (unreserved_words types))) },
}

/// What is wrong with a list of names of extension types.
#[derive(Debug, Drop, PartialEq, Eq)]
pub enum ExtensionsFault {
    /// The name at this index is no name of a type.
    BadName { index: usize, fault: NameFault },
    /// The name stands in the list before.
    RepeatedName { name: Text },
    /// The name is that of a primitive type.
    PrimitiveName { name: Text },
}

/// The identifier of the extension type `name`; refused with what is wrong with the name by itself.
fn extension_id(alloc: Global, index: usize, name: &str) -> Out<UnreservedId, ExtensionsFault>
    ensures ok { IfOk result (λ id. (naming_fault index name.now ≡ None)
        × (unreserved_word id ≡ name.now)) }
    ensures refused { IfRefused result (λ fault. naming_fault index name.now ≡ Some fault) }
{
    let id = match UnreservedId::from_normalized_str(alloc, name) {
        Ok(id) => id,
        Err(Failure::Refused(fault)) => return Err(Failure::Refused(ExtensionsFault::BadName {
            index,
            fault,
        })),
        Err(Failure::NoMemory) => return Err(Failure::NoMemory),
    };
    if is_primitive_word(name) {
        let name = Text::new(alloc, name)?;
        return Err(Failure::Refused(ExtensionsFault::PrimitiveName { name }));
    }
    Ok(id)
}

impl Extensions {
    ghost use Rattle.cedar_names.specs.Extensions.{extension_types, extension_words};

    /// The extension types of these names; refused with the first fault from the left.
    pub fn new(alloc: Global, names: &[Text]) -> Out<Extensions, ExtensionsFault>
        ensures ok { IfOk result (λ x. extensions_fault [] names.now ≡ None) }
        ensures words { IfOk result (λ x. (w : List ℕ) → has_word (extension_words x) w
            ≡ has_word names.now w) }
        ensures ascending { IfOk result (λ x. IsStrictlySortedBy word_cmp (extension_words x)) }
        ensures refused { IfRefused result (λ fault. extensions_fault [] names.now ≡ Some fault) }
    {
        let mut types = Set::new(alloc);
        for (index, name) in names.iter().enumerate() {
            let id = extension_id(alloc, index, name.as_str())?;
            if !types.insert(id)? {
                let name = name.dup(alloc)?;
                return Err(Failure::Refused(ExtensionsFault::RepeatedName { name }));
            }
        }
        Ok(Extensions { types })
    }

    /// No extension types.
    pub fn none(alloc: Global) -> Extensions
        ensures { extension_words result ≡ [] }
    {
        Extensions {
            types: Set::new(alloc),
        }
    }

    /// All extension types that there are.
    pub fn all_available(alloc: Global) -> Mem<Extensions>
        ensures { IfOk result (λ x. extension_words x ≡ codes "datetime" ∷ codes "decimal"
            ∷ codes "duration" ∷ codes "ipaddr" ∷ []) }
    {
        let mut types = Set::new(alloc);
        types.insert(UnreservedId::known(alloc, "datetime")?)?;
        types.insert(UnreservedId::known(alloc, "decimal")?)?;
        types.insert(UnreservedId::known(alloc, "duration")?)?;
        types.insert(UnreservedId::known(alloc, "ipaddr")?)?;
        Ok(Extensions { types })
    }

    /// The names, in order.
    pub fn ext_types(&self) -> ExtIter<'_>
        ensures rest { result ≡ extension_types self.now }
        ensures ascending { IsStrictlySortedBy word_cmp (extension_words self.now) }
    {
        self.types.iter()
    }

    /// Whether `name` is one of them.
    pub fn contains(&self, name: &str) -> bool
        ensures { result ≡ has_word (extension_words self.now) name.now }
    {
        self.types.iter().any(|id| name == id.as_ref())
    }
}

impl Dup for Extensions {
    fn dup(&self, alloc: Global) -> Mem<Extensions> {
        let types = self.types.dup(alloc)?;
        Ok(Extensions { types })
    }
}

impl fmt::Display for ExtensionsFault {
    ghost use Rattle.cedar_names.specs.FaultTexts.{extensions_fault_text};

    ghost output = { λ fault. Some (extensions_fault_text fault) };

    fn fmt<W: fmt::Write>(&self, f: &mut fmt::Formatter<W>) -> fmt::Result {
        match self {
            ExtensionsFault::BadName { index: _, fault } => write!(
                f,
                "bad extension name: {fault}"
            ),
            ExtensionsFault::RepeatedName { name } => write!(
                f,
                "extension name `{name}` stands twice"
            ),
            ExtensionsFault::PrimitiveName { name } => write!(
                f,
                "extension name `{name}` is a primitive type"
            ),
        }
    }
}

impl ExtensionsFault {
    /// What to do about it: there is nothing to say.
    pub fn help(&self, _alloc: Global) -> Mem<Option<String>>
        ensures { IfOk result (λ help. help ≡ None) }
    {
        Ok(None)
    }

    /// The places of the kept pieces that have one: none has.
    pub fn spans(&self, alloc: Global) -> Mem<Vec<Span>>
        ensures { IfOk result (λ spans. spans.items ≡ []) }
    {
        Ok(Vec::new(alloc))
    }
}

impl Error for ExtensionsFault {}

impl Dup for ExtensionsFault {
    fn dup(&self, alloc: Global) -> Mem<ExtensionsFault> {
        match self {
            ExtensionsFault::BadName { index, fault } => {
                let fault = fault.dup(alloc)?;
                Ok(ExtensionsFault::BadName {
                    index: *index,
                    fault,
                })
            }
            ExtensionsFault::RepeatedName { name } => {
                let name = name.dup(alloc)?;
                Ok(ExtensionsFault::RepeatedName { name })
            }
            ExtensionsFault::PrimitiveName { name } => {
                let name = name.dup(alloc)?;
                Ok(ExtensionsFault::PrimitiveName { name })
            }
        }
    }
}
