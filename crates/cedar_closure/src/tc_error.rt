// SPDX-License-Identifier: Apache-2.0
use crate::tc_node::TcKey;
use cedar_names::{Dup, Mem, Span};
use std::alloc::Global;
use std::error::Error;
use std::fmt;

/// Why there is no closure.
#[derive(Debug, Drop, PartialEq, Eq)]
pub enum TcError<K> {
    /// The key reaches itself. It is the least that does.
    HasCycle { vertex: K },
    /// An edge of the closure is missing at the key.
    MissingTcEdge { vertex: K },
}

impl<K: fmt::Display> fmt::Display for TcError<K> {
    ghost use Rattle.cedar_closure.specs.TcErrors.{tc_error_text};

    ghost output = { tc_error_text K.output };

    fn fmt<W: fmt::Write>(&self, f: &mut fmt::Formatter<W>) -> fmt::Result {
        match self {
            TcError::HasCycle { vertex } => write!(f, "cycle containing `{vertex}`"),
            TcError::MissingTcEdge { vertex } => write!(f, "missing edge at `{vertex}`"),
        }
    }
}

impl<K> TcError<K> {
    ghost use Rattle.std.specs.Prelude.{◌≡◌, None, IfOk};

    /// What to do about it: there is nothing to say.
    pub fn help(&self, _alloc: Global) -> Mem<Option<String>>
        ensures { IfOk result (λ help. help ≡ None) }
    {
        Ok(None)
    }
}

impl<K: TcKey> TcError<K> {
    ghost use Rattle.std.specs.Prelude.{◌≡◌, IfOk, option_to_list};
    ghost use Rattle.cedar_closure.specs.TcErrors.{vertex_of};

    /// The place of the kept key, if it has one.
    pub fn spans(&self, alloc: Global) -> Mem<Vec<Span>>
        ensures { IfOk result (λ spans. spans.items
            ≡ option_to_list (K.source_range (vertex_of self.now))) }
    {
        let vertex = match self {
            TcError::HasCycle { vertex } => vertex,
            TcError::MissingTcEdge { vertex } => vertex,
        };
        let mut spans = Vec::new(alloc);
        if let Some(span) = vertex.source_range() {
            spans.push(span)?;
        }
        Ok(spans)
    }
}

impl<K: fmt::Debug + fmt::Display + Drop> Error for TcError<K> {}

impl<K: Dup + Drop> Dup for TcError<K> {
    fn dup(&self, alloc: Global) -> Mem<TcError<K>> {
        match self {
            TcError::HasCycle { vertex } => {
                let vertex = vertex.dup(alloc)?;
                Ok(TcError::HasCycle { vertex })
            }
            TcError::MissingTcEdge { vertex } => {
                let vertex = vertex.dup(alloc)?;
                Ok(TcError::MissingTcEdge { vertex })
            }
        }
    }
}
