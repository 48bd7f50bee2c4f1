// SPDX-License-Identifier: Apache-2.0
ghost use Rattle.std.specs.Prelude.{◌≡◌, List, Option, None, OnOk, OnErr};
ghost use Rattle.std.specs.Option.{option_map};
ghost use Rattle.std.specs.BTreeSet.{insert_key};
ghost use Rattle.std.specs.List.Sorted.{IsStrictlySortedBy};
ghost use Rattle.cedar_names.specs.of_data.Sets.{contains, Adds};
ghost use Rattle.cedar_names.specs.EntityUids.{place_of};
ghost use Rattle.cedar_names.specs.of_text.Places.{span_of};
ghost use Rattle.cedar_names.specs.of_text.declared.location.Span.{Span};
ghost use Rattle.cedar_closure.specs.TcErrors.{type_place};

use cedar_names::{Dup, EntityType, EntityUID, Loc, Mem, SetIter, Span};

/// What names a node of a graph. Keys are compared by their order.
pub trait TcKey: Ord + Dup + Drop {
    /// The range of the text that the key was read from, if it has one.
    ghost source_range: { Self → Option Span };

    /// The range of the text that the key was read from, if it has one.
    fn source_range(&self) -> Option<Span>
        ensures { result ≡ source_range self.now };
}

impl TcKey for u32 {
    ghost source_range = { λ _. None };

    fn source_range(&self) -> Option<Span> {
        None
    }
}

impl TcKey for EntityType {
    ghost source_range = { λ ty. option_map span_of (type_place ty) };

    fn source_range(&self) -> Option<Span> {
        self.loc().map(Loc::span)
    }
}

impl TcKey for EntityUID {
    ghost source_range = { λ uid. option_map span_of (place_of uid) };

    fn source_range(&self) -> Option<Span> {
        self.loc().map(Loc::span)
    }
}

/// A node of a graph: its key, its edges, which lead to keys, and a rest.
pub trait TcNode<K: TcKey>: Drop {
    /// The key of the node.
    ghost key: { Self → K };

    /// The keys that its edges lead to, each once, in their order.
    ghost edges: { Self → List K };

    /// The node without its edges.
    ghost rest: { Self → Self };

    /// The key of the node.
    fn get_key(&self) -> &K
        ensures { result.now ≡ key self.now };

    /// Adds an edge to `k`. An edge to an equal key that is there stays. It fails only for want of memory, and then
    /// changes nothing.
    fn add_edge_to(&mut self, k: K) -> Mem<()>
        ensures ok { OnOk result (edges self.new ≡ insert_key K.cmp (edges self.old) k) }
        ensures adds { OnOk result (Adds K.cmp (edges self.old) (edges self.new) k) }
        ensures ordered { OnOk result (IsStrictlySortedBy K.cmp (edges self.new)) }
        ensures same_key { OnOk result (key self.new ≡ key self.old) }
        ensures same_rest { OnOk result (rest self.new ≡ rest self.old) }
        ensures err { OnErr result (self.new ≡ self.old) };

    /// Whether an edge leads to `k`.
    fn has_edge_to(&self, k: &K) -> bool
        ensures { result ≡ contains K.cmp (edges self.now) k.now };

    /// The keys that the edges lead to, each once, in their order.
    fn out_edges(&self) -> SetIter<'_, K>
        ensures all { result ≡ edges self.now }
        ensures ordered { IsStrictlySortedBy K.cmp (edges self.now) };

    /// The rest is all that a node has beside its key and its edges.
    ghost whole: { (a b : Self) → key a ≡ key b → edges a ≡ edges b → rest a ≡ rest b → a ≡ b };
}
