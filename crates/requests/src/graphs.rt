// The eight slices of a graph, in arrays of one place more than a graph may have.
ghost use Rattle.std.specs.Prelude.{◌<◌};

use super::numbers::{Lent, Rest};
use graph::{Edge, LentEdges, LentGraph, LentNodes, Node, Size};

pub(crate) const NODES: usize = graph::MOST_NODES + 1;

pub(crate) const EDGES: usize = graph::MOST_EDGES + 1;

#[derive(Drop)]
pub(crate) struct Slices {
    pub(crate) kinds: Lent<u8, NODES>,
    pub(crate) checks: Lent<u16, NODES>,
    pub(crate) privileged: Lent<u8, NODES>,
    pub(crate) entries: Lent<u8, NODES>,
    pub(crate) grants: Lent<u64, NODES>,
    pub(crate) froms: Lent<u16, EDGES>,
    pub(crate) tos: Lent<u16, EDGES>,
    pub(crate) ways: Lent<u8, EDGES>,
}

impl Slices {
    // The next eight lists of a request's numbers.
    pub(crate) fn take(rest: &mut Rest) -> Slices {
        let kinds = Lent::of(&rest.take_list());
        let checks = Lent::of(&rest.take_list());
        let privileged = Lent::of(&rest.take_list());
        let entries = Lent::of(&rest.take_list());
        let grants = Lent::of(&rest.take_list());
        let froms = Lent::of(&rest.take_list());
        let tos = Lent::of(&rest.take_list());
        let ways = Lent::of(&rest.take_list());
        Slices {
            kinds,
            checks,
            privileged,
            entries,
            grants,
            froms,
            tos,
            ways,
        }
    }

    pub(crate) fn blank() -> Slices {
        Slices {
            kinds: Lent::blank(NODES),
            checks: Lent::blank(NODES),
            privileged: Lent::blank(NODES),
            entries: Lent::blank(NODES),
            grants: Lent::blank(NODES),
            froms: Lent::blank(EDGES),
            tos: Lent::blank(EDGES),
            ways: Lent::blank(EDGES),
        }
    }

    pub(crate) fn graph(&self, size: Size) -> LentGraph<'_> {
        LentGraph {
            size,
            nodes: LentNodes {
                kinds: self.kinds.slice(),
                checks: self.checks.slice(),
                privileged: self.privileged.slice(),
                entries: self.entries.slice(),
                grants: self.grants.slice(),
            },
            edges: LentEdges {
                froms: self.froms.slice(),
                tos: self.tos.slice(),
                ways: self.ways.slice(),
            },
        }
    }

    // What every place of a node or an edge holds, lent or not.
    pub(crate) fn node(&self, i: usize) -> Node
        requires { i < 1025 }
    {
        Node {
            kind: self.kinds.places[i],
            check: self.checks.places[i],
            privileged: self.privileged.places[i],
            entry: self.entries.places[i],
            grants: self.grants.places[i],
        }
    }

    pub(crate) fn edge(&self, e: usize) -> Edge
        requires { e < 4097 }
    {
        Edge {
            from: self.froms.places[e],
            to: self.tos.places[e],
            way: self.ways.places[e],
        }
    }

    // Whether every place from node n and from edge m on holds what it held before the call.
    pub(crate) fn are_kept(&self, n: usize, m: usize) -> bool {
        self.kinds.is_kept(n)
            && self.checks.is_kept(n)
            && self.privileged.is_kept(n)
            && self.entries.is_kept(n)
            && self.grants.is_kept(n)
            && self.froms.is_kept(m)
            && self.tos.is_kept(m)
            && self.ways.is_kept(m)
    }
}
