// One round of the equations by slices, for any solver and any judge of out sets: from the sums of the nodes to the out sets of the edges, and
// from these to the sums. Of a graph's size K alone is looked at: there are as many nodes as kinds, and as many edges as from nodes.
#![tactic(auto)]

ghost use Rattle.std.specs.Prelude.{◌≡◌, ◌<◌, length, get_or};
ghost use Rattle.truth.specs.Truth.{Says};
ghost use Rattle.graph.specs.Lent.{lent};
ghost use Rattle.flow.specs.Walk.{system_of, carried};
ghost use Rattle.sums.specs.Sums.{SameSums};
ghost use Rattle.round.specs.Round.{Room, EndsLow, Carriable, CanSpread, SpreadAll, Spreads, ins_to, past_to, Gatherable, Gathers};

use flow::{Arrived, System};
use graph::{LentGraph, Node};
use sums::Sums;

// Whether there is a place for each node and each edge.
fn have_room(graph: &LentGraph, any: &[u64], ins: &[u64], past: &[u64], out: &[u64]) -> bool
    ensures { Says (Room (lent graph.now) any.now ins.now past.now out.now) result }
{
    let n = graph.nodes.kinds.len();
    let m = graph.edges.froms.len();
    n <= graph.nodes.checks.len()
        && n <= graph.nodes.privileged.len()
        && n <= graph.nodes.grants.len()
        && n <= any.len()
        && n <= ins.len()
        && n <= past.len()
        && graph.edges.tos.len() == m
        && m <= graph.edges.ways.len()
        && m <= out.len()
}

// Whether all ends of edges are nodes below n, whose numbers 16 bits hold.
fn ends_low(n: usize, froms: &[u16], tos: &[u16]) -> bool
    ensures { Says (EndsLow n froms.now tos.now) result }
{
    n <= worklist::LARGEST && worklist::all_below(froms, n) && worklist::all_below(tos, n)
}

fn can_spread(graph: &LentGraph, any: &[u64], ins: &[u64], past: &[u64], out: &[u64]) -> bool
    ensures { Says (CanSpread (lent graph.now) any.now ins.now past.now out.now) result }
{
    let n = graph.nodes.kinds.len();
    have_room(graph, any, ins, past, out) && ends_low(n, graph.edges.froms, graph.edges.tos)
}

// The out set of edge e.
fn out_of(
    system: System,
    e: usize,
    graph: &LentGraph,
    any: &[u64],
    ins: &[u64],
    past: &[u64],
) -> u64
    requires { Carriable (lent graph.now) any.now ins.now past.now e }
    ensures { result ≡ carried (lent graph.now) (system_of system) any.now ins.now past.now e }
{
    let a = graph.edges.froms[e] as usize;
    let b = graph.edges.tos[e] as usize;
    // No entry mark tells what leaves a node, and a caller need not lend them.
    let node = Node {
        kind: graph.nodes.kinds[a],
        check: graph.nodes.checks[a],
        privileged: graph.nodes.privileged[a],
        entry: 0,
        grants: graph.nodes.grants[a],
    };
    let arrived = Arrived {
        all: ins[a],
        past: past[a],
        any: any[a],
    };
    let leaving = flow::leave(system, node, arrived);
    flow::carry(graph.edges.ways[e], leaving, graph.nodes.grants[b])
}

fn spread_all(
    out: &mut [u64],
    system: System,
    graph: &LentGraph,
    any: &[u64],
    ins: &[u64],
    past: &[u64],
)
    requires { CanSpread (lent graph.now) any.now ins.now past.now out.old }
    ensures { SpreadAll (lent graph.now) (system_of system) any.now ins.now past.now out.old out.new }
{
    for e in 0..graph.edges.froms.len() {
        out[e] = out_of(system, e, graph, any, ins, past);
    }
}

// The out sets of all edges, from the sums of the nodes. SURE is told by MAY's sums of what passes, `any`, where anything does. Whether they
// were stored: nothing is where a slice has no place for each node or edge, or an edge's end is no node. The sums are two slices, and no `Sums`, which
// is lent to be written.
pub fn spread(
    out: &mut [u64],
    system: System,
    graph: &LentGraph,
    any: &[u64],
    ins: &[u64],
    past: &[u64],
) -> bool
    ensures { Spreads (lent graph.now) (system_of system) any.now ins.now past.now out.old result out.new }
{
    let can = can_spread(graph, any, ins, past, out);
    if can {
        spread_all(out, system, graph, any, ins, past);
    }
    can
}

// Whether every edge ends at a node, which 16 bits hold, and has both out sets.
fn can_gather(graph: &LentGraph, wide: &[u64], out: &[u64]) -> bool
    ensures { Says (Gatherable (lent graph.now) wide.now out.now) result }
{
    let n = graph.nodes.kinds.len();
    let tos = graph.edges.tos;
    n <= worklist::LARGEST
        && n <= graph.nodes.checks.len()
        && tos.len() <= wide.len()
        && tos.len() <= out.len()
        && worklist::all_below(tos, n)
}

fn gather_all(sums: &mut Sums, system: System, graph: &LentGraph, wide: &[u64], out: &[u64])
    requires { Gatherable (lent graph.now) wide.now out.now }
    ensures slices { SameSums sums.old sums.new }
    ensures ins { sums.new.ins.now ≡ ins_to (lent graph.now) (system_of system) out.now (length graph.now.edges.tos.now) sums.old.ins.now }
    ensures past { sums.new.past.now ≡ past_to (lent graph.now) (system_of system) wide.now out.now (length graph.now.edges.tos.now) sums.old.past.now }
{
    for e in 0..graph.edges.tos.len() {
        let b = graph.edges.tos[e] as usize;
        let v = out[e];
        let kind = graph.nodes.kinds[b];
        let counted = flow::counts(system, kind, graph.nodes.checks[b], wide[e], v);
        sums.deliver(system, b, v, counted);
    }
}

// The sums of the nodes, from the out sets of all edges. SURE judges what passes a check by MAY's out sets, `wide`. Whether they were stored:
// nothing is where a slice has no place for each node or edge, or an edge ends at no node.
pub fn gather(sums: &mut Sums, system: System, graph: &LentGraph, wide: &[u64], out: &[u64]) -> bool
    ensures slices { SameSums sums.old sums.new }
    ensures gathered { Gathers (lent graph.now) (system_of system) wide.now out.now sums.old.ins.now sums.old.past.now result sums.new.ins.now sums.new.past.now }
{
    let n = graph.nodes.kinds.len();
    let begun = can_gather(graph, wide, out) && sums.begin(system, graph.size.k, n, &graph.nodes);
    if begun {
        gather_all(sums, system, graph, wide, out);
    }
    begun
}
