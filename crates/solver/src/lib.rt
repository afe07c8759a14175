// The solver: for every node what is surely denied and surely granted, by the two equation systems.
#![tactic(auto)]

ghost use Rattle.std.specs.Prelude.{◌≡◌, ◌≤◌, ◌<◌, length, get_or};
ghost use Rattle.graph.specs.Graph.{node_at, Shape, Acceptable, Content};
ghost use Rattle.graph.specs.Lent.{lent, node_numbers};
ghost use Rattle.flow.specs.Walk.{system_of, counts_num, arrive};
ghost use Rattle.solver.specs.Solve.{Long, stored, SameSets, Solves};
ghost use Rattle.solver.specs.Walks.{Walkable, HasSums, Leaves, Brings, state_of, sent, Walks, Settles, Carries, NodesStored};

use flow::{Arrived, Leaving, System};
use graph::{LentGraph, Node, Refusal};
use sums::Sums;
use worklist::{EdgeLists, Pending};

// The slices that a caller lends to be written: what is denied and granted at each node, and what each edge carries by MAY and by SURE.
#[derive(Drop)]
pub struct SetPlaces<'a> {
    pub denied: &'a mut [u64],
    pub granted: &'a mut [u64],
    pub may: &'a mut [u64],
    pub sure: &'a mut [u64],
}

// What a walk goes over: a graph, the lists of its edges, and what the other system left: its sums, and MAY's out sets. MAY itself looks at
// neither. What has to be known of it is a clause (`Walkable`), since the prover covers no ghost field beside a `&mut`, which it holds structs of.
#[derive(Clone, Copy)]
struct Ground<'a> {
    system: System,
    graph: LentGraph<'a>,
    lists: &'a EdgeLists<'a>,
    left: &'a Sums<'a>,
    sets: &'a SetPlaces<'a>,
}

// What an edge brings: to which node, which set, and whether it counts there.
#[derive(Clone, Copy)]
struct Brought {
    to: usize,
    set: u64,
    counted: bool,
}

impl Ground<'_> {
    // `judge` has one of its own: shared it would be public, and a public call has no `requires`.
    fn node(&self, i: usize) -> Node
        requires walkable { Walkable self.now }
        requires i_in_bounds { i < self.now.graph.size.n }
        ensures { node_numbers result ≡ node_at (lent self.now.graph).nodes i }
    {
        let nodes = &self.graph.nodes;
        Node {
            kind: nodes.kinds[i],
            check: nodes.checks[i],
            privileged: nodes.privileged[i],
            entry: nodes.entries[i],
            grants: nodes.grants[i],
        }
    }

    // Whether the set v of edge e counts at the node that it arrives at. Most nodes are no checks, and MAY judges a set by itself: there
    // no other set is read.
    fn counts_at(&self, node: Node, e: usize, v: u64) -> bool
        requires { e < length self.now.sets.now.may.now }
        ensures { result ≡ counts_num (system_of self.now.system) node.kind node.check (get_or self.now.sets.now.may.now e 0) v }
    {
        if node.kind != graph::KIND_CHECK {
            return false;
        }
        let wide = match self.system {
            System::May => v,
            System::Sure => self.sets.may[e],
        };
        flow::counts(self.system, node.kind, node.check, wide, v)
    }

    // What edge e brings of what leaves its from node.
    fn bring(&self, leaving: Leaving, e: usize) -> Brought
        requires walkable { Walkable self.now }
        requires e_in_bounds { e < self.now.graph.size.m }
        ensures { Brings self.now leaving e result }
    {
        let to = usize::from(self.graph.edges.tos[e]);
        let node = self.node(to);
        let set = flow::carry(self.graph.edges.ways[e], leaving, node.grants);
        Brought {
            to,
            set,
            counted: self.counts_at(node, e, set),
        }
    }

    // What leaves node i.
    fn leave(&self, sums: &Sums, i: usize) -> Leaving
        requires walkable { Walkable self.now }
        requires sums { HasSums self.now.graph.size.n sums.now }
        requires i_in_bounds { i < self.now.graph.size.n }
        ensures { Leaves self.now sums.now i result }
    {
        let arrived = Arrived {
            all: sums.ins[i],
            past: sums.past[i],
            any: self.left.past[i],
        };
        flow::leave(self.system, self.node(i), arrived)
    }
}

// The functions from here to `spread` are compiled into `store`, once for each system: there the compiler knows the system and how many places
// the sums have. Left as calls they take 23 to 43 % more instructions of the solver, on the texts of bench/peer.

// A set arrives at a node, which goes on the stack where that changed a sum of it.
#[inline(always)]
fn arrive(sums: &mut Sums, pending: &mut Pending, system: System, x: Brought)
    requires { (x.to < length sums.old.ins.now) × (x.to < length sums.old.past.now) }
    ensures { state_of sums.new pending.new ≡ arrive (system_of system) (state_of sums.old pending.old) x.to x.set x.counted }
{
    let changed = sums.deliver(system, x.to, x.set, x.counted);
    pending.put(x.to, changed);
}

// What leaves a node is brought to the nodes at the other ends of its edges, which start before `first`.
#[inline(always)]
fn send(sums: &mut Sums, pending: &mut Pending, ground: &Ground, leaving: Leaving, first: u16)
    requires walkable { Walkable ground.now }
    requires sums { HasSums ground.now.graph.size.n sums.old }
    requires first_in_bounds { first ≤ ground.now.graph.size.m }
    ensures { state_of sums.new pending.new ≡ sent ground.now leaving first (state_of sums.old pending.old) }
{
    let mut next = usize::from(first);
    while let Some(e) = next.checked_sub(1) {
        arrive(sums, pending, ground.system, ground.bring(leaving, e));
        next = usize::from(ground.lists.prev[e]);
    }
}

// Takes nodes from the stack and tells their edges, until there is none: a node is taken up again only after one of its sums changed.
#[inline(always)]
fn walk(sums: &mut Sums, pending: &mut Pending, ground: &Ground)
    requires walkable { Walkable ground.now }
    requires walking { Walks ground.now (state_of sums.old pending.old) }
    ensures walking { Walks ground.now (state_of sums.new pending.new) }
    ensures empty { pending.new.top ≡ 0 }
{
    while let Some(i) = pending.take() {
        let leaving = ground.leave(sums, i);
        send(sums, pending, ground, leaving, ground.lists.head[i]);
    }
}

// One system: the sums of its nodes, when no edge has anything more to tell.
#[inline(always)]
fn settle(sums: &mut Sums, ground: &Ground)
    requires walkable { Walkable ground.now }
    requires sums { HasSums ground.now.graph.size.n sums.old }
    ensures sums { HasSums ground.now.graph.size.n sums.new }
    ensures settled { Settles ground.now sums.new }
{
    let size = ground.graph.size;
    let mut marks = [worklist::MARKED; graph::MOST_NODES];
    let mut stack = [0u16; graph::MOST_NODES];
    sums.begin(ground.system, size.k, size.n, &ground.graph.nodes);
    worklist::fill(&mut stack, size.n);
    let mut pending = Pending {
        marks: &mut marks,
        stack: &mut stack,
        top: size.n,
    };
    walk(sums, &mut pending, ground);
}

// The out sets of one system's edges.
#[inline(always)]
fn spread(out: &mut [u64], system: System, graph: &LentGraph, left: &Sums, sums: &Sums)
    requires acceptable { Acceptable (lent graph.now) }
    requires left { HasSums graph.now.size.n left.now }
    requires sums { HasSums graph.now.size.n sums.now }
    requires out_long { graph.now.size.m ≤ length out.old }
    ensures { Carries (lent graph.now) (system_of system) left.now sums.now out.new }
{
    round::spread(out, system, graph, left.past, sums.ins, sums.past);
}

// The denied and granted sets of all nodes, from the sums of both systems. (`sums::begin_all` says why it has a loop of this shape, too.)
fn store_nodes(into: &mut SetPlaces, graph: &LentGraph, may: &Sums, sure: &Sums)
    requires shape { Shape (lent graph.now) }
    requires long { Long (lent graph.now) (stored into.old) }
    requires may { HasSums graph.now.size.n may.now }
    requires sure { HasSums graph.now.size.n sure.now }
    ensures { NodesStored (lent graph.now) may.now sure.now into.old into.new graph.now.size.n }
{
    for i in 0..graph.size.n {
        let mark = graph.nodes.privileged[i];
        let own = graph.nodes.grants[i];
        into.denied[i] = flow::deny(graph.size.k, mark, own, may.ins[i]);
        into.granted[i] = flow::called(mark, own, sure.ins[i]);
    }
}

// The content of the four slices for an accepted graph.
fn store(graph: &LentGraph, into: &mut SetPlaces)
    requires acceptable { Acceptable (lent graph.now) }
    requires long { Long (lent graph.now) (stored into.old) }
    ensures content { Content (lent graph.now) (stored into.new) }
    ensures same_places { SameSets into.old into.new }
{
    let mut head = [0u16; graph::MOST_NODES];
    let mut prev = [0u16; graph::MOST_EDGES];
    let mut lists = EdgeLists {
        head: &mut head,
        prev: &mut prev,
    };
    lists.link(graph.edges.froms);
    let mut may_ins = [0u64; graph::MOST_NODES];
    let mut may_past = [0u64; graph::MOST_NODES];
    let mut may = Sums {
        ins: &mut may_ins,
        past: &mut may_past,
    };
    let mut sure_ins = [0u64; graph::MOST_NODES];
    let mut sure_past = [0u64; graph::MOST_NODES];
    let mut sure = Sums {
        ins: &mut sure_ins,
        past: &mut sure_past,
    };
    let ground = Ground {
        system: System::May,
        graph: *graph,
        lists: &lists,
        left: &sure,
        sets: into,
    };
    settle(&mut may, &ground);
    spread(into.may, System::May, graph, &sure, &may);
    let ground = Ground {
        system: System::Sure,
        graph: *graph,
        lists: &lists,
        left: &may,
        sets: into,
    };
    settle(&mut sure, &ground);
    spread(into.sure, System::Sure, graph, &may, &sure);
    store_nodes(into, graph, &may, &sure);
}

// Solves both systems, and stores the denied and granted sets of every node and the MAY and SURE out sets of every edge. A refusal
// stores nothing.
pub fn solve(graph: &LentGraph, into: &mut SetPlaces) -> Result<(), Refusal>
    ensures solves { Solves (lent graph.now) (stored into.old) result (stored into.new) }
    ensures same_places { SameSets into.old into.new }
{
    let long = rules::results_long(
        graph.size.n,
        graph.size.m,
        into.denied.len(),
        into.granted.len(),
        into.may.len(),
        into.sure.len(),
    );
    if !long {
        return Err(Refusal::Shape);
    }
    judge::check(graph)?;
    store(graph, into);
    Ok(())
}
