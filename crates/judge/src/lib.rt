// Whether what a caller lends is a graph, or the lowest refusal that applies.
#![tactic(auto)]

ghost use Rattle.std.specs.Prelude.{◌≡◌, ◌<◌};
ghost use Rattle.truth.specs.Truth.{Says, Finds};
ghost use Rattle.graph.specs.Graph.{node_at, Shape, NodeObeys, EdgeObeys};
ghost use Rattle.graph.specs.Lent.{lent, node_numbers};
ghost use Rattle.graph.specs.Judge.{Judges};

use graph::{LentGraph, Node, Refusal};

// The solver has one of its own: shared it would be public, and a public call has no `requires`.
fn node(graph: &LentGraph, i: usize) -> Node
    requires shape { Shape (lent graph.now) }
    requires i_in_bounds { i < graph.now.size.n }
    ensures { node_numbers result ≡ node_at (lent graph.now).nodes i }
{
    Node {
        kind: graph.nodes.kinds[i],
        check: graph.nodes.checks[i],
        privileged: graph.nodes.privileged[i],
        entry: graph.nodes.entries[i],
        grants: graph.nodes.grants[i],
    }
}

// Of a graph that has its shape, which is known of four functions here and of no struct: one for these alone would be no plainer.
fn first_bad_node(graph: &LentGraph) -> Option<usize>
    requires { Shape (lent graph.now) }
    ensures { Finds (NodeObeys (lent graph.now)) graph.now.size.n result }
{
    (0..graph.size.n).find(|i| !rules::node_obeys(graph.size.k, node(graph, *i)))
}

fn edge_obeys(graph: &LentGraph, e: usize) -> bool
    requires shape { Shape (lent graph.now) }
    requires e_in_bounds { e < graph.now.size.m }
    ensures { Says (EdgeObeys (lent graph.now) e) result }
{
    let from = usize::from(graph.edges.froms[e]);
    let to = usize::from(graph.edges.tos[e]);
    from < graph.size.n
        && to < graph.size.n
        && rules::ends_obey(
            graph.edges.ways[e],
            graph.nodes.kinds[from],
            graph.nodes.grants[from],
            graph.nodes.grants[to],
        )
}

fn first_bad_edge(graph: &LentGraph) -> Option<usize>
    requires { Shape (lent graph.now) }
    ensures { Finds (EdgeObeys (lent graph.now)) graph.now.size.m result }
{
    (0..graph.size.m).find(|e| !edge_obeys(graph, *e))
}

// Whether the lent slices are a graph, or the lowest refusal that applies.
pub fn check(graph: &LentGraph) -> Result<(), Refusal>
    ensures { Judges (lent graph.now) result }
{
    if !rules::has_shape(graph.size, graph.nodes.lengths(), graph.edges.lengths()) {
        return Err(Refusal::Shape);
    }
    if let Some(i) = first_bad_node(graph) {
        return Err(Refusal::Node(i));
    }
    if let Some(e) = first_bad_edge(graph) {
        return Err(Refusal::Edge(e));
    }
    if !graph.nodes.entries.contains(&graph::MARKED) {
        return Err(Refusal::NoEntry);
    }
    Ok(())
}
