// Hands a graph over: judges what the first places of slices hold, and copies it to the places that a caller lends where it is accepted.
#![tactic(auto)]

ghost use Rattle.std.specs.Prelude.{◌≡◌, ◌≤◌, length, take};
ghost use Rattle.std.proofs.lemmas.List.Edits.{sets};
ghost use Rattle.graph.specs.Graph.{map_node, map_edge, NodesLong, EdgesLong, Ranges};
ghost use Rattle.graph.specs.Lent.{lent, nodes_lent, edges_lent, node_places, edge_places};
ghost use Rattle.handover.specs.Handover.{lists_lent, places, node_names, edge_names, SamePlaces, Room, held_graph, NodesWritten, EdgesWritten, HeldJudged, HandsOver};

use graph::{EdgePlaces, GraphPlaces, LentEdges, LentGraph, LentNodes, NodePlaces, Refusal, Size};

// Copies the first n places.
fn copy<T: Copy>(to: &mut [T], from: &[T], n: usize)
    requires { (n ≤ length from.now) × (n ≤ length to.old) }
    ensures { to.new ≡ sets to.old 0 (take n from.now) }
{
    to[..n].copy_from_slice(&from[..n]);
}

// Copies what n nodes have.
fn store_nodes(into: &mut NodePlaces, held: &LentNodes, n: usize)
    requires counted { n ≤ 1024 }
    requires room { NodesLong 1024 (map_node length (node_places into.old)) }
    requires full { NodesLong 1024 (map_node length (nodes_lent held.now)) }
    ensures stored { NodesWritten (node_places into.old) (map_node (take n) (nodes_lent held.now)) (node_places into.new) }
    ensures same_places { node_names into.new ≡ node_names into.old }
{
    copy(into.kinds, held.kinds, n);
    copy(into.checks, held.checks, n);
    copy(into.privileged, held.privileged, n);
    copy(into.entries, held.entries, n);
    copy(into.grants, held.grants, n);
}

// Copies what m edges have.
fn store_edges(into: &mut EdgePlaces, held: &LentEdges, m: usize)
    requires counted { m ≤ 4096 }
    requires room { EdgesLong 4096 (map_edge length (edge_places into.old)) }
    requires full { EdgesLong 4096 (map_edge length (edges_lent held.now)) }
    ensures stored { EdgesWritten (edge_places into.old) (map_edge (take m) (edges_lent held.now)) (edge_places into.new) }
    ensures same_places { edge_names into.new ≡ edge_names into.old }
{
    copy(into.froms, held.froms, m);
    copy(into.tos, held.tos, m);
    copy(into.ways, held.ways, m);
}

// The graph that the first places of slices with room hold. `answer` has one of its own: shared they would be public, and a public call has no `requires`.
fn first_places<'a>(held: &LentGraph<'a>) -> LentGraph<'a>
    requires { Ranges held.now.size × Room (lists_lent held.now) }
    ensures { lent result ≡ held_graph held.now.size (lists_lent held.now) }
{
    let LentGraph { size, nodes, edges } = *held;
    let Size { n, m, .. } = size;
    LentGraph {
        size,
        nodes: LentNodes {
            kinds: &nodes.kinds[..n],
            checks: &nodes.checks[..n],
            privileged: &nodes.privileged[..n],
            entries: &nodes.entries[..n],
            grants: &nodes.grants[..n],
        },
        edges: LentEdges {
            froms: &edges.froms[..m],
            tos: &edges.tos[..m],
            ways: &edges.ways[..m],
        },
    }
}

// Judges what the first places hold.
fn judge(held: &LentGraph) -> Result<(), Refusal>
    ensures { HeldJudged held.now.size (lists_lent held.now) result }
{
    if !extent::has_room(held.nodes.lengths(), held.edges.lengths()) {
        return Err(Refusal::Shape);
    }
    if !rules::in_range(held.size) {
        return Err(Refusal::Shape);
    }
    judge::check(&first_places(held))
}

// Hands over the graph of this size that the first places of slices with room hold: stores it in the first places of the lent ones, or refuses and
// stores nothing.
pub fn hand_over(held: &LentGraph, into: &mut GraphPlaces) -> Result<(), Refusal>
    ensures handed { HandsOver held.now.size (lists_lent held.now) (places into.old) result (places into.new) }
    ensures same_places { SamePlaces into.old into.new }
{
    if !extent::has_room(into.nodes.lengths(), into.edges.lengths()) {
        return Err(Refusal::Shape);
    }
    judge(held)?;
    store_nodes(&mut into.nodes, &held.nodes, held.size.n);
    store_edges(&mut into.edges, &held.edges, held.size.m);
    Ok(())
}
