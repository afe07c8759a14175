// How far slices and a text reach: whether slices have room for every graph, whether a text is short enough to be read, and whether it ends where its
// rows do; and arrays with that room.
#![tactic(auto)]

ghost use Rattle.std.specs.Prelude.{◌≡◌, length};
ghost use Rattle.truth.specs.Truth.{Says};
ghost use Rattle.graph.specs.Graph.{map_node, map_edge, NodesLong, EdgesLong};
ghost use Rattle.graph.specs.Lent.{lent, nodes_lent, edges_lent, node_lengths, edge_lengths, node_places, edge_places};
ghost use Rattle.extent.specs.Extent.{Ample, SizesSo, end_of};
ghost use Rattle.extent.specs.Room.{node_slots, edge_slots, slots_graph, Clear};

use graph::{
    EdgeLengths, EdgePlaces, GraphPlaces, LentEdges, LentGraph, LentNodes, MOST_EDGES, MOST_NODES,
    NodeLengths, NodePlaces, Refusal, Size,
};

// A text has at most so many bytes.
pub const MOST_BYTES: usize = 65536;

// Whether slices of these lengths have room for every graph, and no more.
pub fn has_room(nodes: NodeLengths, edges: EdgeLengths) -> bool
    ensures { Says (Ample (node_lengths nodes) (edge_lengths edges)) result }
{
    rules::nodes_long(MOST_NODES, nodes) && rules::edges_long(MOST_EDGES, edges)
}

// Refuses slices without room, and then a text that is too long.
pub fn judge_sizes(nodes: NodeLengths, edges: EdgeLengths, text: usize) -> Result<(), Refusal>
    ensures { SizesSo (node_lengths nodes) (edge_lengths edges) text result }
{
    if !has_room(nodes, edges) {
        return Err(Refusal::Shape);
    }
    if MOST_BYTES < text {
        return Err(Refusal::TooLong);
    }
    Ok(())
}

// The answer where the last rows of a text of this length ended so, past the last of them or at a wrong one, and a row after them would have the number
// `extra`.
#[tactic(auto, unfolding(crate::specs::Extent::end_of))]
pub fn end_text(
    ran: Result<usize, Refusal>,
    len: usize,
    extra: usize,
    counts: Size,
) -> Result<Size, Refusal>
    ensures { result ≡ end_of ran len extra counts }
{
    let past = ran?;
    if past < len {
        return Err(Refusal::Row(extra));
    }
    Ok(counts)
}

// Arrays with a place for every node that a graph may have, and for every edge: one for each slice that docs/RULES.md has of them, so that they can be
// lent as those.
#[derive(Drop)]
pub struct NodeSlots {
    pub kinds: [u8; MOST_NODES],
    pub checks: [u16; MOST_NODES],
    pub privileged: [u8; MOST_NODES],
    pub entries: [u8; MOST_NODES],
    pub grants: [u64; MOST_NODES],
}

#[derive(Drop)]
pub struct EdgeSlots {
    pub froms: [u16; MOST_EDGES],
    pub tos: [u16; MOST_EDGES],
    pub ways: [u8; MOST_EDGES],
}

#[derive(Drop)]
pub struct Slots {
    pub nodes: NodeSlots,
    pub edges: EdgeSlots,
}

impl NodeSlots {
    fn lent(&self) -> LentNodes<'_>
        ensures { nodes_lent result ≡ node_slots self.now }
    {
        LentNodes {
            kinds: &self.kinds,
            checks: &self.checks,
            privileged: &self.privileged,
            entries: &self.entries,
            grants: &self.grants,
        }
    }

    fn places(&mut self) -> NodePlaces<'_>
        ensures held { node_places result ≡ node_slots self.old }
        ensures room { NodesLong 1024 (map_node length (node_places result)) }
    {
        let NodeSlots {
            kinds,
            checks,
            privileged,
            entries,
            grants,
        } = self;
        NodePlaces {
            kinds,
            checks,
            privileged,
            entries,
            grants,
        }
    }
}

impl EdgeSlots {
    fn lent(&self) -> LentEdges<'_>
        ensures { edges_lent result ≡ edge_slots self.now }
    {
        LentEdges {
            froms: &self.froms,
            tos: &self.tos,
            ways: &self.ways,
        }
    }

    fn places(&mut self) -> EdgePlaces<'_>
        ensures held { edge_places result ≡ edge_slots self.old }
        ensures room { EdgesLong 4096 (map_edge length (edge_places result)) }
    {
        let EdgeSlots { froms, tos, ways } = self;
        EdgePlaces { froms, tos, ways }
    }
}

impl Slots {
    pub fn new() -> Slots
        ensures { Clear result }
    {
        Slots {
            nodes: NodeSlots {
                kinds: [0u8; MOST_NODES],
                checks: [0u16; MOST_NODES],
                privileged: [0u8; MOST_NODES],
                entries: [0u8; MOST_NODES],
                grants: [0u64; MOST_NODES],
            },
            edges: EdgeSlots {
                froms: [0u16; MOST_EDGES],
                tos: [0u16; MOST_EDGES],
                ways: [0u8; MOST_EDGES],
            },
        }
    }

    // All places, as a graph of this size would be lent that stands in the first of them.
    pub fn lent(&self, size: Size) -> LentGraph<'_>
        ensures { lent result ≡ slots_graph size self.now }
    {
        LentGraph {
            size,
            nodes: self.nodes.lent(),
            edges: self.edges.lent(),
        }
    }

    // All places, to be written.
    pub fn places(&mut self) -> GraphPlaces<'_>
        ensures nodes { node_places result.nodes ≡ node_slots self.old.nodes }
        ensures edges { edge_places result.edges ≡ edge_slots self.old.edges }
        ensures room { Ample (map_node length (node_places result.nodes)) (map_edge length (edge_places result.edges)) }
    {
        let Slots { nodes, edges } = self;
        GraphPlaces {
            nodes: nodes.places(),
            edges: edges.places(),
        }
    }
}
