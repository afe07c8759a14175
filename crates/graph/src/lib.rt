// The graph's numbers: its kinds, its limits, its size, and why a call that is lent one is refused.
#![tactic(auto)]

ghost use Rattle.std.specs.Prelude.{◌≡◌, length};
ghost use Rattle.graph.specs.Graph.{map_node, map_edge};
ghost use Rattle.graph.specs.Lent.{node_lengths, edge_lengths, nodes_lent, edges_lent, node_places, edge_places};
ghost use Rattle.graph.specs.Refusals.{numbered};

// Why a call is refused, each with the place that it names. `Refusals` of specs/ gives the number that goes with each.
#[derive(Clone, Copy, PartialEq, Eq)]
pub enum Refusal {
    Shape,
    Node(usize),
    Edge(usize),
    NoEntry,
    Asked,
    Stack,
    NotACheck,
    NoRule,
    Denied,
    NoRoom,
    Row(usize),
    TooLong,
}

impl Refusal {
    // A match, since a case that holds a place has no discriminant to cast.
    pub fn number(self) -> usize
        ensures { result ≡ (numbered self).number }
    {
        match self {
            Refusal::Shape => 1,
            Refusal::Node(_) => 2,
            Refusal::Edge(_) => 3,
            Refusal::NoEntry => 4,
            Refusal::Asked => 5,
            Refusal::Stack => 6,
            Refusal::NotACheck => 7,
            Refusal::NoRule => 8,
            Refusal::Denied => 9,
            Refusal::NoRoom => 10,
            Refusal::Row(_) => 11,
            Refusal::TooLong => 12,
        }
    }

    // Where it is, or 0 where the refusal names no place.
    pub fn place(self) -> usize
        ensures { result ≡ (numbered self).place }
    {
        match self {
            Refusal::Node(i) | Refusal::Edge(i) | Refusal::Row(i) => i,
            _ => 0,
        }
    }
}

// The kinds of a node. They are numbers and no enum, as are an edge's kinds and the marks: the slices that a caller lends hold them, any byte may stand
// there, and refusals 2 and 3 say which may not (`NodeRule`, `EndsRule`).
pub const KIND_CALL: u8 = 0;

pub const KIND_RETURN: u8 = 1;

pub const KIND_CHECK: u8 = 2;

// The kinds of an edge.
pub const CALL: u8 = 0;

pub const TRANSFER: u8 = 1;

// A privileged mark or an entry mark that is there; 0 where it is not.
pub const MARKED: u8 = 1;

// How many nodes and edges a graph may have; `Set::LIMIT` says how many permissions.
pub const MOST_NODES: usize = 1024;

pub const MOST_EDGES: usize = 4096;

// How many permissions, nodes and edges there are.
#[derive(Clone, Copy)]
pub struct Size {
    pub k: usize,
    pub n: usize,
    pub m: usize,
}

// What a node has, by its numbers.
#[derive(Clone, Copy)]
pub struct Node {
    pub kind: u8,
    pub check: u16,
    pub privileged: u8,
    pub entry: u8,
    pub grants: u64,
}

// What an edge has.
#[derive(Clone, Copy)]
pub struct Edge {
    pub from: u16,
    pub to: u16,
    pub way: u8,
}

// How long the slices of nodes are, and those of edges.
#[derive(Clone, Copy)]
pub struct NodeLengths {
    pub kinds: usize,
    pub checks: usize,
    pub privileged: usize,
    pub entries: usize,
    pub grants: usize,
}

#[derive(Clone, Copy)]
pub struct EdgeLengths {
    pub froms: usize,
    pub tos: usize,
    pub ways: usize,
}

// The slices that a caller lends to be read: one entry in each for a node, or for an edge.
#[derive(Clone, Copy)]
pub struct LentNodes<'a> {
    pub kinds: &'a [u8],
    pub checks: &'a [u16],
    pub privileged: &'a [u8],
    pub entries: &'a [u8],
    pub grants: &'a [u64],
}

#[derive(Clone, Copy)]
pub struct LentEdges<'a> {
    pub froms: &'a [u16],
    pub tos: &'a [u16],
    pub ways: &'a [u8],
}

// A graph as a caller lends it. Nothing is known of it before it is judged.
#[derive(Clone, Copy)]
pub struct LentGraph<'a> {
    pub size: Size,
    pub nodes: LentNodes<'a>,
    pub edges: LentEdges<'a>,
}

// The slices that a caller lends to be written. One struct for these and those to be read would need a type parameter for each width, at every use.
#[derive(Drop)]
pub struct NodePlaces<'a> {
    pub kinds: &'a mut [u8],
    pub checks: &'a mut [u16],
    pub privileged: &'a mut [u8],
    pub entries: &'a mut [u8],
    pub grants: &'a mut [u64],
}

#[derive(Drop)]
pub struct EdgePlaces<'a> {
    pub froms: &'a mut [u16],
    pub tos: &'a mut [u16],
    pub ways: &'a mut [u8],
}

#[derive(Drop)]
pub struct GraphPlaces<'a> {
    pub nodes: NodePlaces<'a>,
    pub edges: EdgePlaces<'a>,
}

impl LentNodes<'_> {
    pub fn lengths(&self) -> NodeLengths
        ensures { node_lengths result ≡ map_node length (nodes_lent self.now) }
    {
        NodeLengths {
            kinds: self.kinds.len(),
            checks: self.checks.len(),
            privileged: self.privileged.len(),
            entries: self.entries.len(),
            grants: self.grants.len(),
        }
    }
}

impl LentEdges<'_> {
    pub fn lengths(&self) -> EdgeLengths
        ensures { edge_lengths result ≡ map_edge length (edges_lent self.now) }
    {
        EdgeLengths {
            froms: self.froms.len(),
            tos: self.tos.len(),
            ways: self.ways.len(),
        }
    }
}

impl NodePlaces<'_> {
    pub fn lengths(&self) -> NodeLengths
        ensures { node_lengths result ≡ map_node length (node_places self.now) }
    {
        NodeLengths {
            kinds: self.kinds.len(),
            checks: self.checks.len(),
            privileged: self.privileged.len(),
            entries: self.entries.len(),
            grants: self.grants.len(),
        }
    }
}

impl EdgePlaces<'_> {
    pub fn lengths(&self) -> EdgeLengths
        ensures { edge_lengths result ≡ map_edge length (edge_places self.now) }
    {
        EdgeLengths {
            froms: self.froms.len(),
            tos: self.tos.len(),
            ways: self.ways.len(),
        }
    }
}
