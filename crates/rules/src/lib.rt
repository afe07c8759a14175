// The rules of a graph by numbers: of one node, of the ends of one edge, of the counts and of the slices' lengths.
#![tactic(auto)]

ghost use Rattle.std.specs.Prelude.{◌≡◌, ◌<◌};
ghost use Rattle.truth.specs.Truth.{Says};
ghost use Rattle.graph.specs.Graph.{privileged_by, NodeRule, EndsRule, Ranges, NodesLong, EdgesLong, ShapeRule, ResultsLong};
ghost use Rattle.graph.specs.Lent.{node_numbers, node_lengths, edge_lengths};

use graph::{EdgeLengths, Node, NodeLengths, Size};
use sets::Set;

fn check_obeys(k: usize, kind: u8, check: u16) -> bool
    ensures { Says ((kind ≡ 2 → check < k) × ((kind ≡ 2 → ⊥) → check ≡ 0)) result }
{
    if kind == graph::KIND_CHECK {
        usize::from(check) < k
    } else {
        check == 0
    }
}

// Whether a node obeys its rule.
pub fn node_obeys(k: usize, node: Node) -> bool
    ensures { Says (NodeRule k (node_numbers node)) result }
{
    node.kind <= graph::KIND_CHECK
        && node.privileged <= graph::MARKED
        && node.entry <= graph::MARKED
        && check_obeys(k, node.kind, node.check)
        && (Set { bits: node.grants }).within(Set::all(k))
}

// Whether a node with this mark is privileged for permission p.
pub fn is_privileged(mark: u8, p: usize) -> bool
    ensures { result ≡ privileged_by mark p }
{
    mark == graph::MARKED
}

// Whether an edge of a kind may lead from a node of a kind to another, by the grants of the two.
pub fn ends_obey(way: u8, leaves: u8, out: u64, into: u64) -> bool
    ensures { Says (EndsRule way leaves out into) result }
{
    match way {
        graph::CALL => leaves == graph::KIND_CALL,
        graph::TRANSFER => {
            (leaves == graph::KIND_CALL || leaves == graph::KIND_CHECK) && out == into
        }
        _ => false,
    }
}

// Whether K, N and M are in range.
pub fn in_range(size: Size) -> bool
    ensures { Says (Ranges size) result }
{
    1 <= size.k
        && size.k <= Set::LIMIT
        && 1 <= size.n
        && size.n <= graph::MOST_NODES
        && size.m <= graph::MOST_EDGES
}

// By the lengths of a node's slices.
pub fn nodes_long(n: usize, long: NodeLengths) -> bool
    ensures { Says (NodesLong n (node_lengths long)) result }
{
    long.kinds == n
        && long.checks == n
        && long.privileged == n
        && long.entries == n
        && long.grants == n
}

// By the lengths of an edge's slices.
pub fn edges_long(m: usize, long: EdgeLengths) -> bool
    ensures { Says (EdgesLong m (edge_lengths long)) result }
{
    long.froms == m && long.tos == m && long.ways == m
}

// Whether the counts are in range and every slice is as long as it has to be.
pub fn has_shape(size: Size, nodes: NodeLengths, edges: EdgeLengths) -> bool
    ensures { Says (ShapeRule size (node_lengths nodes) (edge_lengths edges)) result }
{
    in_range(size) && nodes_long(size.n, nodes) && edges_long(size.m, edges)
}

// Whether the four slices of a result are as long as they have to be, by their lengths: the struct of these slices is the solver's, above this crate.
pub fn results_long(
    n: usize,
    m: usize,
    denied: usize,
    granted: usize,
    may: usize,
    sure: usize,
) -> bool
    ensures { Says (ResultsLong n m denied granted may sure) result }
{
    denied == n && granted == n && may == m && sure == m
}
