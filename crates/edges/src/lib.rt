// Whether an edge of a kind leads from one node to another.
#![tactic(auto)]

ghost use Rattle.std.specs.Prelude.{◌≡◌, length};
ghost use Rattle.truth.specs.Truth.{Says, First};
ghost use Rattle.graph.specs.Graph.{edges_of, edge_at, EdgesLong};
ghost use Rattle.graph.specs.Lent.{edges_lent};
ghost use Rattle.edges.specs.Leading.{Leading};
ghost use Rattle.edges.specs.Leading.Search.{Joins};

use graph::LentEdges;

fn joins(from: u16, to: u16, way: u8, kind: u8, a: usize, b: usize) -> bool
    ensures { Says (Joins (edges_of from to way) kind a b) result }
{
    if from as usize != a {
        return false;
    }
    if to as usize != b {
        return false;
    }
    way == kind
}

// The first edge of a kind that leads from a to b, or m. A loop over the slices themselves: `any` with a closure, or a loop over what lies behind the reference, takes
// a third more instructions, and twice the time.
fn first_joining(
    m: usize,
    froms: &[u16],
    tos: &[u16],
    ways: &[u8],
    kind: u8,
    a: usize,
    b: usize,
) -> usize
    requires { EdgesLong m (edges_of (length froms.now) (length tos.now) (length ways.now)) }
    ensures { First (λ i. Joins (edge_at (edges_of froms.now tos.now ways.now) i) kind a b → ⊥) m result }
{
    for e in 0..m {
        if joins(froms[e], tos[e], ways[e], kind, a, b) {
            return e;
        }
    }
    m
}

// Whether one of m edges, of a kind, leads from a to b. Slices that are not m long hold none.
pub fn lead(m: usize, edges: &LentEdges, kind: u8, a: usize, b: usize) -> bool
    ensures { Says (Leading m (edges_lent edges.now) kind a b) result }
{
    if !rules::edges_long(m, edges.lengths()) {
        return false;
    }
    first_joining(m, edges.froms, edges.tos, edges.ways, kind, a, b) < m
}
