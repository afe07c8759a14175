// The rows that are printed for a graph, by the sets that solve it.
#![tactic(auto)]

ghost use Rattle.graph.specs.Lent.{lent};
ghost use Rattle.report.specs.Report.{WritesGraph};

use graph::{LentGraph, MOST_EDGES, MOST_NODES, Refusal};
use solver::SetPlaces;
use verdict::LentSets;

// Writes the rows of a graph at the start of a buffer.
pub fn write_graph(out: &mut [u8], graph: &LentGraph) -> Result<usize, Refusal>
    ensures { WritesGraph (lent graph.now) out.old result out.new }
{
    let n = graph.size.n;
    let m = graph.size.m;
    if MOST_NODES < n || MOST_EDGES < m {
        return Err(Refusal::Shape);
    }
    let mut denied = [0u64; MOST_NODES];
    let mut granted = [0u64; MOST_NODES];
    let mut may = [0u64; MOST_EDGES];
    let mut sure = [0u64; MOST_EDGES];
    let mut into = SetPlaces {
        denied: &mut denied[..n],
        granted: &mut granted[..n],
        may: &mut may[..m],
        sure: &mut sure[..m],
    };
    solver::solve(graph, &mut into)?;
    let SetPlaces {
        denied,
        granted,
        ..
    } = into;
    let sets = LentSets { denied, granted };
    rows::write_result(out, n, graph.nodes.kinds, graph.nodes.checks, &sets)
}
