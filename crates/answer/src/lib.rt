// What is printed for a text: the rows of its graph, or its refusal's row.
#![tactic(auto)]

ghost use Rattle.std.specs.Prelude.{◌≡◌};
ghost use Rattle.graph.specs.Lent.{lent};
ghost use Rattle.handover.specs.Handover.{places, held_graph, SamePlaces};
ghost use Rattle.answer.specs.Prints.{ReadsAnswers};
ghost use Rattle.answer.specs.Prints.Parts.{Places, Held, WritesRead};

use graph::{GraphPlaces, LentEdges, LentGraph, LentNodes, Refusal, Size};

// The graph of this size that stands in the first places. `handover` has one of its own, of slices to be read: shared they would be public, and a public call
// has no `requires`.
fn first_places<'a>(held: &'a GraphPlaces, size: Size) -> LentGraph<'a>
    requires { Places size (places held.now) }
    ensures { lent result ≡ held_graph size (places held.now) }
{
    let n = size.n;
    let m = size.m;
    let nodes = &held.nodes;
    let edges = &held.edges;
    LentGraph {
        size,
        nodes: LentNodes {
            kinds: &nodes.kinds[..n],
            checks: &nodes.checks[..n],
            privileged: &nodes.privileged[..n],
            entries: &nodes.entries[..n],
            grants: &nodes.grants[..n],
        },
        edges: LentEdges {
            froms: &edges.froms[..m],
            tos: &edges.tos[..m],
            ways: &edges.ways[..m],
        },
    }
}

// Writes what is printed for what was read into the first places.
fn write_read(
    out: &mut [u8],
    reading: Result<Size, Refusal>,
    held: &GraphPlaces,
) -> Result<usize, Refusal>
    requires { Held reading (places held.now) }
    ensures { WritesRead (places held.now) out.old reading result out.new }
{
    match reading {
        Ok(size) => report::write_graph(out, &first_places(held, size)),
        Err(why) => refusals::write_refusal(out, why),
    }
}

// Reads a text into places, and writes what is printed for it at the start of a buffer.
pub fn write_answer(out: &mut [u8], into: &mut GraphPlaces, text: &[u8]) -> Result<usize, Refusal>
    ensures answers { ReadsAnswers (places into.old) text.now out.old result out.new (places into.new) }
    ensures same_places { SamePlaces into.old into.new }
{
    let reading = text::read(text, into);
    write_read(out, reading, into)
}
